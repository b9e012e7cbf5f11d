//! What holds of every lock between any two steps, whoever makes them. These functions do nothing:
//! each is a law, which its contract states.
ghost use Rattle.account_lock.specs.Laws.{OneTurn, TicketsInLine, HomeIsCounted};

use account_core::Booked;

/// At most one pass has the turn, and its ticket is the one that is served.
pub fn at_most_one_has_the_turn<V: Booked>()
    ensures { OneTurn V.origin V.history }
{}

/// The tickets that are out are those from the one that is served up to the next to be drawn. Each
/// is out with one pass.
pub fn tickets_stand_in_line<V: Booked>()
    ensures { TicketsInLine V.origin V.history }
{}

/// If no pass has taken the value, the value's history has as many entries as the lock counts,
/// modulo 2^64. Each pass has seen a prefix of it, and made those of its entries that have the
/// pass's number.
pub fn a_value_at_home_has_the_history<V: Booked>()
    ensures { HomeIsCounted V.origin V.history }
{}
