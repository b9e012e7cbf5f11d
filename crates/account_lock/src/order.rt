// The rule of a lock's table, and its kinds of step.
ghost use Rattle.account_lock.specs.Order.{KeepsOrder};
ghost use Rattle.account_lock.specs.Views.{first_view, making, newcomer, joined};
ghost use Rattle.account_lock.specs.Known.{nobody};
ghost use Rattle.account_lock.specs.Steps.{drew, looked, served_next, committed, enlisted, bounded};

use crate::start::Start;
use crate::view::View;
use account_core::Booked;
use atomic_table::{Join, Play, Split, TableRule};

/// The rule. A table is given the value at the start, and the number of passes that may be made.
pub struct Order;

impl<V: Booked> TableRule<Option<V>, View, (Start<V>, u32)> for Order {
    ghost holds = { λ about. KeepsOrder V.origin V.history about.1 };

    ghost first = { λ about. first_view about.0 about.1 };
}

pub struct Draw;

impl<V: Booked> Play<Option<V>, View> for Draw {
    ghost then = { drew V.origin V.history };
}

pub struct Look;

impl<V: Booked> Play<Option<V>, View> for Look {
    ghost then = { looked V.origin V.history };
}

pub struct ServeNext;

impl<V: Booked> Play<Option<V>, View> for ServeNext {
    ghost then = { served_next V.origin V.history };
}

pub struct Commit;

impl<V: Booked> Play<Option<V>, View> for Commit {
    ghost then = { committed V.origin V.history };
}

pub struct Enlist;

impl<V: Booked> Play<Option<V>, View> for Enlist {
    ghost then = { enlisted V.origin V.history };
}

pub struct Bound;

impl<V: Booked> Play<Option<V>, View> for Bound {
    ghost then = { bounded V.origin V.history };
}

pub struct Newcomer;

impl Split<View> for Newcomer {
    ghost left = { making };

    ghost right = { newcomer };
}

pub struct Together;

impl Join<View> for Together {
    ghost both = { joined };

    ghost spent = { nobody };
}
