// What a session promises to a caller of a host, put together from public clauses alone.
ghost use Rattle.std.specs.Prelude.{◌≡◌, ◌⊎◌, IfSome};
ghost use Rattle.quota_units.specs.Causes.{HasCause, Rose};
ghost use Rattle.desk.specs.Shares.{HaveNoFailure};
ghost use Rattle.front_core.specs.Desks.{IsDeskOf, IsLogin};
ghost use Rattle.account_host.specs.Leading.{Leads, shares_of};
ghost use Rattle.sessions.specs.Fronts.{IsSessionOf, EndsAsInputDecides, start_of};
ghost use Rattle.tests_of_hosts.specs.Headline.{IsPlaced, IsRepliedAndPlaced};

use account_host::Seats;
use accounts_file::HostTable;
use desk::parts_are_own_entries;
use keeper::Keeper;
use sessions::{Front, run_session};
use std::alloc::Global;
use std::sync::Wait;
use wire_io::{SessionEnd, Sink, Source};

/// A session over a caller's seats, whatever other callers ask meanwhile.
///
/// The bytes that the session writes are its protocol's answers to the bytes that it read. Each
/// reply is the account machine's at its call's own place in the account's one history, which
/// begins with all that the caller had seen, and holds each of the session's calls once.
pub(crate) fn session_over_seats<K: Keeper, R: Wait, S: Source, O: Sink>(
    alloc: Global,
    front: Front,
    table: &HostTable,
    seats: &mut Seats<'_, K, R>,
    source: &mut S,
    sink: &mut O,
) -> SessionEnd
    requires desk { IsDeskOf table.now (shares_of seats.old) }
    requires account { IsLogin table.now (start_of front) }
    ensures session { IsSessionOf table.now front
        (IsPlaced (shares_of seats.old) (shares_of seats.new))
        (S.left source.old) (S.left source.new) (O.written sink.old) (O.written sink.new) result }
    ensures replied { HaveNoFailure (shares_of seats.new) → IsSessionOf table.now front
        (IsRepliedAndPlaced (shares_of seats.old) (shares_of seats.new))
        (S.left source.old) (S.left source.new) (O.written sink.old) (O.written sink.new) result }
    ensures leads { Leads seats.old seats.new }

    // How it ends, and why.
    ensures read_cause { HasCause (result ≡ SessionEnd.ReadFault)
        (S.faults source.old) (S.faults source.new) }
    ensures write_cause { HasCause (result ≡ SessionEnd.WriteFault)
        (O.faults sink.old) (O.faults sink.new) }
    ensures decided { IfSome (S.left source.old) (λ input.
        EndsAsInputDecides table.now front input
        (Rose (S.faults source.old) (S.faults source.new)
        ⊎ Rose (O.faults sink.old) (O.faults sink.new)) result) }
{
    parts_are_own_entries();
    run_session(alloc, front, table, seats, source, sink)
}
