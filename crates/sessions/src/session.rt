// A session of any front.
ghost use Rattle.std.specs.Prelude.{◌≡◌, ◌≢◌, ◌⊎◌, IfSome};
ghost use Rattle.quota_units.specs.Causes.{HasCause, Rose};
ghost use Rattle.desk.specs.Logs.{IsLog, IsRepliedLog};
ghost use Rattle.desk.specs.Shares.{HaveNoFailure};
ghost use Rattle.front_core.specs.Desks.{IsDeskOf, IsLogin};
ghost use Rattle.sessions.specs.Fronts.{start_of, IsSessionOf, EndsAsInputDecides};

use crate::front::Front;
use accounts_file::HostTable;
use desk::Desk;
use imap_front::run_imap;
use policy_front::run_policy;
use std::alloc::Global;
use wire_io::{SessionEnd, Sink, Source};

/// Serves a session of the front to its end, over the accounts of the table. It reads the source,
/// asks the desk, and writes to the sink.
///
/// The session takes at most 1073741824 bytes from the source.
pub fn run_session<S: Source, O: Sink, D: Desk>(
    alloc: Global,
    front: Front,
    table: &HostTable,
    desk: &mut D,
    source: &mut S,
    sink: &mut O,
) -> SessionEnd
    requires desk { IsDeskOf table.now (D.shares desk.old) }
    requires account { IsLogin table.now (start_of front) }

    // What is written answers what is read. Each reply is the account machine's, at its call's
    // place in the account's history.
    ensures session { IsSessionOf table.now front
        (IsLog (D.shares desk.old) (D.shares desk.new))
        (S.left source.old) (S.left source.new) (O.written sink.old) (O.written sink.new) result }

    // If no entry that the desk has seen by the end has fault, and no history is full then, each
    // call of the session got the account machine's own reply.
    ensures replied { HaveNoFailure (D.shares desk.new) → IsSessionOf table.now front
        (IsRepliedLog (D.shares desk.old) (D.shares desk.new))
        (S.left source.old) (S.left source.new) (O.written sink.old) (O.written sink.new) result }

    // The session keeps of the desk what each call keeps.
    ensures leads { D.leads desk.old desk.new }

    // The end is `ReadFault` if a read failed, and `WriteFault` if a write failed. No other failure
    // is counted.
    ensures read_cause { HasCause (result ≡ SessionEnd.ReadFault)
        (S.faults source.old) (S.faults source.new) }
    ensures write_cause { HasCause (result ≡ SessionEnd.WriteFault)
        (O.faults sink.old) (O.faults sink.new) }

    // The input decides an end. The session has that end unless something failed or memory ran out.
    ensures decided { IfSome (S.left source.old) (λ input.
        EndsAsInputDecides table.now front input
        (Rose (S.faults source.old) (S.faults source.new)
        ⊎ Rose (O.faults sink.old) (O.faults sink.new)) result) }
{
    match front {
        Front::Imap => run_imap(alloc, None, table, desk, source, sink),
        Front::ImapAs(account) => run_imap(alloc, Some(account), table, desk, source, sink),
        Front::Policy => run_policy(alloc, table, desk, source, sink),
    }
}
