// What a session promises to the owner of a desk, put together from public clauses alone.
ghost use Rattle.std.specs.Prelude.{◌≡◌, ◌⊎◌, map, IfSome};
ghost use Rattle.std.specs.List.{All};
ghost use Rattle.quota_units.specs.Causes.{HasCause, Rose};
ghost use Rattle.desk.specs.Logs.{IsLog, IsRepliedLog};
ghost use Rattle.desk.specs.Shares.{HaveNoFailure};
ghost use Rattle.front_core.specs.Desks.{IsDeskOf, IsLogin};
ghost use Rattle.plain_desk.specs.Continuing.{EachContinues, HasNoneDue, HasRoom};
ghost use Rattle.plain_desk.specs.Owning.{AreOwned, share_of};
ghost use Rattle.sessions.specs.Fronts.{IsSessionOf, EndsAsInputDecides, start_of};
ghost use Rattle.tests_of_desks.specs.Headline.{HasFreshSums, HasLegalHistory};

use accounts_file::HostTable;
use keeper::Keeper;
use plain_desk::PlainDesk;
use sessions::{Front, run_session};
use std::alloc::Global;
use wire_io::{SessionEnd, Sink, Source};

/// A session over accounts with one owner.
///
/// The bytes that the session writes are its protocol's answers to the bytes that it read. Each
/// reply is the account machine's at its call's own place in the account's one history, which has
/// the owner's calls and no others. Between any two sessions, the sum of each settled ledger equals
/// a fresh scan.
#[tactic(auto, using(crate::proofs::OwnerLemmas::legal_each, crate::proofs::OwnerLemmas::fresh_each, crate::proofs::OwnerLemmas::no_failures))]
pub(crate) fn session_of_the_owner<K: Keeper, S: Source, O: Sink>(
    alloc: Global,
    front: Front,
    table: &HostTable,
    desk: &mut PlainDesk<K>,
    source: &mut S,
    sink: &mut O,
) -> SessionEnd
    requires desk { IsDeskOf table.now (map share_of desk.old) }
    requires account { IsLogin table.now (start_of front) }
    ensures session { IsSessionOf table.now front
        (IsLog (map share_of desk.old) (map share_of desk.new))
        (S.left source.old) (S.left source.new) (O.written sink.old) (O.written sink.new) result }

    // Each call got the account machine's own reply if no entry has fault and no history is full by
    // the end; so it is if no failure of a keeper was due before, and the journals last.
    ensures replied { HaveNoFailure (map share_of desk.new) → IsSessionOf table.now front
        (IsRepliedLog (map share_of desk.old) (map share_of desk.new))
        (S.left source.old) (S.left source.new) (O.written sink.old) (O.written sink.new) result }
    ensures none_due { All HasNoneDue desk.old → All HasRoom desk.new
        → HaveNoFailure (map share_of desk.new) }

    // Each history is legal and has the owner's entries alone, and each settled ledger adds up to a
    // fresh scan.
    ensures owned { AreOwned desk.new }
    ensures legal { All HasLegalHistory desk.new }
    ensures fresh { All HasFreshSums desk.new }
    ensures continues { EachContinues desk.old desk.new }

    // How it ends, and why.
    ensures read_cause { HasCause (result ≡ SessionEnd.ReadFault)
        (S.faults source.old) (S.faults source.new) }
    ensures write_cause { HasCause (result ≡ SessionEnd.WriteFault)
        (O.faults sink.old) (O.faults sink.new) }
    ensures decided { IfSome (S.left source.old) (λ input.
        EndsAsInputDecides table.now front input
        (Rose (S.faults source.old) (S.faults source.new)
        ⊎ Rose (O.faults sink.old) (O.faults sink.new)) result) }
{
    let end = run_session(alloc, front, table, desk, source, sink);
    desk.show_owned();
    end
}
