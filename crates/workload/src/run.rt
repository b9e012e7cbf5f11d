// A workload, served and summed up.
ghost use Rattle.std.specs.Prelude.{◌≡◌, ◌≢◌, ◌≤◌, [], ◌∷◌, map, IfOk, OnOk};
ghost use Rattle.std.specs.List.{All};
ghost use Rattle.accounts_file.specs.Hosts.{plain_hosts};
ghost use Rattle.plain_desk.specs.Owning.{share_of};
ghost use Rattle.owner_sessions.specs.Plain.{NeverFails, plain_share};
ghost use Rattle.workload.specs.Accounts.{limits, HasOneAccount};
ghost use Rattle.workload.specs.Summaries.{session_on, summary};

use crate::pipes::{Input, Output};
use crate::requests::requests;
use crate::summary::Summary;
use crate::tally::count_answers;
use crate::usage::usage;
use accounts_file::HostTable;
use keeper::FixedKeeper;
use owner_sessions::open_plain;
use plain_desk::PlainDesk;
use quota_units::{Limits, NoMemory};
use sessions::{Front, run_session};
use std::alloc::Global;
use wire_io::SessionEnd;

/// The most octets that the account of a workload may have.
const MAX_OCTETS: u64 = 1048576;

/// The most messages that the account of a workload may have.
const MAX_MESSAGES: u64 = 500;

/// The table of the account of a workload, and a desk of that account, which is empty.
fn open(alloc: Global) -> Result<(HostTable, PlainDesk<FixedKeeper>), NoMemory>
    ensures table { IfOk result (λ opened. opened.0 ≡ plain_hosts limits) }
    ensures fresh { IfOk result (λ opened. map share_of opened.1 ≡ plain_share limits ∷ []) }
    ensures never_fails { IfOk result (λ opened. All NeverFails opened.1) }
{
    let Some(limits) = Limits::new(Some(MAX_OCTETS), Some(MAX_MESSAGES)) else {
        unreachable!()
    };
    open_plain(alloc, limits)
}

/// Fails if memory ran out in a session that wrote to memory: a write fails only then.
fn end_with_memory(end: SessionEnd) -> Result<(), NoMemory>
    ensures written { OnOk result (end ≢ SessionEnd.WriteFault) }
    ensures memory { OnOk result (end ≢ SessionEnd.NoMemory) }
{
    match end {
        SessionEnd::WriteFault | SessionEnd::NoMemory => Err(NoMemory),
        _ => Ok(()),
    }
}

/// Serves a session of the policy protocol that reads these bytes, and returns what it writes.
fn serve(
    alloc: Global,
    table: &HostTable,
    desk: &mut PlainDesk<FixedKeeper>,
    bytes: Vec<u8>,
) -> Result<Vec<u8>, NoMemory>
    requires table { table.now ≡ plain_hosts limits }
    requires fresh { map share_of desk.old ≡ plain_share limits ∷ [] }
    requires never_fails { All NeverFails desk.old }
    ensures text { IfOk result (λ text. text.items ≡ (session_on bytes.items).text) }
    ensures shares { OnOk result (map share_of desk.new ≡ (session_on bytes.items).world) }
    ensures account { HasOneAccount desk.new }
{
    let mut source = Input::new(bytes);
    let mut sink = Output::new(alloc);
    let end = run_session(alloc, Front::Policy, table, desk, &mut source, &mut sink);
    desk.show_owned();
    end_with_memory(end)?;
    Ok(sink.into_bytes())
}

/// Makes an account in memory with a limit of 1048576 octets and one of 500 messages, sends it `n`
/// requests of the policy protocol in one session, and sums up how they were answered. `n` is from
/// 1 to 4096.
///
/// # Errors
///
/// `NoMemory` if memory runs out.
pub fn run_workload(alloc: Global, n: u64) -> Result<Summary, NoMemory>
    requires some { 1 ≤ n }
    requires bounded { n ≤ 4096 }
    ensures { IfOk result (λ found. found ≡ summary n) }
{
    let bytes = requests(alloc, n)?;
    let (table, mut desk) = open(alloc)?;
    let text = serve(alloc, &table, &mut desk, bytes)?;
    let usage = usage(alloc, desk)?;
    let tally = count_answers(&text);
    Ok(Summary {
        requests: n,
        delivered: tally.delivered,
        refused: tally.refused,
        removed: tally.removed,
        missing: tally.missing,
        octets: usage.octets,
        messages: usage.count,
    })
}
