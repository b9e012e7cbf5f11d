// What the account of a workload uses at the end.
ghost use Rattle.std.specs.Prelude.{◌≡◌, map, IfOk};
ghost use Rattle.desk.specs.Shares.{share_at};
ghost use Rattle.plain_desk.specs.Owning.{share_of};
ghost use Rattle.workload.specs.Accounts.{HasOneAccount};
ghost use Rattle.workload.specs.Summaries.{usage_of};

use account_core::StepError;
use keeper::FixedKeeper;
use plain_desk::PlainDesk;
use quota_units::{NoMemory, Totals};
use std::alloc::Global;

/// The usage of the one root of the account of a workload's desk.
///
/// # Errors
///
/// `NoMemory` if memory runs out.
pub(crate) fn usage(alloc: Global, desk: PlainDesk<FixedKeeper>) -> Result<Totals, NoMemory>
    requires { HasOneAccount desk }
    ensures { IfOk result (λ totals. totals ≡ usage_of (share_at (map share_of desk) 0)) }
{
    let mut states = desk.into_states();
    match states[0].usage(alloc, 0) {
        Ok(totals) => Ok(totals),
        Err(StepError::NoMemory) => Err(NoMemory),
        Err(StepError::Store) => unreachable!(),
        Err(StepError::JournalFull { .. }) => unreachable!(),
    }
}
