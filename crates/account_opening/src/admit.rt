// Whether an account may be opened, and with which limits.
ghost use Rattle.std.specs.Prelude.{◌≡◌, ◌≤◌, length, IfOk};
ghost use Rattle.quota_units.specs.Causes.{HasCause};
ghost use Rattle.keeper.specs.Calls.{Changes, SpendsDue, both};
ghost use Rattle.account_opening.specs.Admitting.{Admits, IsJudged};

use crate::OpenError;
use crate::findings::{Findings, find};
use crate::limits::read_limits;
use keeper::Keeper;
use quota_roots::Setup;
use quota_units::Limits;
use std::alloc::Global;

/// The most messages that an account may have when it is opened.
const MAX_MESSAGES: u64 = 1048576;

/// Refuses the account if these findings prevent opening it.
fn judge(found: Findings) -> Result<(), OpenError>
    ensures { IsJudged found result }
{
    let Findings {
        files,
        double,
        used,
    } = found;
    if files > MAX_MESSAGES {
        return Err(OpenError::TooManyMessages { found: files });
    }
    if let Some(name) = double {
        return Err(OpenError::DoubleName { name });
    }
    if let Some(name) = used {
        return Err(OpenError::EpochUsed { name });
    }
    Ok(())
}

/// The limits of the account's roots, if nothing in the account's files prevents opening it. The
/// limits of a root are those that the first line of its ledger defines, or else those of the
/// setup. No file is changed.
///
/// The mailboxes are listed one after another, and the files of each are looked through. If nothing
/// prevents opening the account, the ledgers are read then.
///
/// # Errors
///
/// `Store` if the store failed. `TooManyMessages` if the mailboxes have more than 1048576 files.
/// `DoubleName` if two files of a mailbox have one base; it names the first such base. `EpochUsed`
/// if the base of a file begins with the epoch and a dot and ends with `.quotad`; it names the
/// first such base. `NoMemory` if memory runs out.
pub fn admit_files<K: Keeper>(
    alloc: Global,
    keeper: &mut K,
    setup: &Setup,
    epoch: u64,
) -> Result<Vec<Limits>, OpenError>
    requires { length setup.now.limits ≤ 4 }
    ensures files { Changes (Admits setup.now epoch result) (K.told keeper.old)
        (K.told keeper.new) }
    ensures count { IfOk result (λ limits. length limits.items ≡ length setup.now.limits) }
    ensures cause { HasCause (result ≡ Err OpenError.Store) (K.faults keeper.old)
        (K.faults keeper.new) }
    ensures due { SpendsDue K.told (both K.faults K.append_faults) (result ≡ Err OpenError.Store)
        keeper.old keeper.new }
    ensures appends { K.append_faults keeper.new ≡ K.append_faults keeper.old }
{
    let found = find(alloc, keeper, setup.mailboxes.as_slice(), epoch)?;
    judge(found)?;
    Ok(read_limits(alloc, keeper, setup.limits.as_slice())?)
}
