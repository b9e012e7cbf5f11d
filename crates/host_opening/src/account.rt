// One account: its keeper is taken from the stores and given back to them.
ghost use Rattle.std.specs.Prelude.{◌≡◌, ◌<◌, IfOk, IfErr, IsErrOf};
ghost use Rattle.quota_units.specs.Causes.{HasCause};
ghost use Rattle.quota_roots.specs.Setups.{IsSound};
ghost use Rattle.keeper.specs.Calls.{Changes};
ghost use Rattle.host_opening.specs.Opening.{OpensOne, WasOpened};
ghost use Rattle.host_opening.specs.Refusing.{RefusesOne};
ghost use Rattle.host_opening.specs.Closing.{ClosesOne};

use account_ledger::{AccountState, OpenError, OpenFault};
use accounts_file::AccountEntry;
use keeper::Stores;
use std::alloc::Global;

/// Opens the account of this entry: takes its keeper from the stores, and opens the account over it
/// with the entry's setup. The epoch is the second in which the host is opened.
///
/// # Errors
///
/// `Store` if the stores did not give the keeper out, or if the keeper failed. In either case the
/// stores have counted a fault. `TooManyMessages`, `DoubleName` and `EpochUsed` if the account's
/// files prevent opening it, as `AccountState::open` says. `NoMemory` if memory runs out. If the
/// keeper was given out, it is given back before the call returns, with its files as they were.
pub fn open_account<M: Stores>(
    alloc: Global,
    entry: &AccountEntry,
    epoch: u64,
    stores: &mut M,
) -> Result<AccountState<M::K>, OpenError>
    requires { IsSound entry.now.setup }
    ensures opened { IfOk result (WasOpened epoch entry.now) }
    ensures opens { IfOk result (λ state. Changes (OpensOne M.K.told epoch entry.now state)
        (M.told stores.old) (M.told stores.new)) }
    ensures refuses { IfErr result (λ cause. Changes (RefusesOne M.K.told epoch cause entry.now)
        (M.told stores.old) (M.told stores.new)) }
    ensures cause { HasCause (IsErrOf result OpenError.Store) (M.faults stores.old)
        (M.faults stores.new) }
{
    let Ok(setup) = entry.setup.copy(alloc) else {
        return Err(OpenError::NoMemory);
    };
    let keeper = stores.open(alloc, entry.name.as_slice())?;
    match AccountState::open(alloc, keeper, setup, epoch) {
        Ok(state) => Ok(state),
        Err(OpenFault { cause, keeper }) => {
            stores.close(entry.name.as_slice(), keeper);
            Err(cause)
        }
    }
}

/// Closes the account of this entry: gives its keeper back to the stores. If a call of the keeper
/// other than an append has failed since the account was opened, the stores count a fault. It
/// allocates no memory.
pub fn close_account<M: Stores>(entry: &AccountEntry, state: AccountState<M::K>, stores: &mut M)
    ensures closes { Changes (ClosesOne M.K.told M.K.faults M.K.append_faults M.K.lists
        entry.now state) (M.told stores.old) (M.told stores.new) }
    ensures cause { HasCause (0 < state.store.faults) (M.faults stores.old) (M.faults stores.new) }
{
    stores.close(entry.name.as_slice(), state.into_keeper());
}
