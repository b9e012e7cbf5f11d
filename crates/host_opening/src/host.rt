// All accounts of a host, in the order of its table.
ghost use Rattle.std.specs.Prelude.{◌≡◌, ◌≤◌, ◌<◌, take, length, IfOk, IfErr, IsErrOf};
ghost use Rattle.std.specs.List.{AllZip};
ghost use Rattle.quota_units.specs.Causes.{HasCause};
ghost use Rattle.keeper.specs.Calls.{Changes};
ghost use Rattle.host_opening.specs.Opening.{OpensEach, WasOpened};
ghost use Rattle.host_opening.specs.Refusing.{RefusesFirst};
ghost use Rattle.host_opening.specs.Closing.{ClosesEach, faults_of};

use crate::account::{close_account, open_account};
use account_ledger::{AccountState, OpenError};
use accounts_file::HostTable;
use keeper::Stores;
use std::alloc::Global;

/// Opens the accounts of the table, in its order, each with the setup of its entry and at the
/// table's epoch.
///
/// # Errors
///
/// The first account that is refused decides. `Store` if the stores did not give its keeper out, or
/// if the keeper failed. In either case the stores have counted a fault. `TooManyMessages`,
/// `DoubleName` and `EpochUsed` if the account's files prevent opening it, as `AccountState::open`
/// says. `NoMemory` if memory runs out. Each keeper that was given out is given back before the
/// call returns, with its files as they were.
pub fn open_accounts<M: Stores>(
    alloc: Global,
    table: &HostTable,
    stores: &mut M,
) -> Result<Vec<AccountState<M::K>>, OpenError>
where
    M::K: Drop,
    // Each state is that of its entry, just opened.
    ensures opened { IfOk result (λ states.
        AllZip (WasOpened table.now.epoch) table.now.accounts states.items) }

    // If the stores tell their accounts: each state was opened over the keeper of its entry's name,
    // these accounts are open, and the others are told as before.
    ensures opens { IfOk result (λ states. Changes
        (OpensEach M.K.told table.now.epoch table.now.accounts states.items)
        (M.told stores.old) (M.told stores.new)) }

    // If the stores tell their accounts: the files of the first account that is refused give the
    // cause, and no account is open that was not open before.
    ensures refuses { IfErr result (λ cause. Changes
        (RefusesFirst M.K.told table.now.epoch cause table.now.accounts)
        (M.told stores.old) (M.told stores.new)) }

    // The stores count a fault exactly if the store failed.
    ensures cause { HasCause (IsErrOf result OpenError.Store) (M.faults stores.old)
        (M.faults stores.new) }
{
    let count = table.count();
    let Ok(mut states) = Vec::with_capacity(alloc, count as usize) else {
        return Err(OpenError::NoMemory);
    };
    for account in 0..count {
        match open_account(alloc, table.entry(account), table.epoch(), stores) {
            Ok(state) => states.push_reserved(state),
            Err(cause) => {
                close_first(table, states, stores);
                return Err(cause);
            }
        }
    }
    Ok(states)
}

/// Closes the accounts of the table: gives the keeper of each state back to the stores, under the
/// name of the state's account. There is one state for each account, in the order of the table. If
/// a call of a keeper other than an append has failed since its account was opened, the stores
/// count a fault. It allocates no memory.
pub fn close_accounts<M: Stores>(table: &HostTable, states: Vec<AccountState<M::K>>, stores: &mut M)
where
    M::K: Drop,
    requires { length states.items ≡ length table.now.accounts }
    ensures closes { Changes (ClosesEach M.K.told M.K.faults M.K.append_faults M.K.lists
        table.now.accounts states.items) (M.told stores.old) (M.told stores.new) }
    ensures cause { HasCause (0 < faults_of states.items) (M.faults stores.old)
        (M.faults stores.new) }
{
    close_first(table, states, stores);
}

/// Closes the first accounts of the table, which have these states.
fn close_first<M: Stores>(table: &HostTable, states: Vec<AccountState<M::K>>, stores: &mut M)
where
    M::K: Drop,
    requires { length states.items ≤ length table.now.accounts }
    ensures closes { Changes (ClosesEach M.K.told M.K.faults M.K.append_faults M.K.lists
        (take (length states.items) table.now.accounts) states.items)
        (M.told stores.old) (M.told stores.new) }
    ensures cause { HasCause (0 < faults_of states.items) (M.faults stores.old)
        (M.faults stores.new) }
{
    let mut states = states;
    let _count = table.count();
    while let Some(state) = states.pop() {
        let account = states.len() as u32;
        close_account(table.entry(account), state, stores);
    }
}
