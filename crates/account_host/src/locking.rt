// Each account of a new host is put under a lock.
ghost use Rattle.std.specs.Prelude.{◌<◌, IfOk, IfErr};
ghost use Rattle.std.specs.List.{All, AllZip};
ghost use Rattle.account_host.specs.Beginning.{GivenBack, IsFresh, LocksEach};

use crate::ending::end_each;
use crate::faults::HostFault;
use account_ledger::AccountState;
use account_lock::{Lock, LockFault, Pass};
use keeper::Keeper;
use std::alloc::Global;

/// The locks of a host and the first pass of each; and the list in which their accounts were. It is
/// empty and has room for them.
pub(crate) struct Locked<K: Keeper> {
    pub(crate) locks: Vec<Lock<AccountState<K>>>,
    pub(crate) passes: Vec<Pass>,
    pub(crate) spare: Vec<AccountState<K>>,
}

/// Puts each account under a lock, the last one first.
///
/// # Errors
///
/// Memory ran out. The accounts are handed back in their order.
pub(crate) fn lock_each<K: Keeper + Drop>(
    alloc: Global,
    mut states: Vec<AccountState<K>>,
    callers: u32,
) -> Result<Locked<K>, HostFault<K>>
    requires callers { 0 < callers }
    requires fresh { All IsFresh states.items }
    ensures locked { IfOk result (LocksEach callers states.items) }
    ensures refused { IfErr result (λ fault. AllZip GivenBack states.items fault.states.items) }
{
    let count = states.len();
    let Ok(mut locks) = Vec::with_capacity(alloc, count) else {
        return Err(HostFault { states });
    };
    let Ok(mut passes) = Vec::with_capacity(alloc, count) else {
        return Err(HostFault { states });
    };
    while let Some(state) = states.pop() {
        match Lock::new(alloc, state, callers) {
            Ok((lock, pass)) => {
                locks.push_reserved(lock);
                passes.push_reserved(pass);
            }
            Err(LockFault { value }) => {
                states.push_reserved(value);
                return Err(HostFault {
                    states: end_each(locks, passes, states),
                });
            }
        }
    }
    Ok(Locked {
        locks,
        passes,
        spare: states,
    })
}
