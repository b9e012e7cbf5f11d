ghost use Rattle.std.specs.Prelude.{◌≡◌};
ghost use Rattle.account_host.specs.declared.faults.EnlistError.TheVariants.{NoMemory};

use crate::host::Host;
use crate::set::SeatSet;
use account_ledger::AccountState;
use keeper::Keeper;
use std::alloc::AllocError;
use thiserror::Error;

/// Memory ran out while a host was made. The accounts are handed back in their order, each without
/// an entry.
#[derive(Drop)]
pub struct HostFault<K: Keeper> {
    pub states: Vec<AccountState<K>>,
}

/// Why a host made no set of passes.
#[derive(Clone, Copy, Debug, PartialEq, Eq, Error)]
pub enum EnlistError {
    /// Of some account `limit` passes were made already, the most that may be made.
    #[error("all {limit} passes of an account were made")]
    Full { limit: u32 },
    /// Memory ran out. No pass was made.
    #[error("out of memory")]
    NoMemory,
}

impl From<AllocError> for EnlistError {
    ghost from_gives = { λ _ e. e ≡ NoMemory };

    fn from(_: AllocError) -> Self {
        EnlistError::NoMemory
    }
}

/// A host that was not closed: of the account of this number `made` passes were made, and the set's
/// pass stands for only `held` of them. The host and the set are handed back.
#[derive(Drop)]
pub struct HostClose<K: Keeper> {
    pub host: Host<K>,
    pub set: SeatSet,
    pub account: u32,
    pub held: u32,
    pub made: u32,
}
