ghost use Rattle.std.specs.Prelude.{◌≡◌};
ghost use Rattle.keeper.specs.declared.failed.KeepError.TheVariants.{NoMemory as no_memory, Failed as has_failed};

use quota_units::{Failed, NoMemory};
use std::alloc::{AllocError, AllocFailed};
use thiserror::Error;

/// Why a store gave no answer to a call that takes an allocator.
#[derive(Clone, Copy, Debug, PartialEq, Eq, Error)]
pub enum KeepError {
    /// Out of memory. The files are as before, and no fault is counted.
    #[error("out of memory")]
    NoMemory,
    /// The store failed, and counted the fault.
    #[error("the store has failed")]
    Failed,
}

impl From<Failed> for KeepError {
    ghost from_gives = { λ _ e. e ≡ has_failed };

    fn from(_: Failed) -> Self {
        KeepError::Failed
    }
}

impl From<NoMemory> for KeepError {
    ghost from_gives = { λ _ e. e ≡ no_memory };

    fn from(_: NoMemory) -> Self {
        KeepError::NoMemory
    }
}

impl From<AllocError> for KeepError {
    ghost from_gives = { λ _ e. e ≡ no_memory };

    fn from(_: AllocError) -> Self {
        KeepError::NoMemory
    }
}

impl<T: Drop> From<AllocFailed<T>> for KeepError {
    ghost from_gives = { λ _ e. e ≡ no_memory };

    fn from(_: AllocFailed<T>) -> Self {
        KeepError::NoMemory
    }
}
