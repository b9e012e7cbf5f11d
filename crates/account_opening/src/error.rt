// Why an account is not opened.
ghost use Rattle.std.specs.Prelude.{◌≡◌};
ghost use Rattle.account_opening.specs.declared.error.OpenError.TheVariants.{NoMemory};

use keeper::KeepError;
use quota_units::Name;
use std::alloc::{AllocError, AllocFailed};
use thiserror::Error;

/// Why an account is not opened.
#[derive(Debug, Drop, Error)]
pub enum OpenError {
    /// The store failed. The keeper has counted the failure.
    #[error("the store is unavailable")]
    Store,
    /// There are more than 1048576 files in the account's mailboxes.
    #[error("{found} messages are too many")]
    TooManyMessages { found: u64 },
    /// Two files of a mailbox have this base. At most 255 bytes of it are shown.
    #[error("two files of a mailbox have one base")]
    DoubleName { name: Name },
    /// A delivery of this epoch could have this base. At most 255 bytes of it are shown.
    #[error("a file has a base of this epoch")]
    EpochUsed { name: Name },
    #[error("out of memory")]
    NoMemory,
}

impl From<AllocError> for OpenError {
    ghost from_gives = { λ _ e. e ≡ NoMemory };

    fn from(_: AllocError) -> Self {
        OpenError::NoMemory
    }
}

impl From<KeepError> for OpenError {
    ghost use Rattle.account_opening.specs.Admitting.{open_error};

    ghost from_gives = { λ fault e. e ≡ open_error fault };

    fn from(fault: KeepError) -> Self {
        match fault {
            KeepError::NoMemory => OpenError::NoMemory,
            KeepError::Failed => OpenError::Store,
        }
    }
}
