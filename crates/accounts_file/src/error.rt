use crate::key::Key;
use quota_units::{Name, NoMemory as MemoryFault};
use std::alloc::{AllocError, AllocFailed};
use thiserror::Error;

/// Why an accounts file is refused.
#[derive(Debug, Drop, Error)]
pub enum AccountsError {
    /// The bytes are not a TOML text.
    #[error("not TOML")]
    NotToml,
    /// A required key is not there.
    #[error("missing {key}")]
    Missing { key: Key },
    /// A value does not have its key's kind, or is out of its range.
    #[error("bad {key}")]
    BadValue { key: Key },
    /// A name occurs twice: the name of an account, a token, a recipient, a mailbox of one account,
    /// or the name of a quota root of one account.
    #[error("a name occurs twice")]
    Double { name: Name },
    /// A list is too long.
    #[error("too many {key}")]
    TooMany { key: Key },
    /// Memory ran out.
    #[error("out of memory")]
    NoMemory,
}

impl From<AllocError> for AccountsError {
    ghost use Rattle.std.specs.Prelude.{◌≡◌};
    ghost use Rattle.accounts_file.specs.declared.error.AccountsError.TheVariants.{NoMemory};

    ghost from_gives = { λ _ e. e ≡ NoMemory };

    fn from(_: AllocError) -> Self {
        AccountsError::NoMemory
    }
}

impl<T: Drop> From<AllocFailed<T>> for AccountsError {
    ghost use Rattle.std.specs.Prelude.{◌≡◌};
    ghost use Rattle.accounts_file.specs.declared.error.AccountsError.TheVariants.{NoMemory};

    ghost from_gives = { λ _ e. e ≡ NoMemory };

    fn from(_: AllocFailed<T>) -> Self {
        AccountsError::NoMemory
    }
}

impl From<MemoryFault> for AccountsError {
    ghost use Rattle.std.specs.Prelude.{◌≡◌};
    ghost use Rattle.accounts_file.specs.declared.error.AccountsError.TheVariants.{NoMemory};

    ghost from_gives = { λ _ e. e ≡ NoMemory };

    fn from(_: MemoryFault) -> Self {
        AccountsError::NoMemory
    }
}
