// Why a line is not done.
use account_ledger::OpenError;
use keeper::KeepError;
use quota_roots::RootsError;
use quota_units::{Failed, Name, NameError, NoMemory};
use std::alloc::{AllocError, AllocFailed};
use std::fmt;

/// Why a line is not done.
#[derive(Debug, Drop)]
pub enum Trouble {
    /// The line has no known form, or a value out of its range.
    NoForm,
    /// No account is open.
    NoAccount,
    /// The setup of the store is not sound.
    Unsound,
    Refused(OpenError),
    Failed,
    NoMemory,
}

impl fmt::Display for Trouble {
    fn fmt<W: fmt::Write>(&self, f: &mut fmt::Formatter<W>) -> fmt::Result {
        match self {
            Trouble::NoForm => f.write_str("no form"),
            Trouble::NoAccount => f.write_str("no account"),
            Trouble::Unsound => f.write_str("no sound setup"),
            Trouble::Refused(cause) => write_refusal(f, cause),
            Trouble::Failed => f.write_str("failed"),
            Trouble::NoMemory => f.write_str("no memory"),
        }
    }
}

fn write_refusal<W: fmt::Write>(f: &mut fmt::Formatter<W>, cause: &OpenError) -> fmt::Result {
    match cause {
        OpenError::Store => f.write_str("refused: store failed"),
        OpenError::TooManyMessages { found } => write!(f, "refused: too many messages {found}"),
        OpenError::DoubleName { name } => write!(f, "refused: double name {}", text_in(name)),
        OpenError::EpochUsed { name } => write!(f, "refused: epoch used {}", text_in(name)),
        OpenError::NoMemory => f.write_str("no memory"),
    }
}

fn text_in(name: &Name) -> &str {
    str::from_utf8(name.as_slice()).unwrap_or("no text")
}

impl From<AllocError> for Trouble {
    fn from(_: AllocError) -> Self {
        Trouble::NoMemory
    }
}

impl<T: Drop> From<AllocFailed<T>> for Trouble {
    fn from(_: AllocFailed<T>) -> Self {
        Trouble::NoMemory
    }
}

impl From<NoMemory> for Trouble {
    fn from(_: NoMemory) -> Self {
        Trouble::NoMemory
    }
}

impl From<NameError> for Trouble {
    fn from(fault: NameError) -> Self {
        match fault {
            NameError::NoMemory => Trouble::NoMemory,
            NameError::TooLong { .. } => Trouble::NoForm,
        }
    }
}

impl From<RootsError> for Trouble {
    fn from(_: RootsError) -> Self {
        Trouble::Unsound
    }
}

impl From<KeepError> for Trouble {
    fn from(fault: KeepError) -> Self {
        match fault {
            KeepError::NoMemory => Trouble::NoMemory,
            KeepError::Failed => Trouble::Failed,
        }
    }
}

impl From<Failed> for Trouble {
    fn from(_: Failed) -> Self {
        Trouble::Failed
    }
}
