ghost use Rattle.std.specs.Prelude.{◌≡◌, ◌↔◌, None};
ghost use Rattle.std.specs.IoError.{error_kind, raw_os_error};

use keeper::KeepError;
use std::io;
use std::io::ErrorKind;

/// The cause of an error: `NoMemory` if it is an out-of-memory error without an error number of the
/// system, and `Failed` if it is any other error.
pub(crate) fn cause(error: io::Error) -> KeepError
    ensures { (result ≡ KeepError.NoMemory)
        ↔ ((error_kind error ≡ ErrorKind.OutOfMemory) × (raw_os_error error ≡ None)) }
{
    if error.kind() == ErrorKind::OutOfMemory && error.raw_os_error().is_none() {
        KeepError::NoMemory
    } else {
        KeepError::Failed
    }
}

/// `Failed`, whatever the error is: for a call that changes files.
pub(crate) fn fault(_: io::Error) -> KeepError
    ensures { result ≡ KeepError.Failed }
{
    KeepError::Failed
}
