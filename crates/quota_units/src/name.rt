ghost use Rattle.std.specs.Prelude.{◌≡◌, ◌<◌, ◌≤◌, ◌↔◌, length, vec_len, IfOk, IfErr, ◌⊎◌};
ghost use Rattle.quota_units.specs.declared.name.NameError.TheVariants.{NoMemory};

use crate::NoMemory;
use std::alloc::{AllocError, Global};
use std::marker::Model;
use thiserror::Error;

/// Why bytes are not a name.
#[derive(Clone, Copy, Debug, PartialEq, Eq, Error)]
pub enum NameError {
    /// There are more than 255 bytes.
    #[error("a name has at most 255 bytes, not {length}")]
    TooLong { length: usize },
    #[error("out of memory")]
    NoMemory,
}

impl From<AllocError> for NameError {
    ghost from_gives = { λ _ e. e ≡ NoMemory };

    fn from(_: AllocError) -> Self {
        NameError::NoMemory
    }
}

/// A name of an account, a quota root, a mailbox or a message base: at most 255 bytes.
#[derive(Debug, Drop)]
pub struct Name {
    bytes: Vec<u8>,
}

impl Model for Name {
    ghost use Rattle.std.specs.Prelude.{ℕ, List, ◌≤◌, length};

    ghost Value = { List ℕ };

    ghost view = { λ n. n.bytes.items };

    ghost invariant = { λ n. length n.bytes.items ≤ 255 };
}

impl Name {
    /// The name of these bytes.
    ///
    /// # Errors
    ///
    /// `TooLong` if there are more than 255 bytes; `NoMemory` if memory runs out.
    pub fn of(alloc: Global, bytes: &[u8]) -> Result<Name, NameError>
        ensures ok { IfOk result (λ name. name ≡ bytes.now) }
        ensures too_long { (result ≡ Err (NameError.TooLong (length bytes.now)))
            ↔ (255 < length bytes.now) }
        ensures only { IfErr result (λ e. (e ≡ NameError.TooLong (length bytes.now))
            ⊎ (e ≡ NameError.NoMemory)) }
    {
        if bytes.len() > 255 {
            return Err(NameError::TooLong {
                length: bytes.len(),
            });
        }
        Ok(Name {
            bytes: bytes.to_vec(alloc)?,
        })
    }

    /// The name of these bytes, of which there are at most 255.
    ///
    /// # Errors
    ///
    /// `NoMemory` if memory runs out.
    pub fn of_short(alloc: Global, bytes: &[u8]) -> Result<Name, NoMemory>
        requires { length bytes.now ≤ 255 }
        ensures { IfOk result (λ name. name ≡ bytes.now) }
    {
        Ok(Name {
            bytes: bytes.to_vec(alloc)?,
        })
    }

    /// The name that this vector holds. This allocates no memory.
    ///
    /// # Errors
    ///
    /// `TooLong` if there are more than 255 bytes. There is no other error.
    pub fn from_vec(bytes: Vec<u8>) -> Result<Name, NameError>
        ensures ok { IfOk result (λ name. name ≡ bytes.items) }
        ensures too_long { (result ≡ Err (NameError.TooLong (vec_len bytes)))
            ↔ (255 < vec_len bytes) }
        ensures only { IfErr result (λ e. e ≡ NameError.TooLong (vec_len bytes)) }
    {
        let length = bytes.len();
        if length > 255 {
            return Err(NameError::TooLong { length });
        }
        Ok(Name { bytes })
    }

    /// The name's bytes.
    pub fn as_slice(&self) -> &[u8]
        ensures value { result.now ≡ self.now }
        ensures short { length self.now ≤ 255 }
    {
        self.bytes.as_slice()
    }
}
