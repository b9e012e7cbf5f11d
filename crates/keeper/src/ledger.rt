ghost use Rattle.std.specs.Prelude.{◌≡◌, ◌+◌, ◌<◌, ◌++◌, length, Some, IfOk};
ghost use Rattle.std.specs.Option.{option_map};
ghost use Rattle.keeper.specs.Files.{bytes_of};

use std::alloc::{AllocError, Global};
use std::marker::Model;

/// A ledger has fewer bytes than this.
pub(crate) const LEDGER_ROOM: usize = 5120;

/// A ledger in memory, with room for as many bytes as it may have. Contracts see its bytes, or none
/// if the ledger does not exist.
#[derive(Debug, Drop)]
pub(crate) struct Ledger {
    bytes: Vec<u8>,
    exists: bool,
}

impl Model for Ledger {
    ghost use Rattle.std.specs.Prelude.{◌≡◌, ◌≤◌, false, ℕ, List, [], Option, Some, None, vec_capacity, if◌then◌else◌};

    ghost Value = { Option (List ℕ) };

    ghost view = { λ l. if l.exists then Some l.bytes.items else None };

    ghost invariant = { λ l. (5120 ≤ vec_capacity l.bytes)
        × (l.exists ≡ false → l.bytes.items ≡ []) };
}

impl Ledger {
    /// A ledger with these bytes, or one that does not exist yet.
    pub(crate) fn new(alloc: Global, ledger: Option<Vec<u8>>) -> Result<Ledger, AllocError>
        ensures { IfOk result (λ made. made ≡ option_map (λ bytes. bytes.items) ledger) }
    {
        match ledger {
            None => Ok(Ledger {
                bytes: Vec::with_capacity(alloc, LEDGER_ROOM)?,
                exists: false,
            }),
            Some(mut bytes) => {
                bytes.reserve(LEDGER_ROOM.saturating_sub(bytes.len()))?;
                Ok(Ledger {
                    bytes,
                    exists: true,
                })
            }
        }
    }

    /// A copy of the bytes, or `None` if the ledger does not exist.
    pub(crate) fn read(&self, alloc: Global) -> Result<Option<Vec<u8>>, AllocError>
        ensures { IfOk result (λ found. option_map (λ bytes. bytes.items) found ≡ self.now) }
    {
        if !self.exists {
            return Ok(None);
        }
        Ok(Some(self.bytes.to_vec(alloc)?))
    }

    /// Appends a line. It allocates no memory.
    pub(crate) fn append(&mut self, line: &[u8])
        requires { length (bytes_of self.old) + length line.now < 5120 }
        ensures { self.new ≡ Some (bytes_of self.old ++ line.now) }
    {
        self.bytes.extend_from_slice(line).unwrap();
        self.exists = true;
    }

    /// Writes a text in place of the bytes. It allocates no memory.
    pub(crate) fn install(&mut self, text: &[u8])
        requires { length text.now < 5120 }
        ensures { self.new ≡ Some text.now }
    {
        self.bytes.clear();
        self.bytes.extend_from_slice(text).unwrap();
        self.exists = true;
    }
}
