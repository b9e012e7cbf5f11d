ghost use Rattle.std.specs.Prelude.{◌≡◌};
ghost use Rattle.quota_roots.specs.Copies.{GivesCopy};

use super::lists::copy_name;
use quota_units::{Name, NoMemory};
use std::alloc::Global;

/// A quota root: its name, and the prefix of the mailboxes that it governs.
///
/// A root with no prefix governs every mailbox but `Trash`. A root with a prefix governs the
/// mailbox of that name, and every mailbox whose name begins with the prefix and a `.`.
#[derive(Debug, Drop)]
pub struct RootSpec {
    pub name: Name,
    pub prefix: Option<Name>,
}

impl RootSpec {
    ghost use Rattle.quota_roots.specs.Governing.{gains, governs, is_under};

    /// Whether the root governs the mailbox of this name.
    pub fn governs(&self, mailbox: &[u8]) -> bool
        ensures { result ≡ governs self.now mailbox.now }
    {
        match &self.prefix {
            None => mailbox != b"Trash".as_slice(),
            Some(prefix) => Self::is_under(prefix.as_slice(), mailbox),
        }
    }

    /// Whether the root governs the mailbox `to` and not the mailbox `from`.
    pub(crate) fn gains(&self, from: &[u8], to: &[u8]) -> bool
        ensures { result ≡ gains self.now from.now to.now }
    {
        self.governs(to) && !self.governs(from)
    }

    /// An equal root.
    pub(crate) fn copy(&self, alloc: Global) -> Result<RootSpec, NoMemory>
        ensures { GivesCopy self.now result }
    {
        let name = copy_name(alloc, &self.name)?;
        let prefix = match &self.prefix {
            None => None,
            Some(prefix) => Some(copy_name(alloc, prefix)?),
        };
        Ok(RootSpec { name, prefix })
    }

    #[tactic(auto, using(crate::proofs::PrefixLemmas::goes_on))]
    fn is_under(prefix: &[u8], mailbox: &[u8]) -> bool
        ensures { result ≡ is_under prefix.now mailbox.now }
    {
        match mailbox.strip_prefix(prefix) {
            None => false,
            Some(rest) => rest.is_empty() || rest[0] == b'.',
        }
    }
}
