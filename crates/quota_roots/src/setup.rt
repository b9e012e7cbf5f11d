ghost use Rattle.std.specs.Prelude.{◌≡◌, ◌↔◌, Some, bytes_eq, codes, slice_get, IsTrue};
ghost use Rattle.std.specs.List.{list_all, list_any};
ghost use Rattle.quota_roots.specs.Copies.{GivesCopy};
ghost use Rattle.quota_roots.specs.Setups.{IsSound, AreMailboxes, are_different, is_mailbox};

use crate::lists::{LimitsList, NameList};
use crate::mailbox::{canonical_spelling, is_mailbox_name};
use crate::roots::Roots;
use quota_units::{Name, NoMemory};
use std::alloc::Global;

/// The most mailboxes that an account has.
pub const MAX_MAILBOXES: usize = 256;

/// The most entries that the history of an account may have.
pub const MAX_JOURNAL: u32 = 524288;

/// What an account is opened with.
#[derive(Debug, Drop)]
pub struct Setup {
    /// Its quota roots.
    pub roots: Roots,
    /// The limits of each root, in the order of the roots.
    pub limits: LimitsList,
    /// The names of its mailboxes.
    pub mailboxes: NameList,
    /// The most entries of its history.
    pub journal: u32,
}

impl Setup {
    /// An equal setup.
    ///
    /// # Errors
    ///
    /// `NoMemory` if memory runs out.
    pub fn copy(&self, alloc: Global) -> Result<Setup, NoMemory>
        ensures { GivesCopy self.now result }
    {
        Ok(Setup {
            roots: self.roots.copy(alloc)?,
            limits: self.limits.copy(alloc)?,
            mailboxes: self.mailboxes.copy(alloc)?,
            journal: self.journal,
        })
    }

    /// Whether the setup has limits for each root, 1 to 256 different mailboxes in canonical
    /// spelling with INBOX first, and a history of 1 to 524288 entries.
    pub fn is_sound(&self) -> bool
        ensures { IsTrue result ↔ IsSound self.now }
    {
        let room = 1 <= self.journal && self.journal <= MAX_JOURNAL;
        room && self.limits.as_slice().len() == self.roots.count() as usize
            && are_mailboxes(self.mailboxes.as_slice())
    }
}

/// Whether these are 1 to 256 different mailboxes in canonical spelling with INBOX first.
fn are_mailboxes(mailboxes: &[Name]) -> bool
    ensures { IsTrue result ↔ AreMailboxes mailboxes.now }
{
    if !begins_with_inbox(mailboxes) || mailboxes.len() > MAX_MAILBOXES {
        return false;
    }
    all_named(mailboxes) && are_different(mailboxes)
}

/// Whether each is a mailbox name in canonical spelling.
fn all_named(mailboxes: &[Name]) -> bool
    ensures { result ≡ list_all is_mailbox mailboxes.now }
{
    mailboxes.iter().all(|name| is_mailbox(name.as_slice()))
}

fn begins_with_inbox(mailboxes: &[Name]) -> bool
    ensures { IsTrue result ↔ (slice_get mailboxes.now 0 ≡ Some (codes "INBOX")) }
{
    match mailboxes.first() {
        None => false,
        Some(name) => name.as_slice() == b"INBOX".as_slice(),
    }
}

/// Whether the bytes are a mailbox name in canonical spelling.
fn is_mailbox(name: &[u8]) -> bool
    ensures { result ≡ is_mailbox name.now }
{
    is_mailbox_name(name) && canonical_spelling(name) == name
}

/// Whether no name occurs twice.
#[tactic(auto, using(crate::proofs::SetupLemmas::different_more, crate::proofs::SetupLemmas::different_end))]
fn are_different(names: &[Name]) -> bool
    ensures { result ≡ are_different names.now }
{
    for (at, name) in names.iter().enumerate() {
        if has_name(&names[at + 1..], name.as_slice()) {
            return false;
        }
    }
    true
}

fn has_name(names: &[Name], name: &[u8]) -> bool
    ensures { result ≡ list_any (λ other. bytes_eq other name.now) names.now }
{
    names.iter().any(|other| other.as_slice() == name)
}
