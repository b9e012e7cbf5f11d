// A live account: its keeper, and what is kept of it in memory.
ghost use Rattle.std.specs.Prelude.{◌≡◌, ◌<◌, ◌^◌, ℕ, length, bytes_eq, All, IfSome};
ghost use Rattle.std.specs.List.{list_any};
ghost use Rattle.std.specs.Option.{option_map};
ghost use Rattle.quota_roots.specs.Governing.{gainers, gains_by};
ghost use Rattle.quota_roots.specs.RootLists.{root_named};
ghost use Rattle.quota_roots.specs.RootSets.{has_root};
ghost use Rattle.account_core.specs.Legality.{HasBytes, MayBeAsked};
ghost use Rattle.account_ledger.specs.Lives.{IsShown, IsWhole, Steps};

use crate::counts::Counts;
use account_core::{Call, Reply, StepError};
use keeper::Keeper;
use quota_roots::{NameList, RootSet, Roots};
use quota_units::Name;
use root_ledgers::RootLedgers;
use std::alloc::Global;
use std::marker::Model;

/// An account without its history: a keeper with the files, and what is kept in memory of the
/// account and its roots.
#[derive(Drop)]
pub(crate) struct LiveAccount<K: Keeper> {
    pub(crate) keeper: K,
    pub(crate) roots: Roots,
    pub(crate) mailboxes: NameList,
    pub(crate) epoch: u64,
    pub(crate) ledgers: RootLedgers,
    pub(crate) counts: Counts,
}

impl<K: Keeper> Model for LiveAccount<K> {
    ghost use Rattle.std.specs.Prelude.{◌≡◌, length};
    ghost use Rattle.quota_roots.specs.Setups.{AreMailboxes};
    ghost use Rattle.account_ledger.specs.Lives.{Live};

    ghost Value = { Live };

    ghost view = { λ a. record {
      told = K.told a.keeper;
      faults = K.faults a.keeper;
      append_faults = K.append_faults a.keeper;
      lists = K.lists a.keeper;
      roots = a.roots;
      mailboxes = a.mailboxes;
      epoch = a.epoch;
      limits = a.ledgers.limits;
      books = a.ledgers.books;
      deliveries = a.counts.deliveries;
      generation = a.counts.generation;
    } };

    ghost invariant = { λ a. (length a.ledgers.limits ≡ length a.roots)
        × AreMailboxes a.mailboxes };
}

impl<K: Keeper> LiveAccount<K> {
    /// Performs a call: changes the files and the ledgers, and gives the reply. It makes no entry
    /// of a history.
    pub(crate) fn perform(
        &mut self,
        alloc: Global,
        call: &Call,
        bytes: &[u8],
    ) -> Result<Reply, StepError>
        requires asked { MayBeAsked call.now }
        requires bytes { HasBytes call.now bytes.now }
        requires shown { IsShown self.old }
        requires countable { self.old.deliveries < 2 ^ 63 }
        requires changes { self.old.generation < 2 ^ 63 }
        ensures { Steps call.now bytes.now result self.old self.new }
    {
        match call {
            Call::Deliver {
                mailbox,
                octets,
                flags,
            } => self.deliver(alloc, mailbox.as_slice(), *octets, *flags, bytes),
            Call::Check { octets } => self.check(alloc, *octets),
            Call::Remove { mailbox, base } => {
                self.remove(alloc, mailbox.as_slice(), base.as_slice())
            }
            Call::Mark {
                mailbox,
                base,
                flags,
            } => self.mark(alloc, mailbox.as_slice(), base.as_slice(), *flags),
            Call::Move { from, base, to } => {
                self.move_message(alloc, from.as_slice(), base.as_slice(), to.as_slice())
            }
            Call::Quota { root } => self.quota(alloc, root.as_slice()),
            Call::SetLimits { root, limits } => self.set_limits(alloc, root.as_slice(), *limits),
            Call::Roots { mailbox } => self.roots(alloc, mailbox.as_slice()),
            Call::Status { mailbox } => self.status(alloc, mailbox.as_slice()),
            Call::ScanBegin => self.scan_begin(alloc),
            Call::ScanPart { index } => self.scan_part(alloc, *index),
            Call::Install { .. } => unreachable!(),
        }
    }

    /// Shows contracts that there are limits and a book for each root, and that the mailboxes are
    /// sound.
    ///
    /// It exists for proofs alone.
    pub(crate) fn show_whole(&self)
        ensures { IsWhole self.now }
    {
        self.ledgers.show_kept();
    }

    /// Whether the account has a mailbox of this name.
    pub(crate) fn has_mailbox(&self, name: &[u8]) -> bool
        ensures { result ≡ list_any (λ mailbox. bytes_eq mailbox name.now) self.now.mailboxes }
    {
        has_name(self.mailboxes.as_slice(), name)
    }

    /// The number of the root of this name.
    pub(crate) fn find_root(&self, name: &[u8]) -> Option<u32>
        ensures root { result ≡ root_named self.now.roots name.now }
        ensures inside { IfSome result (λ root. root < length self.now.roots) }
    {
        self.roots.find(name)
    }

    /// The roots that gain a message that goes from one mailbox to another: those that govern the
    /// target and not the source. A message that is delivered has no source.
    pub(crate) fn gainers(&self, from: Option<&[u8]>, to: &[u8]) -> RootSet
        ensures value { result
            ≡ gainers self.now.roots (option_map (λ m. m.now) from.entry) to.now }
        ensures members { (root : ℕ) → has_root result root
            ≡ gains_by self.now.roots (option_map (λ m. m.now) from.entry) to.now root }
        ensures below { All (λ root. root < length self.now.roots) result }
    {
        self.roots.gainers(from, to)
    }
}

/// Whether this name is in the list.
fn has_name(names: &[Name], name: &[u8]) -> bool
    ensures { result ≡ list_any (λ mailbox. bytes_eq mailbox name.now) names.now }
{
    names.iter().any(|mailbox| mailbox.as_slice() == name)
}
