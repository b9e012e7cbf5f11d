// Settling the roots of a live account, and judging by their usage whether a message fits them.
ghost use Rattle.std.specs.Prelude.{◌≡◌, ◌<◌, length, nat_eq, All, IfOk, OnOk, IsErr};
ghost use Rattle.quota_roots.specs.RootSets.{has_root};
ghost use Rattle.account_core.specs.Account.{Account};
ghost use Rattle.account_core.specs.Machine.{over_of};
ghost use Rattle.root_ledgers.specs.declared.book.Standing.TheVariants.{Settled};
ghost use Rattle.root_ledgers.specs.Settling.{StaysInDoubt, book_at};
ghost use Rattle.account_ledger.specs.Rows.{IsInside, IsVerdict};
ghost use Rattle.account_ledger.specs.Stores.{usage_at};
ghost use Rattle.account_ledger.specs.Settling.{AreSettled, LedgersStay, SparesLedgers};
ghost use Rattle.account_ledger.specs.Lives.{IsWhole, Prepares, Shows, store_of};
ghost use Rattle.account_core.specs.History.{NeverFull};

use crate::fault::step_error;
use crate::live::LiveAccount;
use crate::rows::{show_limits, totals_of};
use account_core::StepError;
use admission::{Verdict, admit};
use keeper::Keeper;
use quota_roots::RootSet;
use quota_units::{MAX_SUM, Totals};
use std::alloc::Global;

impl<K: Keeper> LiveAccount<K> {
    /// Settles each root of the set that is in doubt.
    ///
    /// # Errors
    ///
    /// `Store` if the store failed. One of the roots is still in doubt then. `NoMemory` if memory
    /// runs out. The roots, the files and the counts of faults are as before then.
    pub(crate) fn settle(&mut self, alloc: Global, set: RootSet) -> Result<(), StepError>
        requires { All (λ root. root < length self.old.roots) set }
        ensures prepares { Prepares (result ≡ Err StepError.Store)
            (has_root set) self.old self.new }
        ensures settled { OnOk result (AreSettled (has_root set) (store_of self.new)) }
        ensures failed { result ≡ Err StepError.Store → StaysInDoubt (has_root set) self.new.books }
        ensures spared { SparesLedgers result (store_of self.old) (store_of self.new) }
        ensures whole { IsWhole self.new }
        ensures never_full { NeverFull result }
    {
        // What is known of the ledgers before they are settled.
        self.ledgers.show_kept();
        let settled = self.ledgers.settle(
            alloc,
            &mut self.keeper,
            &self.roots,
            self.mailboxes.as_slice(),
            set,
        );
        self.show_whole();
        settled.map_err(step_error)
    }

    /// Settles the root of this number if it is in doubt, and gives its usage.
    ///
    /// # Errors
    ///
    /// `Store` if the store failed, and `NoMemory` if memory runs out. The root and its ledger are
    /// as before then.
    pub(crate) fn usage(&mut self, alloc: Global, root: u32) -> Result<Totals, StepError>
        requires { root < length self.old.roots }
        ensures prepares { Prepares (result ≡ Err StepError.Store) (nat_eq root) self.old self.new }
        ensures settled { OnOk result (AreSettled (nat_eq root) (store_of self.new)) }
        ensures totals { IfOk result (λ totals. totals ≡ (book_at self.new.books root).totals) }
        ensures usage { IfOk result (λ totals. (account : Account) → Shows self.old account
            → totals ≡ usage_at self.old.roots root account) }
        ensures stays { IsErr result → LedgersStay (store_of self.old) (store_of self.new) }
        ensures spared { SparesLedgers result (store_of self.old) (store_of self.new) }
        ensures whole { IsWhole self.new }
        ensures never_full { NeverFull result }
    {
        self.show_whole();
        self.settle(alloc, RootSet::one(root))?;
        Ok(self.totals_of(root))
    }

    /// The totals in the book of the root of this number.
    fn totals_of(&self, root: u32) -> Totals
        requires { root < length self.now.roots }
        ensures { result ≡ (book_at self.now.books root).totals }
    {
        self.ledgers.show_kept();
        self.ledgers.books()[root as usize].totals
    }

    /// Whether a message of this many octets fits the roots of a set. All of them are settled. The
    /// verdict takes no memory.
    pub(crate) fn verdict(&self, set: RootSet, octets: u64) -> Verdict
        requires settled { AreSettled (has_root set) (store_of self.now) }
        requires inside { All (λ root. root < length self.now.roots) set }
        ensures verdict { (account : Account) → Shows self.now account
            → IsVerdict (over_of self.now.roots account set octets) result }
        ensures inside { IsInside (length self.now.roots) result }
    {
        self.ledgers.show_kept();
        let totals = totals_of(self.ledgers.books());
        show_limits(self.ledgers.limits());
        // Limits are below MAX_SUM, so octets that are cut at MAX_SUM get the same verdict.
        let octets = octets.min(MAX_SUM);
        let count = self.ledgers.books().len();
        admit(self.ledgers.limits(), &totals[..count], set, octets)
    }
}
