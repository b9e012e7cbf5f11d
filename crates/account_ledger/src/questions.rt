// The calls that leave the account as it is: questions about roots and mailboxes, and scans.
ghost use Rattle.std.specs.Prelude.{◌≡◌, ◌<◌, ◌≤◌, ◌↔◌, [], vec_capacity, map, length, All, IfOk, IsTrue};
ghost use Rattle.quota_roots.specs.Governing.{governing};
ghost use Rattle.admission.specs.Fitting.{limits_at};
ghost use Rattle.account_ledger.specs.Lives.{Steps};
ghost use Rattle.account_ledger.specs.Rows.{kept_rows};

use crate::counting::{sets_of, sums_of};
use crate::fault::check_reply;
use crate::live::LiveAccount;
use crate::rows::rows_of;
use account_core::{Call, Reply, RootRow, RootRows, RootSets, StepError};
use keeper::Keeper;
use quota_roots::MAX_ROOTS;
use quota_units::Limits;
use root_ledgers::totals_of_files;
use std::alloc::{AllocError, Global};

impl<K: Keeper> LiveAccount<K> {
    /// The quota of the root of this name. If the root is in doubt, it is settled first.
    pub(crate) fn quota(&mut self, alloc: Global, name: &[u8]) -> Result<Reply, StepError>
        ensures { Steps (Call.Quota name.now) [] result self.old self.new }
    {
        self.show_whole();
        let Some(root) = self.find_root(name) else {
            return Ok(Reply::NoRoot);
        };
        let totals = self.usage(alloc, root)?;
        let limits = self.limits_of(root);
        Ok(Reply::Quota(RootRow {
            root,
            octets: totals.octets,
            count: totals.count,
            limits,
        }))
    }

    /// The limits of the root of this number.
    fn limits_of(&self, root: u32) -> Limits
        requires { root < length self.now.roots }
        ensures { result ≡ limits_at self.now.limits root }
    {
        self.ledgers.limits()[root as usize]
    }

    /// The rows of the roots that govern the mailbox. Those roots that are in doubt are settled
    /// first.
    pub(crate) fn roots(&mut self, alloc: Global, mailbox: &[u8]) -> Result<Reply, StepError>
        ensures { Steps (Call.Roots mailbox.now) [] result self.old self.new }
    {
        self.show_whole();
        let rows = Vec::with_capacity(alloc, MAX_ROOTS as usize)?;
        let set = self.gainers(None, mailbox);
        self.settle(alloc, set)?;
        Ok(Reply::Roots(self.rows_of(rows, mailbox)))
    }

    /// The rows of the roots that govern the mailbox. They are put into `rows`, which is empty and
    /// has memory for four.
    fn rows_of(&self, rows: Vec<RootRow>, mailbox: &[u8]) -> RootRows
        requires empty { rows.items ≡ [] }
        requires capacity { 4 ≤ vec_capacity rows }
        ensures rows { result
            ≡ kept_rows self.now.roots self.now.limits self.now.books mailbox.now }
        ensures inside { All (λ row. row.root < length self.now.roots) result }
    {
        self.ledgers.show_kept();
        rows_of(
            rows,
            &self.roots,
            self.ledgers.limits(),
            self.ledgers.books(),
            mailbox,
        )
    }

    /// Whether INBOX would take a message of this many octets. Those roots of INBOX that are in
    /// doubt are settled first.
    pub(crate) fn check(&mut self, alloc: Global, octets: u64) -> Result<Reply, StepError>
        ensures { Steps (Call.Check octets) [] result self.old self.new }
    {
        self.show_whole();
        let set = self.gainers(None, b"INBOX");
        self.settle(alloc, set)?;
        let verdict = self.verdict(set, octets);
        Ok(check_reply(verdict))
    }

    /// Lists a mailbox and gives its status.
    pub(crate) fn status(&mut self, alloc: Global, mailbox: &[u8]) -> Result<Reply, StepError>
        ensures { Steps (Call.Status mailbox.now) [] result self.old self.new }
    {
        self.show_whole();
        if !self.has_mailbox(mailbox) {
            return Ok(Reply::NoMailbox);
        }
        let files = self.list(alloc, mailbox)?;
        let sums = sums_of(&files);
        Ok(Reply::Status {
            messages: sums.all.count,
            unseen: sums.unseen,
            deleted: sums.deleted.count,
            deleted_octets: sums.deleted.octets,
            octets: sums.all.octets,
        })
    }

    /// The generation, and the roots that govern each mailbox. No mailbox is listed.
    pub(crate) fn scan_begin(&mut self, alloc: Global) -> Result<Reply, StepError>
        ensures { Steps Call.ScanBegin [] result self.old self.new }
    {
        self.show_whole();
        let generation = self.generation();
        let sets = self.sets(alloc)?;
        Ok(Reply::Begun { generation, sets })
    }

    /// How many deliveries, removals and moves between two mailboxes were made.
    fn generation(&self) -> u64
        ensures { result ≡ self.now.generation }
    {
        self.counts.generation
    }

    /// The roots that govern each mailbox.
    fn sets(&self, alloc: Global) -> Result<RootSets, AllocError>
        ensures { IfOk result (λ sets. sets ≡ map (governing self.now.roots) self.now.mailboxes) }
    {
        sets_of(alloc, &self.roots, self.mailboxes.as_slice())
    }

    /// Lists the mailbox at this place once, and gives what its messages add up to.
    pub(crate) fn scan_part(&mut self, alloc: Global, index: u32) -> Result<Reply, StepError>
        ensures { Steps (Call.ScanPart index) [] result self.old self.new }
    {
        self.show_whole();
        if !self.has_part(index) {
            return Ok(Reply::NoPart);
        }
        let generation = self.generation();
        let files = self.list_part(alloc, index)?;
        let totals = totals_of_files(&files);
        Ok(Reply::Part {
            generation,
            octets: totals.octets,
            count: totals.count,
        })
    }

    /// Whether the account has a mailbox at this place.
    fn has_part(&self, index: u32) -> bool
        ensures { IsTrue result ↔ (index < length self.now.mailboxes) }
    {
        (index as usize) < self.mailboxes.as_slice().len()
    }
}
