ghost use Rattle.std.specs.Prelude.{◌≡◌, ◌<◌, ◌≤◌, ◌+◌, ◌/◌, ◌↔◌, ◌++◌, Some, length, take, vec_len, IsErr, IsErrOf, IsTrue, IfOk, OnErr};
ghost use Rattle.quota_units.specs.Causes.{HasCause, next_count};
ghost use Rattle.keeper.specs.Files.{four_ledgers, ledger_at, ledger_bytes};
ghost use Rattle.keeper.specs.Calls.{Spends, Lists, Puts, Renames, Removes, ReadsLedger, Appends, Installs};
ghost use Rattle.keeper.specs.Plan.{fails_next, plan_after, new_plan};
ghost use Rattle.keeper.specs.Memory.{told_of};

use crate::files::MemFiles;
use crate::plan::Plan;
use crate::{FileRow, KeepCall, KeepError, KeepFail, Keeper, StoreRow};
use quota_units::{Failed, NoMemory};
use std::alloc::Global;
use std::marker::Model;

/// A keeper in memory. It fails the calls that were named when it was made, each once.
///
/// A failed `append_ledger` leaves the first half of its line.
#[derive(Debug, Drop)]
pub struct MemKeeper {
    files: MemFiles,
    plan: Plan,
}

impl Model for MemKeeper {
    ghost use Rattle.keeper.specs.Memory.{MemKeeper};

    ghost Value = { MemKeeper };

    ghost view = { λ k. record { files = k.files; plan = k.plan } };
}

impl MemKeeper {
    /// A keeper of these message files and of these ledgers, at most four, for the roots from 0 on.
    /// A root has no ledger if its place in the list is `None` or missing.
    ///
    /// It fails the calls that `fails` names. It reserves 5120 bytes per ledger, so that appends
    /// and installs allocate no memory.
    ///
    /// # Errors
    ///
    /// `NoMemory` if memory runs out.
    pub fn new(
        alloc: Global,
        rows: Vec<StoreRow>,
        ledgers: Vec<Option<Vec<u8>>>,
        fails: Vec<KeepFail>,
    ) -> Result<MemKeeper, NoMemory>
        requires { vec_len ledgers ≤ 4 }
        ensures { IfOk result (λ keeper. keeper ≡ record {
          files = record {
            rows = rows.items;
            ledgers = four_ledgers ledgers.items;
          };
          plan = new_plan fails.items;
        }) }
    {
        Ok(MemKeeper {
            files: MemFiles::new(alloc, rows, ledgers)?,
            plan: Plan::new(fails),
        })
    }

    /// How many calls other than `append_ledger` failed.
    pub fn faults(&self) -> u64
        ensures { result ≡ self.now.plan.faults }
    {
        self.plan.faults()
    }

    /// Sets both counts of faults to 0.
    pub(crate) fn forget_faults(&mut self)
        ensures { self.new
            ≡ record self.old { plan = record self.old.plan { faults = 0; append_faults = 0 } } }
    {
        self.plan.forget_faults();
    }
}

impl Keeper for MemKeeper {
    ghost told = { λ k. Some (told_of k) };

    ghost faults = { λ k. k.plan.faults };

    ghost append_faults = { λ k. k.plan.append_faults };

    ghost lists = { λ k. k.plan.made.list };

    fn list(&mut self, alloc: Global, mailbox: &[u8]) -> Result<Vec<FileRow>, KeepError>
        ensures files { Lists mailbox.now result (told_of self.old) (told_of self.new) }
        ensures cause { HasCause
            (IsErrOf result KeepError.Failed) self.old.plan.faults self.new.plan.faults }
        ensures due { Spends (IsErrOf result KeepError.Failed) self.old.plan.faults
            self.new.plan.faults (told_of self.old) (told_of self.new) }
        ensures appends { self.new.plan.append_faults ≡ self.old.plan.append_faults }
        ensures one_listing { self.new.plan.made.list ≡ next_count self.old.plan.made.list }
        ensures fails { (IsErrOf result KeepError.Failed)
            ↔ IsTrue (fails_next KeepCall.List self.old.plan) }
        ensures plan { self.new.plan ≡ plan_after KeepCall.List self.old.plan }
    {
        self.plan.call(KeepCall::List)?;
        Ok(self.files.list(alloc, mailbox)?)
    }

    fn put(
        &mut self,
        alloc: Global,
        mailbox: &[u8],
        name: &[u8],
        octets: &[u8],
    ) -> Result<(), KeepError>
        ensures files { Puts mailbox.now name.now octets.now result (told_of self.old)
            (told_of self.new) }
        ensures cause { HasCause
            (IsErrOf result KeepError.Failed) self.old.plan.faults self.new.plan.faults }
        ensures due { Spends (IsErrOf result KeepError.Failed) self.old.plan.faults
            self.new.plan.faults (told_of self.old) (told_of self.new) }
        ensures appends { self.new.plan.append_faults ≡ self.old.plan.append_faults }
        ensures listings { self.new.plan.made.list ≡ self.old.plan.made.list }
        ensures fails { (IsErrOf result KeepError.Failed)
            ↔ IsTrue (fails_next KeepCall.Put self.old.plan) }
        ensures plan { self.new.plan ≡ plan_after KeepCall.Put self.old.plan }
    {
        self.plan.call(KeepCall::Put)?;
        self.files.put(alloc, mailbox, name, octets)?;
        Ok(())
    }

    fn rename(
        &mut self,
        alloc: Global,
        from: &[u8],
        name: &[u8],
        to: &[u8],
        new_name: &[u8],
    ) -> Result<(), KeepError>
        ensures files { Renames from.now name.now to.now new_name.now result (told_of self.old)
            (told_of self.new) }
        ensures cause { HasCause
            (IsErrOf result KeepError.Failed) self.old.plan.faults self.new.plan.faults }
        ensures due { Spends (IsErrOf result KeepError.Failed) self.old.plan.faults
            self.new.plan.faults (told_of self.old) (told_of self.new) }
        ensures appends { self.new.plan.append_faults ≡ self.old.plan.append_faults }
        ensures listings { self.new.plan.made.list ≡ self.old.plan.made.list }
        ensures fails { (IsErrOf result KeepError.Failed)
            ↔ IsTrue (fails_next KeepCall.Rename self.old.plan) }
        ensures plan { self.new.plan ≡ plan_after KeepCall.Rename self.old.plan }
    {
        self.plan.call(KeepCall::Rename)?;
        self.files.rename(alloc, from, name, to, new_name)?;
        Ok(())
    }

    fn remove(&mut self, mailbox: &[u8], name: &[u8]) -> Result<(), Failed>
        ensures files { Removes mailbox.now name.now result (told_of self.old) (told_of self.new) }
        ensures cause { HasCause (IsErr result) self.old.plan.faults self.new.plan.faults }
        ensures due { Spends (IsErr result) self.old.plan.faults self.new.plan.faults
            (told_of self.old) (told_of self.new) }
        ensures appends { self.new.plan.append_faults ≡ self.old.plan.append_faults }
        ensures listings { self.new.plan.made.list ≡ self.old.plan.made.list }
        ensures fails { (IsErr result) ↔ IsTrue (fails_next KeepCall.Remove self.old.plan) }
        ensures plan { self.new.plan ≡ plan_after KeepCall.Remove self.old.plan }
    {
        self.plan.call(KeepCall::Remove)?;
        self.files.remove(mailbox, name);
        Ok(())
    }

    fn read_ledger(&mut self, alloc: Global, root: u32) -> Result<Option<Vec<u8>>, KeepError>
        requires { root < 4 }
        ensures files { ReadsLedger root result (told_of self.old) (told_of self.new) }
        ensures cause { HasCause
            (IsErrOf result KeepError.Failed) self.old.plan.faults self.new.plan.faults }
        ensures due { Spends (IsErrOf result KeepError.Failed) self.old.plan.faults
            self.new.plan.faults (told_of self.old) (told_of self.new) }
        ensures appends { self.new.plan.append_faults ≡ self.old.plan.append_faults }
        ensures listings { self.new.plan.made.list ≡ self.old.plan.made.list }
        ensures fails { (IsErrOf result KeepError.Failed)
            ↔ IsTrue (fails_next KeepCall.ReadLedger self.old.plan) }
        ensures plan { self.new.plan ≡ plan_after KeepCall.ReadLedger self.old.plan }
    {
        self.plan.call(KeepCall::ReadLedger)?;
        Ok(self.files.read_ledger(alloc, root)?)
    }

    #[tactic(auto, using(crate::proofs::LedgerLemmas::torn_at))]
    fn append_ledger(&mut self, root: u32, line: &[u8]) -> Result<(), Failed>
        requires root { root < 4 }
        requires room { length (ledger_bytes self.old.files root) + length line.now < 5120 }
        ensures files { Appends root line.now result (told_of self.old) (told_of self.new) }
        ensures cause { HasCause
            (IsErr result) self.old.plan.append_faults self.new.plan.append_faults }
        ensures due { Spends (IsErr result) self.old.plan.append_faults self.new.plan.append_faults
            (told_of self.old) (told_of self.new) }
        ensures others { self.new.plan.faults ≡ self.old.plan.faults }
        ensures listings { self.new.plan.made.list ≡ self.old.plan.made.list }
        ensures fails { (IsErr result) ↔ IsTrue (fails_next KeepCall.AppendLedger self.old.plan) }
        ensures plan { self.new.plan ≡ plan_after KeepCall.AppendLedger self.old.plan }
        ensures torn { OnErr result (ledger_at self.new.files root
            ≡ Some (ledger_bytes self.old.files root ++ take (length line.now / 2) line.now)) }
    {
        if let Err(fault) = self.plan.call(KeepCall::AppendLedger) {
            self.files.append_ledger(root, &line[..line.len() / 2]);
            return Err(fault);
        }
        self.files.append_ledger(root, line);
        Ok(())
    }

    fn install_ledger(&mut self, root: u32, text: &[u8]) -> Result<(), Failed>
        requires root { root < 4 }
        requires short { length text.now < 5120 }
        ensures files { Installs root text.now result (told_of self.old) (told_of self.new) }
        ensures cause { HasCause (IsErr result) self.old.plan.faults self.new.plan.faults }
        ensures due { Spends (IsErr result) self.old.plan.faults self.new.plan.faults
            (told_of self.old) (told_of self.new) }
        ensures appends { self.new.plan.append_faults ≡ self.old.plan.append_faults }
        ensures listings { self.new.plan.made.list ≡ self.old.plan.made.list }
        ensures fails { (IsErr result) ↔ IsTrue (fails_next KeepCall.InstallLedger self.old.plan) }
        ensures plan { self.new.plan ≡ plan_after KeepCall.InstallLedger self.old.plan }
    {
        self.plan.call(KeepCall::InstallLedger)?;
        self.files.install_ledger(root, text);
        Ok(())
    }
}
