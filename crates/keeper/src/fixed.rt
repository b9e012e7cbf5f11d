ghost use Rattle.std.specs.Prelude.{◌≡◌, ◌<◌, ◌+◌, Some, length, IfOk, IsOk, IsErr, IsErrOf};
ghost use Rattle.quota_units.specs.Causes.{HasCause, next_count};
ghost use Rattle.keeper.specs.Files.{ledger_bytes, no_files};
ghost use Rattle.keeper.specs.Calls.{NeverFails, Spends, Lists, Puts, Renames, Removes, ReadsLedger, Appends, Installs};
ghost use Rattle.keeper.specs.Memory.{told_of_fixed};

use crate::files::MemFiles;
use crate::{FileRow, KeepError, Keeper};
use quota_units::{Failed, NoMemory};
use std::alloc::Global;
use std::marker::Model;

/// A keeper in memory that never fails.
#[derive(Debug, Drop)]
pub struct FixedKeeper {
    files: MemFiles,
    lists: u64,
}

impl Model for FixedKeeper {
    ghost use Rattle.keeper.specs.Memory.{FixedKeeper};

    ghost Value = { FixedKeeper };

    ghost view = { λ k. record { files = k.files; lists = k.lists } };
}

impl FixedKeeper {
    /// A keeper with no message file and no ledger. It reserves 5120 bytes per ledger, so that
    /// appends and installs allocate no memory.
    ///
    /// # Errors
    ///
    /// `NoMemory` if memory runs out.
    pub fn new(alloc: Global) -> Result<FixedKeeper, NoMemory>
        ensures { IfOk result (λ keeper. keeper ≡ record { files = no_files; lists = 0 }) }
    {
        Ok(FixedKeeper {
            files: MemFiles::new(alloc, Vec::new(alloc), Vec::new(alloc))?,
            lists: 0,
        })
    }
}

impl Keeper for FixedKeeper {
    ghost told = { λ k. Some (told_of_fixed k) };

    ghost faults = { λ _. 0 };

    ghost append_faults = { λ _. 0 };

    ghost lists = { λ k. k.lists };

    fn list(&mut self, alloc: Global, mailbox: &[u8]) -> Result<Vec<FileRow>, KeepError>
        ensures files { Lists mailbox.now result (told_of_fixed self.old) (told_of_fixed self.new) }
        ensures cause { HasCause (IsErrOf result KeepError.Failed) 0 0 }
        ensures due { Spends (IsErrOf result KeepError.Failed) 0 0 (told_of_fixed self.old)
            (told_of_fixed self.new) }
        ensures one_listing { self.new.lists ≡ next_count self.old.lists }
        ensures works { NeverFails result }
    {
        self.lists = self.lists.saturating_add(1);
        Ok(self.files.list(alloc, mailbox)?)
    }

    fn put(
        &mut self,
        alloc: Global,
        mailbox: &[u8],
        name: &[u8],
        octets: &[u8],
    ) -> Result<(), KeepError>
        ensures files { Puts mailbox.now name.now octets.now result (told_of_fixed self.old)
            (told_of_fixed self.new) }
        ensures cause { HasCause (IsErrOf result KeepError.Failed) 0 0 }
        ensures due { Spends (IsErrOf result KeepError.Failed) 0 0 (told_of_fixed self.old)
            (told_of_fixed self.new) }
        ensures listings { self.new.lists ≡ self.old.lists }
        ensures works { NeverFails result }
    {
        Ok(self.files.put(alloc, mailbox, name, octets)?)
    }

    fn rename(
        &mut self,
        alloc: Global,
        from: &[u8],
        name: &[u8],
        to: &[u8],
        new_name: &[u8],
    ) -> Result<(), KeepError>
        ensures files { Renames from.now name.now to.now new_name.now result
            (told_of_fixed self.old) (told_of_fixed self.new) }
        ensures cause { HasCause (IsErrOf result KeepError.Failed) 0 0 }
        ensures due { Spends (IsErrOf result KeepError.Failed) 0 0 (told_of_fixed self.old)
            (told_of_fixed self.new) }
        ensures listings { self.new.lists ≡ self.old.lists }
        ensures works { NeverFails result }
    {
        Ok(self.files.rename(alloc, from, name, to, new_name)?)
    }

    fn remove(&mut self, mailbox: &[u8], name: &[u8]) -> Result<(), Failed>
        ensures files { Removes mailbox.now name.now result (told_of_fixed self.old)
            (told_of_fixed self.new) }
        ensures cause { HasCause (IsErr result) 0 0 }
        ensures due { Spends (IsErr result) 0 0 (told_of_fixed self.old) (told_of_fixed self.new) }
        ensures listings { self.new.lists ≡ self.old.lists }
        ensures works { IsOk result }
    {
        self.files.remove(mailbox, name);
        Ok(())
    }

    fn read_ledger(&mut self, alloc: Global, root: u32) -> Result<Option<Vec<u8>>, KeepError>
        requires { root < 4 }
        ensures files { ReadsLedger root result (told_of_fixed self.old) (told_of_fixed self.new) }
        ensures cause { HasCause (IsErrOf result KeepError.Failed) 0 0 }
        ensures due { Spends (IsErrOf result KeepError.Failed) 0 0 (told_of_fixed self.old)
            (told_of_fixed self.new) }
        ensures listings { self.new.lists ≡ self.old.lists }
        ensures works { NeverFails result }
    {
        Ok(self.files.read_ledger(alloc, root)?)
    }

    fn append_ledger(&mut self, root: u32, line: &[u8]) -> Result<(), Failed>
        requires root { root < 4 }
        requires room { length (ledger_bytes self.old.files root) + length line.now < 5120 }
        ensures files { Appends root line.now result (told_of_fixed self.old)
            (told_of_fixed self.new) }
        ensures cause { HasCause (IsErr result) 0 0 }
        ensures due { Spends (IsErr result) 0 0 (told_of_fixed self.old) (told_of_fixed self.new) }
        ensures listings { self.new.lists ≡ self.old.lists }
        ensures works { IsOk result }
    {
        self.files.append_ledger(root, line);
        Ok(())
    }

    fn install_ledger(&mut self, root: u32, text: &[u8]) -> Result<(), Failed>
        requires root { root < 4 }
        requires short { length text.now < 5120 }
        ensures files { Installs root text.now result (told_of_fixed self.old)
            (told_of_fixed self.new) }
        ensures cause { HasCause (IsErr result) 0 0 }
        ensures due { Spends (IsErr result) 0 0 (told_of_fixed self.old) (told_of_fixed self.new) }
        ensures listings { self.new.lists ≡ self.old.lists }
        ensures works { IsOk result }
    {
        self.files.install_ledger(root, text);
        Ok(())
    }
}
