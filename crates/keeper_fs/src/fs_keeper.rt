ghost use Rattle.std.specs.Prelude.{◌≡◌, ◌≤◌, ◌<◌, ◌&&◌, None, false, Option, length, IsErr, IsErrOf, IfOk, IfSome, All};
ghost use Rattle.std.specs.String.{string_bytes};
ghost use Rattle.quota_units.specs.Causes.{HasCause, next_count};
ghost use Rattle.keeper_fs.specs.Names.{is_file_name};
ghost use Rattle.keeper_fs.specs.Rows.{IsMessageRow};
ghost use Rattle.keeper_fs.specs.Real.{faults_of, append_faults_of, folder_of, lists_of};

use crate::{ledgers, listing, messages};
use keeper::{FileRow, KeepError, Keeper};
use quota_units::Failed;
use std::alloc::Global;
use std::fs::Files;

/// Keeps an account in a folder of its own, a Maildir++ tree. What the folder holds is not told.
///
/// A message of INBOX is a file in `new` or `cur` of the folder. A message of another mailbox is a
/// file in `new` or `cur` of the folder `.<mailbox>` below it. A message that was put outlives a
/// crash. The ledger of root 0 is the file `maildirsize`, and the ledger of root k is
/// `maildirsize.<k>`, if it is a regular file. New files have the permissions 0600, and new folders
/// have 0700.
///
/// A call fails if the system answers with an error that the call can't make good, if the file to
/// rename or remove is not there, if the name to put or to rename to is taken, or if the ledger to
/// append to is not there or has no room for the line. Running out of memory is a failure if the
/// call has no `NoMemory` to answer, and in the file operations of `put` and `rename`.
#[derive(Drop)]
pub struct FsKeeper<R> {
    rt: R,
    folder: String,
    faults: u64,
    append_faults: u64,
    lists: u64,
}

impl<R: Files + AllocGlobal + Clone + Drop> FsKeeper<R> {
    /// A keeper of the account in this folder.
    pub(crate) fn new(rt: R, folder: String) -> FsKeeper<R>
        ensures faults { faults_of result ≡ 0 }
        ensures appends { append_faults_of result ≡ 0 }
        ensures no_listings { lists_of result ≡ 0 }
        ensures folder { folder_of result ≡ string_bytes folder }
    {
        FsKeeper {
            rt,
            folder,
            faults: 0,
            append_faults: 0,
            lists: 0,
        }
    }

    /// How often a call other than `append_ledger` has failed.
    pub fn faults(&self) -> u64
        ensures { result ≡ faults_of self.now }
    {
        self.faults
    }

    /// How often `append_ledger` has failed.
    pub fn append_faults(&self) -> u64
        ensures { result ≡ append_faults_of self.now }
    {
        self.append_faults
    }

    /// Counts a fault of a call other than `append_ledger`.
    fn fail(&mut self) -> Failed
        ensures counted { faults_of self.new ≡ next_count (faults_of self.old) }
        ensures later { faults_of self.old ≤ faults_of self.new }
        ensures appends { append_faults_of self.new ≡ append_faults_of self.old }
        ensures listings { lists_of self.new ≡ lists_of self.old }
        ensures folder { folder_of self.new ≡ folder_of self.old }
    {
        self.faults = self.faults.saturating_add(1);
        Failed
    }

    /// Counts a fault of `append_ledger`.
    fn fail_append(&mut self) -> Failed
        ensures counted { append_faults_of self.new ≡ next_count (append_faults_of self.old) }
        ensures later { append_faults_of self.old ≤ append_faults_of self.new }
        ensures others { faults_of self.new ≡ faults_of self.old }
        ensures listings { lists_of self.new ≡ lists_of self.old }
        ensures folder { folder_of self.new ≡ folder_of self.old }
    {
        self.append_faults = self.append_faults.saturating_add(1);
        Failed
    }

    /// The same answer. If it is `Failed`, the fault is counted.
    fn counted<T>(&mut self, answer: Result<T, KeepError>) -> Result<T, KeepError>
        ensures same { result ≡ answer }
        ensures cause { HasCause (IsErrOf answer KeepError.Failed) (faults_of self.old)
            (faults_of self.new) }
        ensures appends { append_faults_of self.new ≡ append_faults_of self.old }
        ensures listings { lists_of self.new ≡ lists_of self.old }
        ensures folder { folder_of self.new ≡ folder_of self.old }
    {
        if let Err(KeepError::Failed) = &answer {
            self.fail();
        }
        answer
    }
}

impl<R: Files + AllocGlobal + Clone + Drop> Keeper for FsKeeper<R> {
    ghost told = { λ _. None };

    ghost faults = { faults_of };

    ghost append_faults = { append_faults_of };

    ghost lists = { lists_of };

    fn list(&mut self, alloc: Global, mailbox: &[u8]) -> Result<Vec<FileRow>, KeepError>
        ensures cause { HasCause (IsErrOf result KeepError.Failed) (faults_of self.old)
            (faults_of self.new) }
        ensures appends { append_faults_of self.new ≡ append_faults_of self.old }
        ensures one_listing { lists_of self.new ≡ next_count (lists_of self.old) }
        ensures folder { folder_of self.new ≡ folder_of self.old }
        // The call fails if the mailbox's name is not the name of one file or folder, so that it
        // leads to no other folder.
        ensures outside { is_file_name mailbox.now ≡ false → IsErrOf result KeepError.Failed }
        // Each file listed has a name that other calls accept. If the name states a size, that is
        // the length listed.
        ensures rows { IfOk result (λ rows. All IsMessageRow rows.items) }
    {
        self.lists = self.lists.saturating_add(1);
        let answer = listing::list(&self.rt, alloc, self.folder.as_str(), mailbox);
        self.counted(answer)
    }

    fn put(
        &mut self,
        alloc: Global,
        mailbox: &[u8],
        name: &[u8],
        octets: &[u8],
    ) -> Result<(), KeepError>
        ensures cause { HasCause (IsErrOf result KeepError.Failed) (faults_of self.old)
            (faults_of self.new) }
        ensures appends { append_faults_of self.new ≡ append_faults_of self.old }
        ensures listings { lists_of self.new ≡ lists_of self.old }
        ensures folder { folder_of self.new ≡ folder_of self.old }
        // The call fails if a name is not the name of one file or folder, so that it leads to no
        // other folder.
        ensures outside { (is_file_name mailbox.now && is_file_name name.now) ≡ false
            → IsErrOf result KeepError.Failed }
    {
        let answer = messages::put(&self.rt, alloc, self.folder.as_str(), mailbox, name, octets);
        self.counted(answer)
    }

    fn rename(
        &mut self,
        alloc: Global,
        from: &[u8],
        name: &[u8],
        to: &[u8],
        new_name: &[u8],
    ) -> Result<(), KeepError>
        ensures cause { HasCause (IsErrOf result KeepError.Failed) (faults_of self.old)
            (faults_of self.new) }
        ensures appends { append_faults_of self.new ≡ append_faults_of self.old }
        ensures listings { lists_of self.new ≡ lists_of self.old }
        ensures folder { folder_of self.new ≡ folder_of self.old }
        // The call fails if a name is not the name of one file or folder, so that it leads to no
        // other folder.
        ensures outside { (is_file_name from.now && (is_file_name name.now && (is_file_name to.now
            && is_file_name new_name.now))) ≡ false → IsErrOf result KeepError.Failed }
    {
        let folder = self.folder.as_str();
        let answer = messages::rename(&self.rt, alloc, folder, from, name, to, new_name);
        self.counted(answer)
    }

    fn remove(&mut self, mailbox: &[u8], name: &[u8]) -> Result<(), Failed>
        ensures cause { HasCause (IsErr result) (faults_of self.old) (faults_of self.new) }
        ensures appends { append_faults_of self.new ≡ append_faults_of self.old }
        ensures listings { lists_of self.new ≡ lists_of self.old }
        ensures folder { folder_of self.new ≡ folder_of self.old }
        // The call fails if a name is not the name of one file or folder, so that it leads to no
        // other folder.
        ensures outside { (is_file_name mailbox.now && is_file_name name.now) ≡ false
            → IsErr result }
    {
        let folder = self.folder.as_str();
        let removed = messages::remove(&self.rt, self.rt.alloc(), folder, mailbox, name);
        if removed.is_err() {
            return Err(self.fail());
        }
        Ok(())
    }

    fn read_ledger(&mut self, alloc: Global, root: u32) -> Result<Option<Vec<u8>>, KeepError>
        requires { root < 4 }
        // At most 5120 bytes of a ledger are read, whatever its file is.
        ensures bound { IfOk result (λ found. IfSome found (λ text. length text.items ≤ 5120)) }
        ensures cause { HasCause (IsErrOf result KeepError.Failed) (faults_of self.old)
            (faults_of self.new) }
        ensures appends { append_faults_of self.new ≡ append_faults_of self.old }
        ensures listings { lists_of self.new ≡ lists_of self.old }
        ensures folder { folder_of self.new ≡ folder_of self.old }
    {
        let answer = ledgers::read(&self.rt, alloc, self.folder.as_str(), root);
        self.counted(answer)
    }

    fn append_ledger(&mut self, root: u32, line: &[u8]) -> Result<(), Failed>
        requires { root < 4 }
        ensures cause { HasCause (IsErr result) (append_faults_of self.old)
            (append_faults_of self.new) }
        ensures others { faults_of self.new ≡ faults_of self.old }
        ensures listings { lists_of self.new ≡ lists_of self.old }
        ensures folder { folder_of self.new ≡ folder_of self.old }
        // No ledger has room for such a line. Whether a ledger has room for a shorter line depends
        // on its file.
        ensures long { 5120 ≤ length line.now → IsErr result }
    {
        let folder = self.folder.as_str();
        let appended = ledgers::append(&self.rt, self.rt.alloc(), folder, root, line);
        if appended.is_err() {
            return Err(self.fail_append());
        }
        Ok(())
    }

    fn install_ledger(&mut self, root: u32, text: &[u8]) -> Result<(), Failed>
        requires root { root < 4 }
        requires short { length text.now < 5120 }
        ensures cause { HasCause (IsErr result) (faults_of self.old) (faults_of self.new) }
        ensures appends { append_faults_of self.new ≡ append_faults_of self.old }
        ensures listings { lists_of self.new ≡ lists_of self.old }
        ensures folder { folder_of self.new ≡ folder_of self.old }
    {
        let folder = self.folder.as_str();
        let installed = ledgers::install(&self.rt, self.rt.alloc(), folder, root, text);
        if installed.is_err() {
            return Err(self.fail());
        }
        Ok(())
    }
}
