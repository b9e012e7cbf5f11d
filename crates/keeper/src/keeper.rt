ghost use Rattle.std.specs.Prelude.{◌≡◌, ◌<◌, ◌+◌, ℕ, length, false, true, Option, IfSome, IsErr, IsErrOf};
ghost use Rattle.keeper.specs.Files.{has_row, ledger_bytes};
ghost use Rattle.quota_units.specs.Causes.{HasCause, next_count};
ghost use Rattle.keeper.specs.Calls.{Told, Changes, SpendsDue, Lists, Puts, Renames, Removes, ReadsLedger, Appends, Installs};

use crate::{FileRow, KeepError};
use quota_units::Failed;
use std::alloc::Global;

/// Keeps the message files and the ledgers of an account. A ledger has fewer than 5120 bytes.
///
/// A keeper counts each call that fails. A failed call leaves the files as they were, except that a
/// failed `append_ledger` may leave a prefix of its line. A call that answers `NoMemory` leaves the
/// files and the counts of faults as they were.
pub trait Keeper {
    /// The files and how many failures may still come, if the keeper tells them to contracts.
    ghost told: { Self → Option Told };

    /// How often a call other than `append_ledger` has failed. The count stops at 2^64 - 1.
    ghost faults: { Self → ℕ };

    /// How often `append_ledger` has failed. The count stops at 2^64 - 1.
    ghost append_faults: { Self → ℕ };

    /// How often `list` was called. The count stops at 2^64 - 1.
    ghost lists: { Self → ℕ };

    /// The files of a mailbox, in the order in which the keeper has them.
    ///
    /// # Errors
    ///
    /// `Failed` if the store failed, and `NoMemory` if memory ran out.
    fn list(&mut self, alloc: Global, mailbox: &[u8]) -> Result<Vec<FileRow>, KeepError>
        ensures files { Changes (Lists mailbox.now result) (told self.old) (told self.new) }
        ensures cause { HasCause (IsErrOf result KeepError.Failed) (faults self.old)
            (faults self.new) }
        ensures due { SpendsDue told faults (IsErrOf result KeepError.Failed) self.old self.new }
        ensures appends { append_faults self.new ≡ append_faults self.old }
        ensures one_listing { lists self.new ≡ next_count (lists self.old) };

    /// Adds a file with these octets to a mailbox that has no file of this name.
    ///
    /// # Errors
    ///
    /// `Failed` if the store failed, and `NoMemory` if memory ran out.
    fn put(
        &mut self,
        alloc: Global,
        mailbox: &[u8],
        name: &[u8],
        octets: &[u8],
    ) -> Result<(), KeepError>
        requires { IfSome (told self.old) (λ t. has_row mailbox.now name.now t.files.rows ≡ false) }
        ensures files { Changes (Puts mailbox.now name.now octets.now result) (told self.old)
            (told self.new) }
        ensures cause { HasCause (IsErrOf result KeepError.Failed) (faults self.old)
            (faults self.new) }
        ensures due { SpendsDue told faults (IsErrOf result KeepError.Failed) self.old self.new }
        ensures appends { append_faults self.new ≡ append_faults self.old }
        ensures listings { lists self.new ≡ lists self.old };

    /// Gives the file `name` of the mailbox `from` the name `new_name` in the mailbox `to`, which
    /// has no file of that name.
    ///
    /// # Errors
    ///
    /// `Failed` if the store failed, and `NoMemory` if memory ran out.
    fn rename(
        &mut self,
        alloc: Global,
        from: &[u8],
        name: &[u8],
        to: &[u8],
        new_name: &[u8],
    ) -> Result<(), KeepError>
        requires there { IfSome (told self.old)
            (λ t. has_row from.now name.now t.files.rows ≡ true) }
        requires free { IfSome (told self.old)
            (λ t. has_row to.now new_name.now t.files.rows ≡ false) }
        ensures files { Changes (Renames from.now name.now to.now new_name.now result)
            (told self.old) (told self.new) }
        ensures cause { HasCause (IsErrOf result KeepError.Failed) (faults self.old)
            (faults self.new) }
        ensures due { SpendsDue told faults (IsErrOf result KeepError.Failed) self.old self.new }
        ensures appends { append_faults self.new ≡ append_faults self.old }
        ensures listings { lists self.new ≡ lists self.old };

    /// Removes the file of this name from a mailbox. It takes no allocator: running out of memory,
    /// if it can happen, is a failure.
    ///
    /// # Errors
    ///
    /// `Failed` if the store failed.
    fn remove(&mut self, mailbox: &[u8], name: &[u8]) -> Result<(), Failed>
        requires { IfSome (told self.old) (λ t. has_row mailbox.now name.now t.files.rows ≡ true) }
        ensures files { Changes (Removes mailbox.now name.now result) (told self.old)
            (told self.new) }
        ensures cause { HasCause (IsErr result) (faults self.old) (faults self.new) }
        ensures due { SpendsDue told faults (IsErr result) self.old self.new }
        ensures appends { append_faults self.new ≡ append_faults self.old }
        ensures listings { lists self.new ≡ lists self.old };

    /// The bytes of a root's ledger, or `None` if there is no such file. Roots have the numbers 0
    /// to 3.
    ///
    /// # Errors
    ///
    /// `Failed` if the store failed, and `NoMemory` if memory ran out.
    fn read_ledger(&mut self, alloc: Global, root: u32) -> Result<Option<Vec<u8>>, KeepError>
        requires { root < 4 }
        ensures files { Changes (ReadsLedger root result) (told self.old) (told self.new) }
        ensures cause { HasCause (IsErrOf result KeepError.Failed) (faults self.old)
            (faults self.new) }
        ensures due { SpendsDue told faults (IsErrOf result KeepError.Failed) self.old self.new }
        ensures appends { append_faults self.new ≡ append_faults self.old }
        ensures listings { lists self.new ≡ lists self.old };

    /// Appends a line to a root's ledger, which must stay below 5120 bytes. It takes no allocator:
    /// running out of memory, if it can happen, is a failure.
    ///
    /// # Errors
    ///
    /// `Failed` if the store failed, which raises the count of append faults. A prefix of the line
    /// may have been written then: none of it, a part, or the whole line.
    fn append_ledger(&mut self, root: u32, line: &[u8]) -> Result<(), Failed>
        requires root { root < 4 }
        requires room { IfSome (told self.old)
            (λ t. length (ledger_bytes t.files root) + length line.now < 5120) }
        ensures files { Changes (Appends root line.now result) (told self.old) (told self.new) }
        ensures cause { HasCause (IsErr result) (append_faults self.old) (append_faults self.new) }
        ensures due { SpendsDue told append_faults (IsErr result) self.old self.new }
        ensures others { faults self.new ≡ faults self.old }
        ensures listings { lists self.new ≡ lists self.old };

    /// Writes a text of fewer than 5120 bytes in place of a root's ledger. It takes no allocator:
    /// running out of memory, if it can happen, is a failure.
    ///
    /// # Errors
    ///
    /// `Failed` if the store failed.
    fn install_ledger(&mut self, root: u32, text: &[u8]) -> Result<(), Failed>
        requires root { root < 4 }
        requires short { length text.now < 5120 }
        ensures files { Changes (Installs root text.now result) (told self.old) (told self.new) }
        ensures cause { HasCause (IsErr result) (faults self.old) (faults self.new) }
        ensures due { SpendsDue told faults (IsErr result) self.old self.new }
        ensures appends { append_faults self.new ≡ append_faults self.old }
        ensures listings { lists self.new ≡ lists self.old };
}
