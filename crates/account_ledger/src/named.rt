// Finding the file of the message that a mailbox and a base name. The mailbox is listed each time,
// because no list of messages is kept.
ghost use Rattle.std.specs.Prelude.{◌≡◌, ◌<◌, true, false, ◌&&◌, bytes_eq, length, IfOk, IfSome, IsErrOf};
ghost use Rattle.quota_units.specs.Causes.{HasCause};
ghost use Rattle.keeper.specs.Files.{listed, has_row};
ghost use Rattle.keeper.specs.Calls.{Changes, Renames, SpendsDue, both};
ghost use Rattle.account_ledger.specs.Counting.{mailbox_at};
ghost use Rattle.account_ledger.specs.Lives.{IsWhole, Looks};
ghost use Rattle.account_ledger.specs.NamedFiles.{file_named};
ghost use Rattle.account_core.specs.History.{NeverFull};

use crate::fault::step_error;
use crate::live::LiveAccount;
use account_core::StepError;
use keeper::{FileRow, KeepError, Keeper};
use message_names::base_of;
use std::alloc::Global;

/// The first file that has this base.
fn first_named(files: Vec<FileRow>, base: &[u8]) -> Option<FileRow>
    ensures { result ≡ file_named base.now files.items }
{
    let mut files = files.into_iter();
    files.find(|file| base_of(file.name.as_slice()) == base)
}

impl<K: Keeper> LiveAccount<K> {
    /// The files of a mailbox.
    pub(crate) fn list(&mut self, alloc: Global, mailbox: &[u8]) -> Result<Vec<FileRow>, StepError>
        ensures looks { Looks (result ≡ Err StepError.Store) self.old self.new }
        ensures files { IfOk result
            (λ files. IfSome self.old.told (λ t. files.items ≡ listed mailbox.now t.files.rows)) }
        ensures whole { IsWhole self.new }
        ensures never_full { NeverFull result }
    {
        let listed = self.keeper.list(alloc, mailbox);
        self.show_whole();
        listed.map_err(step_error)
    }

    /// The files of the mailbox at this place.
    pub(crate) fn list_part(&mut self, alloc: Global, index: u32) -> Result<Vec<FileRow>, StepError>
        requires { index < length self.old.mailboxes }
        ensures looks { Looks (result ≡ Err StepError.Store) self.old self.new }
        ensures files { IfOk result (λ files. IfSome self.old.told
            (λ t. files.items ≡ listed (mailbox_at self.old.mailboxes index) t.files.rows)) }
        ensures whole { IsWhole self.new }
        ensures never_full { NeverFull result }
    {
        let mailbox = &self.mailboxes.as_slice()[index as usize];
        let listed = self.keeper.list(alloc, mailbox.as_slice());
        self.show_whole();
        listed.map_err(step_error)
    }

    /// Lists a mailbox and gives the file of the message of this base, if there is one.
    pub(crate) fn find_file(
        &mut self,
        alloc: Global,
        mailbox: &[u8],
        base: &[u8],
    ) -> Result<Option<FileRow>, StepError>
        ensures looks { Looks (result ≡ Err StepError.Store) self.old self.new }
        ensures found { IfOk result (λ found. IfSome self.old.told
            (λ t. found ≡ file_named base.now (listed mailbox.now t.files.rows))) }
        ensures whole { IsWhole self.new }
        ensures never_full { NeverFull result }
    {
        let files = self.list(alloc, mailbox)?;
        Ok(first_named(files, base))
    }
}

/// Gives a file another mailbox and name, unless it keeps both.
pub(crate) fn rename_file<K: Keeper>(
    keeper: &mut K,
    alloc: Global,
    from: &[u8],
    name: &[u8],
    to: &[u8],
    new_name: &[u8],
) -> Result<(), KeepError>
    requires there { IfSome (K.told keeper.old)
        (λ t. has_row from.now name.now t.files.rows ≡ true) }
    requires free { (bytes_eq from.now to.now && bytes_eq name.now new_name.now) ≡ false
        → IfSome (K.told keeper.old) (λ t. has_row to.now new_name.now t.files.rows ≡ false) }
    ensures files { Changes (Renames from.now name.now to.now new_name.now result)
        (K.told keeper.old) (K.told keeper.new) }
    ensures cause { HasCause (IsErrOf result KeepError.Failed) (K.faults keeper.old)
        (K.faults keeper.new) }
    ensures due { SpendsDue K.told (both K.faults K.append_faults) (IsErrOf result KeepError.Failed)
        keeper.old keeper.new }
    ensures appends { K.append_faults keeper.new ≡ K.append_faults keeper.old }
{
    if from == to && name == new_name {
        return Ok(());
    }
    keeper.rename(alloc, from, name, to, new_name)
}
