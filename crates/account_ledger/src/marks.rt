// Marking a message: its file gets a name with the new flags. No usage changes.
ghost use Rattle.std.specs.Prelude.{◌≡◌, [], true, Some, bytes_eq, IfSome};
ghost use Rattle.std.specs.List.{list_any};
ghost use Rattle.keeper.specs.Files.{listed};
ghost use Rattle.account_ledger.specs.Lives.{Acts, IsShown, Steps, store_of};
ghost use Rattle.account_ledger.specs.Settling.{SparesLedgers};
ghost use Rattle.account_ledger.specs.NamedFiles.{file_named};

use crate::fault::step_error;
use crate::live::LiveAccount;
use crate::named::rename_file;
use account_core::{Call, Reply, StepError};
use keeper::{FileRow, Keeper};
use message_names::with_flags;
use quota_units::Flags;
use std::alloc::Global;

impl<K: Keeper> LiveAccount<K> {
    /// Gives the message of this base in the mailbox of this name these flags.
    pub(crate) fn mark(
        &mut self,
        alloc: Global,
        mailbox: &[u8],
        base: &[u8],
        flags: Flags,
    ) -> Result<Reply, StepError>
        requires shown { IsShown self.old }
        ensures { Steps (Call.Mark mailbox.now base.now flags) [] result self.old self.new }
    {
        self.show_whole();
        if !self.has_mailbox(mailbox) {
            return Ok(Reply::NoMailbox);
        }
        match self.find_file(alloc, mailbox, base)? {
            None => Ok(Reply::NoMessage),
            Some(file) => self.set_flags(alloc, mailbox, base, flags, &file),
        }
    }

    /// Gives the file of a message a name with these flags.
    fn set_flags(
        &mut self,
        alloc: Global,
        mailbox: &[u8],
        base: &[u8],
        flags: Flags,
        file: &FileRow,
    ) -> Result<Reply, StepError>
        requires shown { IsShown self.old }
        requires there { list_any (λ other. bytes_eq other mailbox.now) self.old.mailboxes ≡ true }
        requires found { IfSome self.old.told
            (λ t. Some file.now ≡ file_named base.now (listed mailbox.now t.files.rows)) }
        ensures acts { Acts (Call.Mark mailbox.now base.now flags) [] result self.old self.new }
        ensures spared { SparesLedgers result (store_of self.old) (store_of self.new) }
    {
        let name = file.name.as_slice();
        let Ok(marked) = with_flags(alloc, name, flags) else {
            return Err(StepError::NoMemory);
        };
        match rename_file(&mut self.keeper, alloc, mailbox, name, mailbox, &marked) {
            Ok(()) => Ok(Reply::Marked),
            Err(fault) => Err(step_error(fault)),
        }
    }
}
