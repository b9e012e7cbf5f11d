// Removing a message and its file. Each settled root of its mailbox gets a line in its ledger.
ghost use Rattle.std.specs.Prelude.{◌≡◌, ◌≢◌, ◌<◌, ◌^◌, [], true, Some, bytes_eq, IfSome};
ghost use Rattle.std.specs.List.{list_any};
ghost use Rattle.keeper.specs.Files.{listed};
ghost use Rattle.account_ledger.specs.Lives.{Acts, IsShown, Steps};
ghost use Rattle.account_ledger.specs.NamedFiles.{file_named};

use crate::live::LiveAccount;
use account_core::{Call, Reply, StepError};
use keeper::{FileRow, Keeper};
use root_ledgers::size_of_file;
use std::alloc::Global;

impl<K: Keeper> LiveAccount<K> {
    /// Removes the message of this base from the mailbox of this name.
    pub(crate) fn remove(
        &mut self,
        alloc: Global,
        mailbox: &[u8],
        base: &[u8],
    ) -> Result<Reply, StepError>
        requires shown { IsShown self.old }
        requires changes { self.old.generation < 2 ^ 63 }
        ensures { Steps (Call.Remove mailbox.now base.now) [] result self.old self.new }
    {
        self.show_whole();
        if !self.has_mailbox(mailbox) {
            return Ok(Reply::NoMailbox);
        }
        match self.find_file(alloc, mailbox, base)? {
            None => Ok(Reply::NoMessage),
            Some(file) => self.remove_file(mailbox, base, &file),
        }
    }

    /// Removes the file of a message, and writes the lines.
    fn remove_file(
        &mut self,
        mailbox: &[u8],
        base: &[u8],
        file: &FileRow,
    ) -> Result<Reply, StepError>
        requires shown { IsShown self.old }
        requires changes { self.old.generation < 2 ^ 63 }
        requires there { list_any (λ other. bytes_eq other mailbox.now) self.old.mailboxes ≡ true }
        requires found { IfSome self.old.told
            (λ t. Some file.now ≡ file_named base.now (listed mailbox.now t.files.rows)) }
        ensures acts { Acts (Call.Remove mailbox.now base.now) [] result self.old self.new }
        ensures never_out_of_memory { result ≢ Err StepError.NoMemory }
    {
        self.ledgers.show_kept();
        let octets = size_of_file(file);
        if let Err(_) = self.keeper.remove(mailbox, file.name.as_slice()) {
            return Err(StepError::Store);
        }
        self.ledgers
            .write_lines(&mut self.keeper, &self.roots, Some(mailbox), None, octets);
        self.counts.generation += 1;
        Ok(Reply::Removed)
    }
}
