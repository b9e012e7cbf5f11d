// Moves of a message to another mailbox. The file moves, and each settled root that loses or gains
// the message gets a line in its ledger.
ghost use Rattle.std.specs.Prelude.{◌≡◌, ◌<◌, ◌^◌, [], true, false, None, Some, bytes_eq, IfSome};
ghost use Rattle.std.specs.List.{list_any};
ghost use Rattle.quota_roots.specs.Governing.{gaining};
ghost use Rattle.keeper.specs.Files.{listed};
ghost use Rattle.account_core.specs.Account.{Account};
ghost use Rattle.account_core.specs.Machine.{over_of};
ghost use Rattle.account_core.specs.Messages.{named_message};
ghost use Rattle.account_ledger.specs.Lives.{Acts, IsShown, Shows, Steps, store_of};
ghost use Rattle.account_ledger.specs.Messages.{message_in};
ghost use Rattle.account_ledger.specs.Settling.{SparesLedgers};
ghost use Rattle.account_ledger.specs.NamedFiles.{file_named};

use crate::fault::step_error;
use crate::live::LiveAccount;
use crate::named::rename_file;
use account_core::{Call, Reply, StepError};
use admission::Verdict;
use keeper::{FileRow, Keeper};
use root_ledgers::size_of_file;
use std::alloc::Global;

impl<K: Keeper> LiveAccount<K> {
    /// Moves the message of this base from one mailbox to another. Its file keeps its name.
    pub(crate) fn move_message(
        &mut self,
        alloc: Global,
        from: &[u8],
        base: &[u8],
        to: &[u8],
    ) -> Result<Reply, StepError>
        requires shown { IsShown self.old }
        requires changes { self.old.generation < 2 ^ 63 }
        ensures { Steps (Call.Move from.now base.now to.now) [] result self.old self.new }
    {
        self.show_whole();
        if !self.has_mailbox(from) {
            return Ok(Reply::NoMailbox);
        }
        if !self.has_mailbox(to) {
            return Ok(Reply::NoMailbox);
        }
        match self.find_file(alloc, from, base)? {
            None => Ok(Reply::NoMessage),
            Some(file) => self.move_found(alloc, from, base, to, &file),
        }
    }

    /// Moves a message whose file was found, if the target has no message of its base.
    fn move_found(
        &mut self,
        alloc: Global,
        from: &[u8],
        base: &[u8],
        to: &[u8],
        file: &FileRow,
    ) -> Result<Reply, StepError>
        requires shown { IsShown self.old }
        requires changes { self.old.generation < 2 ^ 63 }
        requires source { list_any (λ other. bytes_eq other from.now) self.old.mailboxes ≡ true }
        requires target { list_any (λ other. bytes_eq other to.now) self.old.mailboxes ≡ true }
        requires found { IfSome self.old.told
            (λ t. Some file.now ≡ file_named base.now (listed from.now t.files.rows)) }
        ensures { Steps (Call.Move from.now base.now to.now) [] result self.old self.new }
    {
        self.show_whole();
        if from == to {
            return Ok(Reply::Moved);
        }
        match self.find_file(alloc, to, base)? {
            Some(_) => Ok(Reply::NameTaken),
            None => self.move_fitting(alloc, from, base, to, file),
        }
    }

    /// Moves a message to a mailbox that has no message of its base, if the message fits the roots
    /// that gain it.
    fn move_fitting(
        &mut self,
        alloc: Global,
        from: &[u8],
        base: &[u8],
        to: &[u8],
        file: &FileRow,
    ) -> Result<Reply, StepError>
        requires shown { IsShown self.old }
        requires changes { self.old.generation < 2 ^ 63 }
        requires source { list_any (λ other. bytes_eq other from.now) self.old.mailboxes ≡ true }
        requires target { list_any (λ other. bytes_eq other to.now) self.old.mailboxes ≡ true }
        requires found { IfSome self.old.told
            (λ t. Some file.now ≡ file_named base.now (listed from.now t.files.rows)) }
        requires free { IfSome self.old.told
            (λ t. None ≡ file_named base.now (listed to.now t.files.rows)) }
        requires apart { bytes_eq from.now to.now ≡ false }
        ensures { Steps (Call.Move from.now base.now to.now) [] result self.old self.new }
    {
        self.show_whole();
        let octets = size_of_file(file);
        let set = self.gainers(Some(from), to);
        self.settle(alloc, set)?;
        match self.verdict(set, octets) {
            Verdict::Over { root, resource } => Ok(Reply::Over { root, resource }),
            Verdict::Fits => self.move_file(alloc, from, base, to, file),
        }
    }

    /// Moves the file of a message that fits, and writes the lines.
    fn move_file(
        &mut self,
        alloc: Global,
        from: &[u8],
        base: &[u8],
        to: &[u8],
        file: &FileRow,
    ) -> Result<Reply, StepError>
        requires shown { IsShown self.old }
        requires changes { self.old.generation < 2 ^ 63 }
        requires source { list_any (λ other. bytes_eq other from.now) self.old.mailboxes ≡ true }
        requires target { list_any (λ other. bytes_eq other to.now) self.old.mailboxes ≡ true }
        requires found { IfSome self.old.told
            (λ t. Some file.now ≡ file_named base.now (listed from.now t.files.rows)) }
        requires free { IfSome self.old.told
            (λ t. None ≡ file_named base.now (listed to.now t.files.rows)) }
        requires apart { bytes_eq from.now to.now ≡ false }
        requires fits { (account : Account) → Shows self.old account
            → over_of self.old.roots account (gaining self.old.roots from.now to.now)
            (message_in from.now file.now).octets ≡ None }
        ensures acts { Acts (Call.Move from.now base.now to.now) [] result self.old self.new }
        ensures spared { SparesLedgers result (store_of self.old) (store_of self.new) }
    {
        self.ledgers.show_kept();
        let octets = size_of_file(file);
        let name = file.name.as_slice();
        if let Err(fault) = rename_file(&mut self.keeper, alloc, from, name, to, name) {
            return Err(step_error(fault));
        }
        self.ledgers.write_lines(&mut self.keeper, &self.roots, Some(from), Some(to), octets);
        self.counts.generation += 1;
        Ok(Reply::Moved)
    }
}
