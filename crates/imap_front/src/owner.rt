// Commands of the owner of an account.
ghost use Rattle.std.specs.Prelude.{◌≡◌, ◌≤◌, [], length, OnOk, OnErr, IfOk};
ghost use Rattle.account_core.specs.Legality.{HasBytes};
ghost use Rattle.desk.specs.Asking.{IsDeskCall};
ghost use Rattle.imap_grammar.specs.declared.command.Command.TheVariants.{GetQuota, GetQuotaRoot, SetQuota, Status};
ghost use Rattle.wire_io.specs.declared.ends.After.TheVariants.{Open};
ghost use Rattle.account_core.specs.History.{replied};
ghost use Rattle.imap_front.specs.Answers.{answer_text, kind_of, HasRootsOf};
ghost use Rattle.imap_front.specs.Imap.{has_no_item, deliver, work_of};
ghost use Rattle.imap_front.specs.Texts.{tagged_line};
ghost use Rattle.quota_roots.specs.MailboxNames.{canonical};
ghost use Rattle.front_core.specs.Works.{call_on, AnswersCall, LeavesCall, DoesWork, LeavesWork};
ghost use Rattle.imap_front.specs.Serving.{IsOwnerOf};

use crate::answers::{Kind, push_answer};
use crate::asked::limits_of;
use crate::texts::{
    JOURNAL_FULL, NAME_TOO_LONG, NO_ITEM, NO_MAILBOX, NO_ROOT, NOOP, NOT_PERMITTED, TRY_CREATE,
    UNAVAILABLE, push_capability, push_logout, push_refusal, push_tagged,
};
use account_core::{Call, Reply, StepError};
use accounts_file::AccountEntry;
use desk::Desk;
use imap_grammar::{AskedLimit, Astring, Command, CommandFault, StatusItem};
use quota_roots::canonical_spelling;
use quota_units::{Flags, Name, NameError, NoMemory};
use std::alloc::Global;
use wire_io::After;

/// The owner of an account, who gave a command with this tag.
#[derive(Drop)]
pub struct Owner<'a> {
    /// The number of the account.
    pub account: u32,
    /// The account's entry in the table.
    pub details: &'a AccountEntry,
    /// The tag of the command.
    pub tag: &'a [u8],
}

/// Whether an item is none that this service has.
fn has_no_item(items: &[Option<StatusItem>]) -> bool
    ensures { result ≡ has_no_item items.now }
{
    items.iter().any(|item| item.is_none())
}

// Each method writes its answer to `answer`, which is empty before.
impl Owner<'_> {
    /// Writes the answer in these words. No call is made.
    #[inline(always)]
    fn words(&self, words: &[u8], answer: &mut Vec<u8>) -> Result<(), NoMemory>
        requires { answer.old.items ≡ [] }
        ensures { OnOk result (answer.new.items ≡ tagged_line self.now.tag.now words.now) }
    {
        push_tagged(answer, self.tag, words)?;
        Ok(())
    }

    /// Writes the answer to a command of this kind, given the reply to its call.
    #[inline(always)]
    fn reply(&self, kind: Kind<'_>, reply: &Reply, answer: &mut Vec<u8>) -> Result<(), NoMemory>
        requires roots { HasRootsOf self.now.details.now.setup.roots reply.now }
        requires empty { answer.old.items ≡ [] }
        ensures { OnOk result (answer.new.items ≡ answer_text self.now.details.now.setup.roots
            (kind_of kind.entry) self.now.tag.now (replied reply.now)) }
    {
        push_answer(answer, &self.details.setup.roots, kind, self.tag, reply)?;
        Ok(())
    }

    /// Makes the call, with the octets of its message, and writes the answer to a command of this
    /// kind.
    fn ask<D: Desk>(
        &self,
        alloc: Global,
        desk: &mut D,
        call: Call,
        octets: &[u8],
        kind: Kind<'_>,
        answer: &mut Vec<u8>,
    ) -> Result<(), NoMemory>
        requires empty { answer.old.items ≡ [] }
        requires owner { IsOwnerOf (D.shares desk.old) self.now.account self.now.details.now }
        requires asked { IsDeskCall call }
        requires octets { HasBytes call octets.now }
        ensures ok { OnOk result (AnswersCall (D.shares desk.old) (D.shares desk.new)
            (call_on self.now.account call octets.now)
            (answer_text self.now.details.now.setup.roots (kind_of kind.entry) self.now.tag.now)
            answer.new.items) }
        ensures err { OnErr result (LeavesCall (D.shares desk.old) (D.shares desk.new)
            (call_on self.now.account call octets.now)) }
        ensures leads { D.leads desk.old desk.new }
    {
        match desk.ask(alloc, self.account, call, octets) {
            Ok(reply) => self.reply(kind, &reply, answer),
            Err(StepError::Store) => self.words(UNAVAILABLE, answer),
            Err(StepError::JournalFull { .. }) => self.words(JOURNAL_FULL, answer),
            Err(StepError::NoMemory) => Err(NoMemory),
        }
    }

    /// Writes the answer to GETQUOTA.
    fn get_quota<D: Desk>(
        &self,
        alloc: Global,
        desk: &mut D,
        root: Astring,
        answer: &mut Vec<u8>,
    ) -> Result<(), NoMemory>
        requires empty { answer.old.items ≡ [] }
        requires owner { IsOwnerOf (D.shares desk.old) self.now.account self.now.details.now }
        ensures ok { OnOk result (DoesWork (D.shares desk.old) (D.shares desk.new)
            (work_of self.now.account self.now.details.now self.now.tag.now (GetQuota root) [])
            answer.new.items Open) }
        ensures err { OnErr result (LeavesWork (D.shares desk.old) (D.shares desk.new)
            (work_of self.now.account self.now.details.now self.now.tag.now (GetQuota root) [])) }
        ensures leads { D.leads desk.old desk.new }
    {
        match root.into_name() {
            Ok(root) => self.ask(
                alloc,
                desk,
                Call::Quota { root },
                b"",
                Kind::GetQuota,
                answer,
            ),
            Err(_) => self.words(NO_ROOT, answer),
        }
    }

    /// Writes the answer to GETQUOTAROOT.
    fn get_quota_root<D: Desk>(
        &self,
        alloc: Global,
        desk: &mut D,
        mailbox: &[u8],
        answer: &mut Vec<u8>,
    ) -> Result<(), NoMemory>
        requires empty { answer.old.items ≡ [] }
        requires owner { IsOwnerOf (D.shares desk.old) self.now.account self.now.details.now }
        ensures ok { OnOk result (DoesWork (D.shares desk.old) (D.shares desk.new)
            (work_of self.now.account self.now.details.now self.now.tag.now
            (GetQuotaRoot mailbox.now) []) answer.new.items Open) }
        ensures err { OnErr result (LeavesWork (D.shares desk.old) (D.shares desk.new)
            (work_of self.now.account self.now.details.now self.now.tag.now
            (GetQuotaRoot mailbox.now) [])) }
        ensures leads { D.leads desk.old desk.new }
    {
        let mailbox = canonical_spelling(mailbox);
        match Name::of(alloc, mailbox) {
            Ok(name) => {
                let call = Call::Roots { mailbox: name };
                self.ask(
                    alloc,
                    desk,
                    call,
                    b"",
                    Kind::GetQuotaRoot { mailbox },
                    answer,
                )
            }
            Err(NameError::TooLong { .. }) => self.words(NAME_TOO_LONG, answer),
            Err(NameError::NoMemory) => Err(NoMemory),
        }
    }

    /// Writes the answer to SETQUOTA.
    fn set_quota<D: Desk>(
        &self,
        alloc: Global,
        desk: &mut D,
        root: Astring,
        limits: &[AskedLimit],
        answer: &mut Vec<u8>,
    ) -> Result<(), NoMemory>
        requires empty { answer.old.items ≡ [] }
        requires owner { IsOwnerOf (D.shares desk.old) self.now.account self.now.details.now }
        ensures ok { OnOk result (DoesWork (D.shares desk.old) (D.shares desk.new)
            (work_of self.now.account self.now.details.now self.now.tag.now
            (SetQuota root limits.now) []) answer.new.items Open) }
        ensures err { OnErr result (LeavesWork (D.shares desk.old) (D.shares desk.new)
            (work_of self.now.account self.now.details.now self.now.tag.now
            (SetQuota root limits.now) [])) }
        ensures leads { D.leads desk.old desk.new }
    {
        if !self.details.admin {
            return self.words(NOT_PERMITTED, answer);
        }
        match limits_of(limits) {
            Err(refusal) => self.words(refusal.words(), answer),
            Ok(limits) => match root.into_name() {
                Ok(root) => {
                    let call = Call::SetLimits { root, limits };
                    self.ask(alloc, desk, call, b"", Kind::SetQuota, answer)
                }
                Err(_) => self.words(NO_ROOT, answer),
            },
        }
    }

    /// Writes the answer to STATUS.
    fn status<D: Desk>(
        &self,
        alloc: Global,
        desk: &mut D,
        mailbox: &[u8],
        items: &[Option<StatusItem>],
        answer: &mut Vec<u8>,
    ) -> Result<(), NoMemory>
        requires empty { answer.old.items ≡ [] }
        requires owner { IsOwnerOf (D.shares desk.old) self.now.account self.now.details.now }
        ensures ok { OnOk result (DoesWork (D.shares desk.old) (D.shares desk.new)
            (work_of self.now.account self.now.details.now self.now.tag.now
            (Status mailbox.now items.now) []) answer.new.items Open) }
        ensures err { OnErr result (LeavesWork (D.shares desk.old) (D.shares desk.new)
            (work_of self.now.account self.now.details.now self.now.tag.now
            (Status mailbox.now items.now) [])) }
        ensures leads { D.leads desk.old desk.new }
    {
        if has_no_item(items) {
            return self.words(NO_ITEM, answer);
        }
        let mailbox = canonical_spelling(mailbox);
        match Name::of(alloc, mailbox) {
            Ok(name) => {
                let call = Call::Status { mailbox: name };
                self.ask(
                    alloc,
                    desk,
                    call,
                    b"",
                    Kind::Status { mailbox, items },
                    answer,
                )
            }
            Err(NameError::TooLong { .. }) => self.words(NO_MAILBOX, answer),
            Err(NameError::NoMemory) => Err(NoMemory),
        }
    }

    /// Writes the answer to APPEND of this message, with these flags.
    fn append<D: Desk>(
        &self,
        alloc: Global,
        desk: &mut D,
        mailbox: &[u8],
        flags: Flags,
        message: &[u8],
        answer: &mut Vec<u8>,
    ) -> Result<(), NoMemory>
        requires empty { answer.old.items ≡ [] }
        requires owner { IsOwnerOf (D.shares desk.old) self.now.account self.now.details.now }
        requires small { length message.now ≤ 67108864 }
        ensures ok { OnOk result (DoesWork (D.shares desk.old) (D.shares desk.new)
            (deliver self.now.account self.now.details.now self.now.tag.now
            (canonical mailbox.now) flags message.now) answer.new.items Open) }
        ensures err { OnErr result (LeavesWork (D.shares desk.old) (D.shares desk.new)
            (deliver self.now.account self.now.details.now self.now.tag.now
            (canonical mailbox.now) flags message.now)) }
        ensures leads { D.leads desk.old desk.new }
    {
        match Name::of(alloc, canonical_spelling(mailbox)) {
            Ok(mailbox) => {
                let octets = message.len() as u64;
                let call = Call::Deliver {
                    mailbox,
                    octets,
                    flags,
                };
                self.ask(alloc, desk, call, message, Kind::Append, answer)
            }
            Err(NameError::TooLong { .. }) => self.words(TRY_CREATE, answer),
            Err(NameError::NoMemory) => Err(NoMemory),
        }
    }

    /// Makes the calls of a command, with its message if it is APPEND, and writes its answer.
    /// Returns what the session does after it.
    #[inline(always)]
    pub fn answer<D: Desk>(
        &self,
        alloc: Global,
        desk: &mut D,
        command: Command,
        message: &[u8],
        answer: &mut Vec<u8>,
    ) -> Result<After, NoMemory>
        requires empty { answer.old.items ≡ [] }
        requires owner { IsOwnerOf (D.shares desk.old) self.now.account self.now.details.now }
        requires small { length message.now ≤ 67108864 }
        ensures ok { IfOk result (λ after. DoesWork (D.shares desk.old) (D.shares desk.new)
            (work_of self.now.account self.now.details.now self.now.tag.now command message.now)
            answer.new.items after) }
        ensures err { OnErr result (LeavesWork (D.shares desk.old) (D.shares desk.new)
            (work_of self.now.account self.now.details.now self.now.tag.now command
            message.now)) }
        ensures leads { D.leads desk.old desk.new }
    {
        match command {
            Command::Capability => {
                push_capability(answer, self.tag)?;
                Ok(After::Open)
            }
            Command::Noop => {
                self.words(NOOP, answer)?;
                Ok(After::Open)
            }
            Command::Logout => {
                push_logout(answer, self.tag)?;
                Ok(After::Closing)
            }
            Command::Login { .. } => {
                push_refusal(answer, self.tag, CommandFault::AlreadyAuthenticated)?;
                Ok(After::Open)
            }
            Command::GetQuota { root } => {
                self.get_quota(alloc, desk, root, answer)?;
                Ok(After::Open)
            }
            Command::GetQuotaRoot { mailbox } => {
                self.get_quota_root(alloc, desk, mailbox.as_slice(), answer)?;
                Ok(After::Open)
            }
            Command::SetQuota { root, limits } => {
                self.set_quota(alloc, desk, root, limits.as_slice(), answer)?;
                Ok(After::Open)
            }
            Command::Status { mailbox, items } => {
                self.status(alloc, desk, mailbox.as_slice(), items.as_slice(), answer)?;
                Ok(After::Open)
            }
            Command::Append { mailbox, flags, .. } => {
                self.append(alloc, desk, mailbox.as_slice(), flags, message, answer)?;
                Ok(After::Open)
            }
        }
    }
}
