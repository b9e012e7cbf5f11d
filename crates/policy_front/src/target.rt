// The account that a request is for: the call that the request asks for, and its answer.
ghost use Rattle.std.specs.Prelude.{◌≡◌, ◌<◌, ◌≤◌, [], length, true, false, IfOk, IfSome, OnErr, IfNone, OnOk};
ghost use Rattle.quota_roots.specs.MailboxNames.{canonical};
ghost use Rattle.account_core.specs.Legality.{HasBytes};
ghost use Rattle.desk.specs.Asking.{IsDeskCall};
ghost use Rattle.wire_io.specs.declared.ends.After.TheVariants.{Open};
ghost use Rattle.front_core.specs.Works.{call_on, is_too_long, AnswersCall, LeavesCall, DoesWork, LeavesWork};
ghost use Rattle.policy_front.specs.Answers.{answer_text};
ghost use Rattle.policy_front.specs.Policy.{check_work, deliver_work, remove_work, mark_work, move_work};

use crate::answers::{NO_MAILBOX, NO_MESSAGE, full_words, store_words, write_action, write_answer};
use crate::kind::Kind;
use account_core::{Call, StepError};
use desk::Desk;
use quota_roots::canonical_spelling;
use quota_units::{Flags, Name, NameError, NoMemory};
use std::alloc::Global;

/// The name of these bytes; `None` if there are more than 255.
fn short_name(alloc: Global, bytes: &[u8]) -> Result<Option<Name>, NoMemory>
    ensures some { IfOk result (λ short. IfSome short (λ name. name ≡ bytes.now)) }
    ensures short { IfOk result (λ short. IfSome short (λ name. is_too_long bytes.now ≡ false)) }
    ensures none { IfOk result (λ short. IfNone short (is_too_long bytes.now ≡ true)) }
{
    match Name::of(alloc, bytes) {
        Ok(name) => Ok(Some(name)),
        Err(NameError::TooLong { .. }) => Ok(None),
        Err(NameError::NoMemory) => Err(NoMemory),
    }
}

/// The account of a request.
#[derive(Clone, Copy)]
pub struct Target {
    /// The number of the account.
    pub account: u32,
    /// The epoch that deliveries are named after, in seconds from 1970.
    pub epoch: u64,
}

impl Target {
    /// Makes the call, with the octets of its message, and writes the answer to a request of this
    /// kind over what `out` has.
    fn ask<D: Desk>(
        &self,
        alloc: Global,
        desk: &mut D,
        call: Call,
        octets: &[u8],
        kind: Kind,
        out: &mut Vec<u8>,
    ) -> Result<(), NoMemory>
        requires there { self.now.account < length (D.shares desk.old) }
        requires asked { IsDeskCall call }
        requires octets { HasBytes call octets.now }
        ensures ok { OnOk result (AnswersCall (D.shares desk.old) (D.shares desk.new)
            (call_on self.now.account call octets.now) (answer_text self.now.epoch kind)
            out.new.items) }
        ensures err { OnErr result (LeavesCall (D.shares desk.old) (D.shares desk.new)
            (call_on self.now.account call octets.now)) }
        ensures leads { D.leads desk.old desk.new }
    {
        match desk.ask(alloc, self.account, call, octets) {
            Ok(reply) => write_answer(alloc, out, self.epoch, kind, &reply),
            Err(StepError::Store) => write_action(out, store_words(kind)),
            Err(StepError::JournalFull { .. }) => write_action(out, full_words(kind)),
            Err(StepError::NoMemory) => Err(NoMemory),
        }
    }

    /// Asks whether a message of `size` octets may come, and writes the answer over what `out` has.
    pub fn check<D: Desk>(
        &self,
        alloc: Global,
        desk: &mut D,
        size: u64,
        out: &mut Vec<u8>,
    ) -> Result<(), NoMemory>
        requires there { self.now.account < length (D.shares desk.old) }
        ensures ok { OnOk result (DoesWork (D.shares desk.old) (D.shares desk.new)
            (check_work self.now.epoch self.now.account size) out.new.items Open) }
        ensures err { OnErr result (LeavesWork (D.shares desk.old) (D.shares desk.new)
            (check_work self.now.epoch self.now.account size)) }
        ensures leads { D.leads desk.old desk.new }
    {
        self.ask(
            alloc,
            desk,
            Call::Check { octets: size },
            b"",
            Kind::Check,
            out,
        )
    }

    /// Delivers the message with these flags to a mailbox, and writes the answer over what `out`
    /// has.
    pub fn deliver<D: Desk>(
        &self,
        alloc: Global,
        desk: &mut D,
        mailbox: &[u8],
        flags: Flags,
        message: &[u8],
        out: &mut Vec<u8>,
    ) -> Result<(), NoMemory>
        requires there { self.now.account < length (D.shares desk.old) }
        requires small { length message.now ≤ 67108864 }
        ensures ok { OnOk result (DoesWork (D.shares desk.old) (D.shares desk.new)
            (deliver_work self.now.epoch self.now.account (canonical mailbox.now) flags
            message.now) out.new.items Open) }
        ensures err { OnErr result (LeavesWork (D.shares desk.old) (D.shares desk.new)
            (deliver_work self.now.epoch self.now.account (canonical mailbox.now) flags
            message.now)) }
        ensures leads { D.leads desk.old desk.new }
    {
        let Some(mailbox) = short_name(alloc, canonical_spelling(mailbox))? else {
            return write_action(out, NO_MAILBOX);
        };
        let call = Call::Deliver {
            mailbox,
            octets: message.len() as u64,
            flags,
        };
        self.ask(alloc, desk, call, message, Kind::Deliver, out)
    }

    /// Removes the message of this name, and writes the answer over what `out` has.
    pub fn remove<D: Desk>(
        &self,
        alloc: Global,
        desk: &mut D,
        mailbox: &[u8],
        name: &[u8],
        out: &mut Vec<u8>,
    ) -> Result<(), NoMemory>
        requires there { self.now.account < length (D.shares desk.old) }
        ensures ok { OnOk result (DoesWork (D.shares desk.old) (D.shares desk.new)
            (remove_work self.now.epoch self.now.account (canonical mailbox.now) name.now)
            out.new.items Open) }
        ensures err { OnErr result (LeavesWork (D.shares desk.old) (D.shares desk.new)
            (remove_work self.now.epoch self.now.account (canonical mailbox.now) name.now)) }
        ensures leads { D.leads desk.old desk.new }
    {
        let Some(mailbox) = short_name(alloc, canonical_spelling(mailbox))? else {
            return write_action(out, NO_MAILBOX);
        };
        let Some(base) = short_name(alloc, name)? else {
            return write_action(out, NO_MESSAGE);
        };
        self.ask(
            alloc,
            desk,
            Call::Remove { mailbox, base },
            b"",
            Kind::Remove,
            out,
        )
    }

    /// Gives the message of this name these flags, and writes the answer over what `out` has.
    pub fn mark<D: Desk>(
        &self,
        alloc: Global,
        desk: &mut D,
        mailbox: &[u8],
        name: &[u8],
        flags: Flags,
        out: &mut Vec<u8>,
    ) -> Result<(), NoMemory>
        requires there { self.now.account < length (D.shares desk.old) }
        ensures ok { OnOk result (DoesWork (D.shares desk.old) (D.shares desk.new)
            (mark_work self.now.epoch self.now.account (canonical mailbox.now) name.now flags)
            out.new.items Open) }
        ensures err { OnErr result (LeavesWork (D.shares desk.old) (D.shares desk.new)
            (mark_work self.now.epoch self.now.account (canonical mailbox.now) name.now
            flags)) }
        ensures leads { D.leads desk.old desk.new }
    {
        let Some(mailbox) = short_name(alloc, canonical_spelling(mailbox))? else {
            return write_action(out, NO_MAILBOX);
        };
        let Some(base) = short_name(alloc, name)? else {
            return write_action(out, NO_MESSAGE);
        };
        let call = Call::Mark {
            mailbox,
            base,
            flags,
        };
        self.ask(alloc, desk, call, b"", Kind::Mark, out)
    }

    /// Moves the message of this name to the mailbox `to`, and writes the answer over what `out`
    /// has.
    pub fn move_message<D: Desk>(
        &self,
        alloc: Global,
        desk: &mut D,
        mailbox: &[u8],
        name: &[u8],
        to: &[u8],
        out: &mut Vec<u8>,
    ) -> Result<(), NoMemory>
        requires there { self.now.account < length (D.shares desk.old) }
        ensures ok { OnOk result (DoesWork (D.shares desk.old) (D.shares desk.new)
            (move_work self.now.epoch self.now.account (canonical mailbox.now) name.now
            (canonical to.now)) out.new.items Open) }
        ensures err { OnErr result (LeavesWork (D.shares desk.old) (D.shares desk.new)
            (move_work self.now.epoch self.now.account (canonical mailbox.now) name.now
            (canonical to.now))) }
        ensures leads { D.leads desk.old desk.new }
    {
        let Some(from) = short_name(alloc, canonical_spelling(mailbox))? else {
            return write_action(out, NO_MAILBOX);
        };
        let Some(to) = short_name(alloc, canonical_spelling(to))? else {
            return write_action(out, NO_MAILBOX);
        };
        let Some(base) = short_name(alloc, name)? else {
            return write_action(out, NO_MESSAGE);
        };
        self.ask(
            alloc,
            desk,
            Call::Move { from, base, to },
            b"",
            Kind::Move,
            out,
        )
    }
}
