// The answers to requests. Each is written whole unless memory runs out.
ghost use Rattle.std.specs.Prelude.{◌≡◌, ◌++◌, ℕ, OnOk};
ghost use Rattle.std.specs.Fmt.{decimal};
ghost use Rattle.account_core.specs.Delivering.{delivered_base};
ghost use Rattle.account_core.specs.History.{replied, store, journal_full};
ghost use Rattle.policy_front.specs.Answers.{action, over, resource_word, check_words, deliver_words};
ghost use Rattle.policy_front.specs.Answers.{remove_words, mark_words, move_words, answer_words, answer_text};

use crate::kind::Kind;
use account_core::{Reply, delivered_base};
use itoa::Buffer;
use quota_units::{NoMemory, Resource};
use std::alloc::{AllocError, Global};

/// The answer to a request that nothing is done for, or to a check of a message that fits.
pub const DUNNO: &[u8] = b"DUNNO";

/// The answer to a request that names no account.
pub const NO_ACCOUNT: &[u8] = b"no-account";

/// The answer to a request that names a mailbox that does not exist.
pub const NO_MAILBOX: &[u8] = b"no-mailbox";

/// The answer to a request that names a message that does not exist.
pub const NO_MESSAGE: &[u8] = b"no-message";

/// The answer to a request that was carried out.
const DONE: &[u8] = b"done";

/// The answer to a request, other than a check, if the store failed during its call.
const UNAVAILABLE: &[u8] = b"unavailable";

/// The answer to a request, other than a check, if the account's history is full.
const FULL: &[u8] = b"journal-full";

/// The answer to a check if the store failed during its call.
const CHECK_UNAVAILABLE: &[u8] = b"451 4.3.0 Store unavailable";

/// Writes the answer in these words over what `out` has.
pub fn write_action(out: &mut Vec<u8>, words: &[u8]) -> Result<(), NoMemory>
    ensures { OnOk result (out.new.items ≡ action words.now) }
{
    out.clear();
    out.extend_from_slice(b"action=")?;
    out.extend_from_slice(words)?;
    out.extend_from_slice(b"\n\n")?;
    Ok(())
}

/// Appends a number in decimal.
fn push_number(out: &mut Vec<u8>, number: u64) -> Result<(), AllocError>
    ensures { OnOk result (out.new.items ≡ out.old.items ++ decimal number) }
{
    out.extend_from_slice(Buffer::new().format(number).as_bytes())
}

/// The name of the resource.
fn resource_word(resource: Resource) -> &'static [u8]
    ensures { result.now ≡ resource_word resource }
{
    match resource {
        Resource::Storage => b"STORAGE",
        Resource::Message => b"MESSAGE",
    }
}

/// Appends the words for a message that would take this resource of this root above its limit.
fn push_over(out: &mut Vec<u8>, root: u32, resource: Resource) -> Result<(), AllocError>
    ensures { OnOk result (out.new.items ≡ out.old.items ++ over root resource) }
{
    out.extend_from_slice(b"over ")?;
    push_number(out, u64::from(root))?;
    out.extend_from_slice(b" ")?;
    out.extend_from_slice(resource_word(resource))
}

/// The words that answer a check, given the reply to its call.
fn check_words(reply: &Reply) -> &'static [u8]
    ensures { result.now ≡ check_words (replied reply.now) }
{
    match reply {
        Reply::Fits => DUNNO,
        Reply::Over { .. } => b"552 5.2.2 Mailbox full",
        // The call gets no other reply.
        _ => CHECK_UNAVAILABLE,
    }
}

/// Appends the words that answer a delivery, given the reply to its call. Its message is named
/// after the epoch.
fn push_deliver_words(
    alloc: Global,
    out: &mut Vec<u8>,
    epoch: u64,
    reply: &Reply,
) -> Result<(), NoMemory>
    ensures { OnOk result
        (out.new.items ≡ out.old.items ++ deliver_words epoch (replied reply.now)) }
{
    match reply {
        Reply::NoMailbox => out.extend_from_slice(NO_MAILBOX)?,
        Reply::Over { root, resource } => push_over(out, *root, *resource)?,
        Reply::Delivered { number } => {
            let base = delivered_base(alloc, epoch, *number)?;
            out.extend_from_slice(b"delivered ")?;
            out.extend_from_slice(base.as_slice())?;
        }
        // The call gets no other reply.
        _ => out.extend_from_slice(UNAVAILABLE)?,
    }
    Ok(())
}

/// The words that answer a removal, given the reply to its call.
fn remove_words(reply: &Reply) -> &'static [u8]
    ensures { result.now ≡ remove_words (replied reply.now) }
{
    match reply {
        Reply::NoMailbox => NO_MAILBOX,
        Reply::NoMessage => NO_MESSAGE,
        Reply::Removed => DONE,
        // The call gets no other reply.
        _ => UNAVAILABLE,
    }
}

/// The words that answer a change of flags, given the reply to its call.
fn mark_words(reply: &Reply) -> &'static [u8]
    ensures { result.now ≡ mark_words (replied reply.now) }
{
    match reply {
        Reply::NoMailbox => NO_MAILBOX,
        Reply::NoMessage => NO_MESSAGE,
        Reply::Marked => DONE,
        // The call gets no other reply.
        _ => UNAVAILABLE,
    }
}

/// Appends the words that answer a move, given the reply to its call.
fn push_move_words(out: &mut Vec<u8>, reply: &Reply) -> Result<(), AllocError>
    ensures { OnOk result (out.new.items ≡ out.old.items ++ move_words (replied reply.now)) }
{
    match reply {
        Reply::NoMailbox => out.extend_from_slice(NO_MAILBOX),
        Reply::NoMessage => out.extend_from_slice(NO_MESSAGE),
        Reply::NameTaken => out.extend_from_slice(b"name-taken"),
        Reply::Over { root, resource } => push_over(out, *root, *resource),
        Reply::Moved => out.extend_from_slice(DONE),
        // The call gets no other reply.
        _ => out.extend_from_slice(UNAVAILABLE),
    }
}

/// Appends the words that answer a request of this kind, given the reply to its call.
fn push_words(
    alloc: Global,
    out: &mut Vec<u8>,
    epoch: u64,
    kind: Kind,
    reply: &Reply,
) -> Result<(), NoMemory>
    ensures { OnOk result
        (out.new.items ≡ out.old.items ++ answer_words epoch kind (replied reply.now)) }
{
    match kind {
        Kind::Check => out.extend_from_slice(check_words(reply))?,
        Kind::Deliver => push_deliver_words(alloc, out, epoch, reply)?,
        Kind::Remove => out.extend_from_slice(remove_words(reply))?,
        Kind::Mark => out.extend_from_slice(mark_words(reply))?,
        Kind::Move => push_move_words(out, reply)?,
    }
    Ok(())
}

/// Writes the answer to a request of this kind over what `out` has, given the reply to its call.
pub fn write_answer(
    alloc: Global,
    out: &mut Vec<u8>,
    epoch: u64,
    kind: Kind,
    reply: &Reply,
) -> Result<(), NoMemory>
    ensures { OnOk result (out.new.items ≡ answer_text epoch kind (replied reply.now)) }
{
    out.clear();
    out.extend_from_slice(b"action=")?;
    push_words(alloc, out, epoch, kind, reply)?;
    out.extend_from_slice(b"\n\n")?;
    Ok(())
}

/// The words that answer a request of this kind if the store failed during its call.
pub fn store_words(kind: Kind) -> &'static [u8]
    ensures { (epoch : ℕ) → result.now ≡ answer_words epoch kind store }
{
    match kind {
        Kind::Check => CHECK_UNAVAILABLE,
        Kind::Deliver | Kind::Remove | Kind::Mark | Kind::Move => UNAVAILABLE,
    }
}

/// The words that answer a request of this kind if the account's history is full.
pub fn full_words(kind: Kind) -> &'static [u8]
    ensures { (epoch : ℕ) → result.now ≡ answer_words epoch kind journal_full }
{
    match kind {
        Kind::Check => b"452 4.3.1 Journal full",
        Kind::Deliver | Kind::Remove | Kind::Mark | Kind::Move => FULL,
    }
}
