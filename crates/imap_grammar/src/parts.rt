// A command's parts, read one after another.
ghost use Rattle.std.specs.Prelude.{◌≡◌, ◌<◌, IfOk, length};
ghost use Rattle.imap_grammar.specs.Reading.{Gives, FailsAt};
ghost use Rattle.imap_grammar.specs.Commands.{tag_at, checked_tag, word_of, ended, name_alone, user_and_password, name_and_limits, name_and_items, name_and_message, arguments_after, arguments_of, command_at};

use crate::append::flagged_marker;
use crate::astring::{Astring, name};
use crate::command::Command;
use crate::limits::limits_closed;
use crate::readers::{Stop, byte, letters, line_end, tag_bytes};
use crate::status::status_items;
use crate::word::{Word, is_allowed, word_of};
use std::alloc::Global;

/// The stop of a reader that accepts nothing at this rest: `Short` if the text ends here, else
/// `Wrong` here.
fn stopped(rest: &[u8]) -> Stop
    ensures { FailsAt rest.now result }
{
    if rest.is_empty() {
        Stop::Short
    } else {
        Stop::Wrong { left: rest.len() }
    }
}

/// These bytes, if they are a tag.
fn checked_tag<'a>(bytes: &'a [u8], rest: &'a [u8]) -> Result<(&'a [u8], &'a [u8]), Stop>
    ensures { Gives (λ x. x.0.now) (λ x. x.1.now) result (checked_tag bytes.now rest.now) }
{
    if bytes.is_empty() {
        return Err(stopped(rest));
    }
    if bytes.len() > 64 {
        return Err(stopped(rest));
    }
    Ok((bytes, rest))
}

/// A tag: 1 to 64 tag bytes.
fn tag(text: &[u8]) -> Result<(&[u8], &[u8]), Stop>
    ensures { Gives (λ x. x.0.now) (λ x. x.1.now) result (tag_at text.now) }
{
    let (bytes, rest) = tag_bytes(text)?;
    let (tag, rest) = checked_tag(bytes, rest)?;
    Ok((tag, rest))
}

/// A space, a name and the line's end.
fn name_alone(alloc: Global, text: &[u8]) -> Result<(Astring, &[u8]), Stop>
    ensures { Gives (λ x. x.0) (λ x. x.1.now) result (name_alone text.now) }
{
    let ((), rest) = byte(text, b' ')?;
    let (name, rest) = name(alloc, rest)?;
    let ((), rest) = line_end(rest)?;
    Ok((name, rest))
}

/// A space, a name, a space, a password and the line's end.
fn user_and_password(alloc: Global, text: &[u8]) -> Result<(Command, &[u8]), Stop>
    ensures { Gives (λ x. x.0) (λ x. x.1.now) result (user_and_password text.now) }
{
    let ((), rest) = byte(text, b' ')?;
    let (user, rest) = name(alloc, rest)?;
    let ((), rest) = byte(rest, b' ')?;
    let (password, rest) = name(alloc, rest)?;
    let ((), rest) = line_end(rest)?;
    Ok((Command::Login { user, password }, rest))
}

/// A space, a name, a space, limits in parentheses and the line's end.
fn name_and_limits(alloc: Global, text: &[u8]) -> Result<(Command, &[u8]), Stop>
    ensures { Gives (λ x. x.0) (λ x. x.1.now) result (name_and_limits text.now) }
{
    let ((), rest) = byte(text, b' ')?;
    let (root, rest) = name(alloc, rest)?;
    let ((), rest) = byte(rest, b' ')?;
    let ((), rest) = byte(rest, b'(')?;
    let (limits, rest) = limits_closed(alloc, rest)?;
    let ((), rest) = line_end(rest)?;
    Ok((Command::SetQuota { root, limits }, rest))
}

/// A space, a name, a space, items in parentheses and the line's end.
fn name_and_items(alloc: Global, text: &[u8]) -> Result<(Command, &[u8]), Stop>
    ensures { Gives (λ x. x.0) (λ x. x.1.now) result (name_and_items text.now) }
{
    let ((), rest) = byte(text, b' ')?;
    let (mailbox, rest) = name(alloc, rest)?;
    let ((), rest) = byte(rest, b' ')?;
    let ((), rest) = byte(rest, b'(')?;
    let (items, rest) = status_items(alloc, rest)?;
    let ((), rest) = line_end(rest)?;
    Ok((Command::Status { mailbox, items }, rest))
}

/// A space, a name, a space, and what comes before a message, up to the message's marker.
fn name_and_message(alloc: Global, text: &[u8]) -> Result<(Command, &[u8]), Stop>
    ensures { Gives (λ x. x.0) (λ x. x.1.now) result (name_and_message text.now) }
{
    let ((), rest) = byte(text, b' ')?;
    let (mailbox, rest) = name(alloc, rest)?;
    let ((), rest) = byte(rest, b' ')?;
    let ((flags, size), rest) = flagged_marker(rest)?;
    let append = Command::Append {
        mailbox,
        flags,
        size,
    };
    Ok((append, rest))
}

/// The line's end, after which this command is whole.
fn ended(command: Command, text: &[u8]) -> Result<(Command, &[u8]), Stop>
    ensures { Gives (λ x. x.0) (λ x. x.1.now) result (ended command text.now) }
{
    let ((), rest) = line_end(text)?;
    Ok((command, rest))
}

/// What follows a command's word: all of it, or up to the message's marker.
#[inline(always)]
fn arguments_after(alloc: Global, word: Word, text: &[u8]) -> Result<(Command, &[u8]), Stop>
    ensures { Gives (λ x. x.0) (λ x. x.1.now) result (arguments_after word text.now) }
{
    match word {
        Word::Capability => ended(Command::Capability, text),
        Word::Noop => ended(Command::Noop, text),
        Word::Logout => ended(Command::Logout, text),
        Word::Login => user_and_password(alloc, text),
        Word::GetQuota => {
            let (root, rest) = name_alone(alloc, text)?;
            Ok((Command::GetQuota { root }, rest))
        }
        Word::GetQuotaRoot => {
            let (mailbox, rest) = name_alone(alloc, text)?;
            Ok((Command::GetQuotaRoot { mailbox }, rest))
        }
        Word::SetQuota => name_and_limits(alloc, text),
        Word::Status => name_and_items(alloc, text),
        Word::Append => name_and_message(alloc, text),
    }
}

/// What follows the word of a command that is allowed.
#[inline(always)]
fn arguments<'a>(
    alloc: Global,
    letters: &[u8],
    text: &'a [u8],
    login: bool,
) -> Result<(Command, &'a [u8]), Stop>
    ensures { Gives (λ x. x.0) (λ x. x.1.now) result
        (arguments_of login (word_of letters.now) text.now) }
{
    match word_of(letters) {
        Some(word) if is_allowed(word, login) => arguments_after(alloc, word, text),
        _ => Err(stopped(text)),
    }
}

/// A tag, a command that is allowed, and the rest. APPEND is read up to its message's marker.
#[inline(always)]
pub fn tagged(alloc: Global, text: &[u8], login: bool) -> Result<(&[u8], Command, &[u8]), Stop>
    ensures is { Gives (λ x. record { tag = x.0.now; command = x.1 }) (λ x. x.2.now) result
        (command_at login text.now) }
    ensures tag { IfOk result (λ x. length x.0.now < length text.now) }
{
    let (tag, rest) = tag(text)?;
    let ((), rest) = byte(rest, b' ')?;
    let (word, rest) = letters(rest)?;
    let (command, rest) = arguments(alloc, word, rest, login)?;
    Ok((tag, command, rest))
}
