// What a command's text has come to.
ghost use Rattle.std.specs.Prelude.{◌≡◌, ◌<◌, ◌≤◌, ◌⊎◌, ◌-◌, Ok, Err, IfOk, length, take, drop};
ghost use Rattle.imap_grammar.specs.Progressing.{max_text, max_message, message_size, long_or, has_end, wrong_at, ended_before, after_marker, at_marker, read_before, at_literal, progress_in, Fits};
ghost use Rattle.imap_grammar.specs.declared.command.CommandFault.TheVariants.{NoMemory};
ghost use Rattle.imap_grammar.specs.declared.progress.Progress.TheVariants.{More};

use crate::command::{Command, CommandFault};
use crate::faults::line_fault;
use crate::parts::tagged;
use crate::readers::{Stop, line_end};
use std::alloc::Global;

/// The most bytes that a command's text may have.
pub const MAX_TEXT: usize = 16384;

/// The most octets that a message may have.
pub const MAX_MESSAGE: u64 = 67108864;

/// What a command's text has come to, if it has no fault.
#[derive(Debug, Drop)]
pub enum Progress {
    /// The text is this command, and no more. Its first `tag` bytes are the tag.
    Whole { command: Command, tag: usize },
    /// The text ends with the marker of a literal: `count` octets come next, then more of the text.
    Literal { count: usize },
    /// The text is an APPEND up to the marker of its message: `count` octets come next, which are
    /// no part of the text, and then its line's end.
    Message { count: usize },
    /// The line of the text has no end yet: more of its bytes come next. The first `at` bytes are
    /// the most with which a command begins: all of them, unless the line has a fault already.
    More { at: usize },
}

/// The octets of the message that comes after the command's marker.
fn message_size(command: &Command) -> Option<u64>
    ensures { result ≡ message_size command.now }
{
    match command {
        Command::Append { size, .. } => Some(*size),
        Command::Capability | Command::Noop | Command::Logout => None,
        Command::Login { .. } | Command::GetQuota { .. } | Command::GetQuotaRoot { .. } => None,
        Command::SetQuota { .. } | Command::Status { .. } => None,
    }
}

/// A text whose line has no end yet is too long, or else goes on.
fn unended(text: &[u8], at: usize) -> Result<Progress, CommandFault>
    requires { at ≤ length text.now }

    ensures is { result ≡ long_or text.now (Ok (More at)) }
    ensures fits { IfOk result (λ progress. Fits text.now progress) }
{
    if text.len() >= MAX_TEXT {
        return Err(CommandFault::TooLong);
    }
    Ok(Progress::More { at })
}

/// The most bytes of the text that a command may have.
fn within(text: &[u8]) -> &[u8]
    ensures { result.now ≡ take max_text text.now }
{
    if text.len() > MAX_TEXT {
        return &text[..MAX_TEXT];
    }
    text
}

/// The text after its first `at` bytes.
fn after(text: &[u8], at: usize) -> &[u8]
    ensures { result.now ≡ drop at text.now }
{
    if at < text.len() {
        return &text[at..];
    }
    &[]
}

/// Whether the line ends after the first `at` bytes, within the most bytes that a text may have.
fn has_end(text: &[u8], at: usize) -> bool
    ensures { result ≡ has_end text.now at }
{
    after(within(text), at).contains(&b'\n')
}

/// A text that goes wrong after `at` bytes.
fn wrong_at(text: &[u8], login: bool, at: usize) -> Result<Progress, CommandFault>
    requires { at ≤ length text.now }

    ensures is { result ≡ wrong_at login text.now at }
    ensures fits { IfOk result (λ progress. Fits text.now progress) }
{
    if has_end(text, at) {
        return Err(line_fault(text, login, at));
    }
    unended(text, at)
}

/// A text that begins with a command, and then has this rest.
#[inline(always)]
fn ended_before(
    text: &[u8],
    tag: &[u8],
    command: Command,
    rest: &[u8],
) -> Result<Progress, CommandFault>
    requires { length tag.now < length text.now }

    ensures is { result ≡ ended_before text.now (record { tag = tag.now; command = command })
        rest.now }
    ensures fits { IfOk result (λ progress. Fits text.now progress) }
{
    let at = text.len().saturating_sub(rest.len());
    if at > MAX_TEXT {
        return Err(CommandFault::TooLong);
    }
    if !rest.is_empty() {
        return Err(CommandFault::Syntax { at });
    }
    let tag = tag.len();
    Ok(Progress::Whole { command, tag })
}

/// A text that has this rest after the marker of its message.
fn after_marker(
    text: &[u8],
    login: bool,
    tag: &[u8],
    command: Command,
    size: u64,
    rest: &[u8],
) -> Result<Progress, CommandFault>
    requires tag { length tag.now < length text.now }
    requires room { length text.now - length rest.now < max_text }
    requires size { size ≤ max_message }

    ensures is { (result ≡ Err NoMemory) ⊎ (result ≡ after_marker login text.now
        (record { tag = tag.now; command = command }) size rest.now) }
    ensures fits { IfOk result (λ progress. Fits text.now progress) }
{
    if rest.is_empty() {
        let count = size as usize;
        return Ok(Progress::Message { count });
    }
    match line_end(rest) {
        Ok(((), rest)) => ended_before(text, tag, command, rest),
        Err(Stop::Wrong { left }) => wrong_at(text, login, text.len().saturating_sub(left)),
        Err(Stop::Short | Stop::Marked { .. }) => unended(text, text.len()),
        Err(Stop::Memory) => Err(CommandFault::NoMemory),
    }
}

/// A text that has this rest after the marker of its message, unless it is too long up to the
/// marker, or the message too large.
fn at_marker(
    text: &[u8],
    login: bool,
    tag: &[u8],
    command: Command,
    size: u64,
    rest: &[u8],
) -> Result<Progress, CommandFault>
    requires { length tag.now < length text.now }

    ensures is { (result ≡ Err NoMemory) ⊎ (result ≡ at_marker login text.now
        (record { tag = tag.now; command = command }) size rest.now) }
    ensures fits { IfOk result (λ progress. Fits text.now progress) }
{
    if text.len().saturating_sub(rest.len()) >= MAX_TEXT {
        return Err(CommandFault::TooLong);
    }
    if size > MAX_MESSAGE {
        return Err(CommandFault::MessageTooLarge);
    }
    after_marker(text, login, tag, command, size, rest)
}

/// A text that begins with a command, up to the marker of its message if it has one, and then has
/// this rest.
#[inline(always)]
fn read_before(
    text: &[u8],
    login: bool,
    tag: &[u8],
    command: Command,
    rest: &[u8],
) -> Result<Progress, CommandFault>
    requires { length tag.now < length text.now }

    ensures is { (result ≡ Err NoMemory) ⊎ (result ≡ read_before login text.now
        (record { tag = tag.now; command = command }) (message_size command) rest.now) }
    ensures fits { IfOk result (λ progress. Fits text.now progress) }
{
    match message_size(&command) {
        Some(size) => at_marker(text, login, tag, command, size, rest),
        None => ended_before(text, tag, command, rest),
    }
}

/// A text that ends with the marker of a literal of `count` octets.
fn at_literal(text: &[u8], count: usize) -> Result<Progress, CommandFault>
    ensures is { result ≡ long_or text.now (at_literal text.now count) }
    ensures fits { IfOk result (λ progress. Fits text.now progress) }
{
    if text.len() >= MAX_TEXT {
        return Err(CommandFault::TooLong);
    }
    if count > MAX_TEXT - text.len() {
        return Err(CommandFault::LiteralTooLarge);
    }
    Ok(Progress::Literal { count })
}

/// What the text of a command has come to, in a session that is logged in or not (RFC 9051, section
/// 9; RFC 9208). The octets of literals are part of the text, those of an APPEND's message are not:
/// after them the text goes on with its line's end.
///
/// # Errors
///
/// The first fault of the text, in the order of `CommandFault`, but a literal or a message that is
/// too large is found at its marker, and the faults of a line at its end. `NoMemory` if memory runs
/// out.
#[inline(always)]
pub fn read_progress(alloc: Global, text: &[u8], login: bool) -> Result<Progress, CommandFault>
    ensures is { (result ≡ Err NoMemory) ⊎ (result ≡ progress_in login text.now) }
    ensures fits { IfOk result (λ progress. Fits text.now progress) }
{
    match tagged(alloc, text, login) {
        Ok((tag, command, rest)) => read_before(text, login, tag, command, rest),
        Err(Stop::Wrong { left }) => wrong_at(text, login, text.len().saturating_sub(left)),
        Err(Stop::Short) => unended(text, text.len()),
        Err(Stop::Marked { count }) => at_literal(text, count),
        Err(Stop::Memory) => Err(CommandFault::NoMemory),
    }
}
