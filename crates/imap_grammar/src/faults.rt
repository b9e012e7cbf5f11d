// Why a line is no command, read off the line alone.
ghost use Rattle.std.specs.Prelude.{◌≡◌};
ghost use Rattle.imap_grammar.specs.Bytes.{is_tag_byte};
ghost use Rattle.imap_grammar.specs.Commands.{is_tag_long};
ghost use Rattle.imap_grammar.specs.Faults.{taken, untaken, begins_line_end, tag_in, word_in, word_fault, fault_after_tag, line_fault, begins_as, begins_common, begins_quota, begins_mailbox, begins_word, are_letters, fault_in_word, unended_fault};

use crate::command::CommandFault;
use crate::readers::is_tag_byte;
use crate::word::{Word, is_allowed, word_of};

/// The bytes of a tag that a text begins with, and the rest.
fn tag_and_rest(text: &[u8]) -> (&[u8], &[u8])
    ensures tag { result.0.now ≡ taken is_tag_byte text.now }
    ensures rest { result.1.now ≡ untaken is_tag_byte text.now }
{
    for (i, b) in text.iter().enumerate() {
        if !is_tag_byte(*b) {
            return text.split_at(i);
        }
    }
    text.split_at(text.len())
}

/// Whether bytes have the length of a tag: 1 to 64.
fn is_tag_long(bytes: &[u8]) -> bool
    ensures { result ≡ is_tag_long bytes.now }
{
    !bytes.is_empty() && bytes.len() <= 64
}

/// Whether a text begins with a line's end: LF, or CR and LF.
fn begins_line_end(text: &[u8]) -> bool
    ensures { result ≡ begins_line_end text.now }
{
    matches!(text, [b'\n', ..] | [b'\r', b'\n', ..])
}

/// The bytes of a tag that a text begins with (RFC 9051, section 9: tag). There may be none, or
/// more than a tag has.
pub fn tag_in(text: &[u8]) -> &[u8]
    ensures { result.now ≡ tag_in text.now }
{
    tag_and_rest(text).0
}

/// The bytes up to a space or the line's end: LF, or CR and LF.
fn word_in(text: &[u8]) -> &[u8]
    ensures { result.now ≡ word_in text.now }
{
    for (i, b) in text.iter().enumerate() {
        if *b == b' ' || begins_line_end(&text[i..]) {
            return &text[..i];
        }
    }
    text
}

/// The fault of a command with this word, which else goes wrong after `at` bytes.
fn word_fault(word: Option<Word>, login: bool, at: usize) -> CommandFault
    ensures { result ≡ word_fault login at word }
{
    match word {
        None => CommandFault::Unknown,
        Some(word) if is_allowed(word, login) => CommandFault::Syntax { at },
        Some(_) if login => CommandFault::AlreadyAuthenticated,
        Some(_) => CommandFault::NotAuthenticated,
    }
}

/// The fault of a line that is no command and goes wrong after `at` bytes: its tag, its word, its
/// login or its syntax, whichever is wrong first.
pub fn line_fault(text: &[u8], login: bool, at: usize) -> CommandFault
    ensures { result ≡ line_fault login text.now at }
{
    let (tag, rest) = tag_and_rest(text);
    match rest {
        [b' ', line @ ..] if is_tag_long(tag) => word_fault(word_of(word_in(line)), login, at),
        _ => CommandFault::InvalidTag,
    }
}

/// Whether this word begins with these letters, in either case.
fn begins_as(letters: &[u8], word: &[u8]) -> bool
    ensures { result ≡ begins_as letters.now word.now }
{
    letters.len() <= word.len() && letters.eq_ignore_ascii_case(&word[..letters.len()])
}

/// Whether the word of a command that is always allowed begins with these letters.
fn begins_common(letters: &[u8]) -> bool
    ensures { result ≡ begins_common letters.now }
{
    begins_as(letters, b"capability")
        || (begins_as(letters, b"noop") || begins_as(letters, b"logout"))
}

/// Whether the word of a command on quotas begins with these letters.
fn begins_quota(letters: &[u8]) -> bool
    ensures { result ≡ begins_quota letters.now }
{
    begins_as(letters, b"getquota")
        || (begins_as(letters, b"getquotaroot") || begins_as(letters, b"setquota"))
}

/// Whether the word of a command on mailboxes begins with these letters.
fn begins_mailbox(letters: &[u8]) -> bool
    ensures { result ≡ begins_mailbox letters.now }
{
    begins_as(letters, b"status") || begins_as(letters, b"append")
}

/// Whether the word of some command begins with these letters, or is these letters.
fn begins_word(letters: &[u8]) -> bool
    ensures { result ≡ begins_word letters.now }
{
    begins_common(letters)
        || (begins_as(letters, b"login") || (begins_quota(letters) || begins_mailbox(letters)))
}

/// Whether all bytes are letters.
fn are_letters(bytes: &[u8]) -> bool
    ensures { result ≡ are_letters bytes.now }
{
    bytes.iter().all(|b| b.is_ascii_alphabetic())
}

/// The fault of a text that ends after `at` bytes, of which these come after its tag and a space.
fn fault_in_word(line: &[u8], at: usize) -> CommandFault
    ensures { result ≡ fault_in_word at line.now }
{
    if are_letters(line) && !begins_word(line) {
        return CommandFault::Unknown;
    }
    CommandFault::Syntax { at }
}

/// The fault of a text that has to be a command, but goes on: after `at` bytes it goes wrong, or
/// ends. A text that ends in its tag, or in a word with which some command begins, is wrong at its
/// end.
pub fn unended_fault(text: &[u8], login: bool, at: usize) -> CommandFault
    ensures { result ≡ unended_fault login text.now at }
{
    if at < text.len() {
        return line_fault(text, login, at);
    }
    let (tag, rest) = tag_and_rest(text);
    match rest {
        [] if tag.len() <= 64 => CommandFault::Syntax { at },
        [] => CommandFault::InvalidTag,
        [_, line @ ..] => fault_in_word(line, at),
    }
}
