// What follows the mailbox of APPEND: flags, a date, and the marker of the message.
ghost use Rattle.std.specs.Prelude.{◌≡◌, [], ◌∷◌};
ghost use Rattle.imap_grammar.specs.Reading.{Gives};
ghost use Rattle.imap_grammar.specs.Lists.{next_item};
ghost use Rattle.imap_grammar.specs.SystemFlags.{letter_of, flags_of, either};
ghost use Rattle.imap_grammar.specs.AppendArguments.{flag, some_flags, any_flags, date, message_marker, date_and_marker, dated_marker, flags_and_marker, flagged_marker};

use crate::astring::{is_escaped, is_quotable, plain};
use crate::literal::marker;
use crate::readers::{Stop, byte};
use quota_units::Flags;

/// The letter that file names have for a flag with a `\`, by its name in either case.
fn letter_of(name: &[u8]) -> Option<u8>
    ensures { result ≡ letter_of name.now }
{
    if name.eq_ignore_ascii_case(b"draft") {
        Some(b'D')
    } else if name.eq_ignore_ascii_case(b"flagged") {
        Some(b'F')
    } else if name.eq_ignore_ascii_case(b"answered") {
        Some(b'R')
    } else if name.eq_ignore_ascii_case(b"seen") {
        Some(b'S')
    } else if name.eq_ignore_ascii_case(b"deleted") {
        Some(b'T')
    } else {
        None
    }
}

/// A flag, with or without a `\`: its letter, if it has one.
fn flag(text: &[u8]) -> Result<(Option<u8>, &[u8]), Stop>
    ensures { Gives (λ x. x.0) (λ x. x.1.now) result (flag text.now) }
{
    if let [b'\\', rest @ ..] = text {
        let (name, rest) = plain(rest)?;
        return Ok((letter_of(name), rest));
    }
    let (_, rest) = plain(text)?;
    Ok((None, rest))
}

/// A space and a flag, or the closing parenthesis.
fn next_flag(text: &[u8]) -> Result<(Option<Option<u8>>, &[u8]), Stop>
    ensures { Gives (λ x. x.0) (λ x. x.1.now) result (next_item flag text.now) }
{
    match text {
        [] => Err(Stop::Short),
        [b')', rest @ ..] => Ok((None, rest)),
        [b' ', rest @ ..] => {
            let (letter, rest) = flag(rest)?;
            Ok((Some(letter), rest))
        }
        _ => Err(Stop::Wrong { left: text.len() }),
    }
}

/// The flag of the letter, if there is one.
fn flag_of(letter: Option<u8>) -> Flags
    ensures { result ≡ flags_of (letter ∷ []) }
{
    match letter {
        Some(letter) => Flags::among(&[letter]),
        None => Flags::among(b""),
    }
}

/// The flags that either one has.
fn either(one: Flags, other: Flags) -> Flags
    ensures { result ≡ either one other }
{
    Flags {
        draft: one.draft | other.draft,
        flagged: one.flagged | other.flagged,
        passed: one.passed | other.passed,
        replied: one.replied | other.replied,
        seen: one.seen | other.seen,
        trashed: one.trashed | other.trashed,
    }
}

/// One flag or more, separated by spaces, and the closing parenthesis.
fn some_flags(text: &[u8]) -> Result<(Flags, &[u8]), Stop>
    ensures { Gives (λ x. x.0) (λ x. x.1.now) result (some_flags text.now) }
{
    let (first, mut rest) = flag(text)?;
    let mut flags = flag_of(first);
    loop {
        let (next, more) = next_flag(rest)?;
        match next {
            Some(letter) => flags = either(flags, flag_of(letter)),
            None => return Ok((flags, more)),
        }
        rest = more;
    }
}

/// Any number of flags, separated by spaces, and the closing parenthesis.
fn any_flags(text: &[u8]) -> Result<(Flags, &[u8]), Stop>
    ensures { Gives (λ x. x.0) (λ x. x.1.now) result (any_flags text.now) }
{
    if let [b')', rest @ ..] = text {
        return Ok((Flags::among(b""), rest));
    }
    some_flags(text)
}

/// A date, after its opening quote. It is read and dropped.
fn date(text: &[u8]) -> Result<((), &[u8]), Stop>
    ensures { Gives (λ x. x.0) (λ x. x.1.now) result (date text.now) }
{
    let mut after_backslash = false;
    for (i, b) in text.iter().enumerate() {
        if after_backslash {
            if !is_escaped(*b) {
                return Err(Stop::Wrong {
                    left: text.len() - i,
                });
            }
            after_backslash = false;
        } else if *b == b'"' {
            return Ok(((), &text[i + 1..]));
        } else if *b == b'\\' {
            after_backslash = true;
        } else if !is_quotable(*b) {
            return Err(Stop::Wrong {
                left: text.len() - i,
            });
        }
    }
    Err(Stop::Short)
}

/// The marker of the message: the number of its octets.
fn message_marker(text: &[u8]) -> Result<(u64, &[u8]), Stop>
    ensures { Gives (λ x. x.0) (λ x. x.1.now) result (message_marker text.now) }
{
    let ((), rest) = byte(text, b'{')?;
    let (size, rest) = marker(rest)?;
    Ok((size, rest))
}

/// The marker of the message, which may come after a date and a space.
fn dated_marker(text: &[u8]) -> Result<(u64, &[u8]), Stop>
    ensures { Gives (λ x. x.0) (λ x. x.1.now) result (dated_marker text.now) }
{
    if let [b'"', rest @ ..] = text {
        let ((), rest) = date(rest)?;
        let ((), rest) = byte(rest, b' ')?;
        return message_marker(rest);
    }
    message_marker(text)
}

/// The marker of the message, which may come after flags in parentheses, a date, and a space after
/// each of them.
pub fn flagged_marker(text: &[u8]) -> Result<((Flags, u64), &[u8]), Stop>
    ensures { Gives (λ x. x.0) (λ x. x.1.now) result (flagged_marker text.now) }
{
    if let [b'(', rest @ ..] = text {
        let (flags, rest) = any_flags(rest)?;
        let ((), rest) = byte(rest, b' ')?;
        let (size, rest) = dated_marker(rest)?;
        return Ok(((flags, size), rest));
    }
    let (size, rest) = dated_marker(text)?;
    Ok(((Flags::among(b""), size), rest))
}
