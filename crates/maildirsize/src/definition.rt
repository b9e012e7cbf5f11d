ghost use Rattle.std.specs.Prelude.{◌≡◌, ◌==◌, if◌then◌else◌, None, Some, IfSome, IfOk, MatchOption, MatchResult};
ghost use Rattle.std.specs.List.{take_while};
ghost use Rattle.quota_units.specs.Limiting.{IsLimit};
ghost use Rattle.maildirsize.specs.Prefixes.{skip_while, begins_with};
ghost use Rattle.maildirsize.specs.Lines.{is_in_line, first_line};
ghost use Rattle.maildirsize.specs.Definition.{limit_of, is_in_member, member_in, member_texts_at, limits_in, wrong_text_in, definition_in, wrong_member_in, definition_of};

use crate::prefixes::{after_byte, leading_digits};
use quota_units::{LARGEST_LIMIT, Limits};

/// A member of a definition: its letter, and the limit that its number sets.
#[derive(Clone, Copy)]
pub(crate) struct Member {
    letter: u8,
    limit: Option<u64>,
}

/// The limits that the first line of a ledger defines, whatever comes after it; `None` if there are
/// no bytes, or if that line is not a definition.
///
/// A definition is empty, or has members with commas between them (Maildir++). A member is one or
/// more digits and a letter: `S` for octets and `C` for messages. Members with other letters are
/// skipped, and of several members with one letter only the last counts. A number above
/// 9007199254740991 is cut at it, and 0 sets no limit.
pub fn definition_of(bytes: &[u8]) -> Option<Limits>
    ensures { result ≡ definition_of bytes.now }
{
    if bytes.is_empty() {
        return None;
    }
    match leading_definition(bytes) {
        Ok((octets, count, _)) => Some(limits_from(octets, count)),
        Err(_) => None,
    }
}

/// The limits of octets and of messages that the first line of the bytes defines, and the bytes
/// after that line, which are none or begin with a line feed.
///
/// # Errors
///
/// The offset at which the line's first wrong member begins.
pub(crate) fn leading_definition(bytes: &[u8]) -> Result<(Option<u64>, Option<u64>, &[u8]), usize>
    ensures limits { MatchResult result
        (λ r. (definition_in (first_line bytes.now) ≡ Some (record { octets = r.0; count = r.1 }))
        × (r.2.now ≡ skip_while is_in_line bytes.now))
        (λ at. wrong_member_in (first_line bytes.now) ≡ Some at) }
    ensures octets { IfOk result (λ r. IfSome r.0 IsLimit) }
    ensures count { IfOk result (λ r. IfSome r.1 IsLimit) }
{
    if is_within_line(bytes) {
        leading_members(bytes)
    } else {
        Ok((None, None, bytes))
    }
}

/// The limits of octets and of messages.
pub(crate) fn limits_from(octets: Option<u64>, count: Option<u64>) -> Limits
    requires octets { IfSome octets IsLimit }
    requires count { IfSome count IsLimit }
    ensures { result ≡ record { octets = octets; count = count } }
{
    Limits::new(octets, count).unwrap()
}

/// The limits of octets and of messages that the members of the first line set, and the bytes after
/// that line.
///
/// # Errors
///
/// The offset at which the first wrong member begins.
fn leading_members(bytes: &[u8]) -> Result<(Option<u64>, Option<u64>, &[u8]), usize>
    ensures limits { MatchResult result
        (λ r. (limits_in (member_texts_at bytes.now) ≡ Some (record { octets = r.0; count = r.1 }))
        × (r.2.now ≡ skip_while is_in_line bytes.now))
        (λ at. wrong_text_in (member_texts_at bytes.now) ≡ Some at) }
    ensures octets { IfOk result (λ r. IfSome r.0 IsLimit) }
    ensures count { IfOk result (λ r. IfSome r.1 IsLimit) }
{
    let mut octets = None;
    let mut count = None;
    let mut rest = bytes;
    loop {
        let Some((member, next)) = leading_member(rest) else {
            return Err(bytes.len() - rest.len());
        };
        octets = limit_after(octets, member, b'S');
        count = limit_after(count, member, b'C');
        match after_byte(next, b',') {
            Some(more) => rest = more,
            None => return Ok((octets, count, next)),
        }
    }
}

/// The member that the bytes begin with, up to a comma or the line's end, and the bytes from there
/// on; `None` if the bytes do not begin with a member.
fn leading_member(bytes: &[u8]) -> Option<(Member, &[u8])>
    ensures member { MatchOption result (member_in (take_while is_in_member bytes.now) ≡ None)
        (λ r. (member_in (take_while is_in_member bytes.now) ≡ Some r.0)
        × (r.1.now ≡ skip_while is_in_member bytes.now)) }
    ensures limit { IfSome result (λ r. IfSome r.0.limit IsLimit) }
{
    let (number, rest) = leading_digits(bytes);
    let (letter, next) = rest.split_first()?;
    if rest.len() == bytes.len() || !letter.is_ascii_alphabetic() || is_within_member(next) {
        return None;
    }
    let limit = limit_of(number);
    Some((
        Member {
            letter: *letter,
            limit,
        },
        next,
    ))
}

/// The limit for a letter after this member, if the members before it set the limit `before`.
fn limit_after(before: Option<u64>, member: Member, letter: u8) -> Option<u64>
    ensures { result ≡ (if member.letter == letter then member.limit else before) }
{
    if member.letter == letter {
        member.limit
    } else {
        before
    }
}

/// The limit that a number sets, cut at 9007199254740991; none for 0.
fn limit_of(number: u64) -> Option<u64>
    ensures value { result ≡ limit_of number }
    ensures range { IfSome result IsLimit }
{
    if number == 0 {
        None
    } else {
        Some(number.min(LARGEST_LIMIT))
    }
}

/// Whether the bytes begin with a byte of a line.
fn is_within_line(bytes: &[u8]) -> bool
    ensures { result ≡ begins_with is_in_line bytes.now }
{
    !matches!(bytes, [] | [b'\n', ..])
}

/// Whether the bytes begin with a byte of a member.
fn is_within_member(bytes: &[u8]) -> bool
    ensures { result ≡ begins_with is_in_member bytes.now }
{
    !matches!(bytes, [] | [b',' | b'\n', ..])
}
