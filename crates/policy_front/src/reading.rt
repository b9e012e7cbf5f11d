// The text of a request, read without memory of its own.
ghost use Rattle.std.specs.Prelude.{◌≡◌, true, Ok, Err, Some, IfOk, IfErr};
ghost use Rattle.std.specs.Option.{option_map};
ghost use Rattle.policy_front.specs.Attributes.{is_closed};
ghost use Rattle.policy_front.specs.Texts.{size_of, octets_of, flags_of, size, octets, flags_or_none, given_flags, asked_of};
ghost use Rattle.policy_front.specs.Texts.{check_in, deliver_in, remove_in, mark_in, move_in, asked_by, asked_in, reading_of};

use crate::attributes::{attribute, has_form};
use quota_units::{Flags, number_in};
use thiserror::Error;

/// The most bytes of a request's text, its empty line included.
pub const MAX_TEXT: usize = 8192;

/// The most octets of a message.
pub const MAX_MESSAGE: u64 = 67108864;

/// What a size is cut at: 2^40 - 1 octets.
const MAX_SIZE: u64 = 1099511627775;

/// A request, as its text asks for it. The names are borrowed from the text.
#[derive(Clone, Copy, Debug, PartialEq, Eq)]
pub enum PolicyRequest<'a> {
    /// `smtpd_access_policy`: whether a message of `size` octets may come for a recipient. The size
    /// is cut at 1099511627775, and 0 if the text gives none.
    Check {
        recipient: Option<&'a [u8]>,
        size: u64,
    },
    /// `quotad_deliver`: a message for a mailbox. Its `octets` octets, at most 67108864, follow the
    /// text.
    Deliver {
        account: &'a [u8],
        mailbox: &'a [u8],
        octets: u64,
        flags: Flags,
    },
    /// `quotad_remove`: removes the message of this name.
    Remove {
        account: &'a [u8],
        mailbox: &'a [u8],
        name: &'a [u8],
    },
    /// `quotad_mark`: gives the message of this name these flags.
    Mark {
        account: &'a [u8],
        mailbox: &'a [u8],
        name: &'a [u8],
        flags: Flags,
    },
    /// `quotad_move`: moves the message of this name to the mailbox `to`.
    Move {
        account: &'a [u8],
        mailbox: &'a [u8],
        name: &'a [u8],
        to: &'a [u8],
    },
    /// `quotad_stop`: stops the server.
    Stop,
    /// A request that this service does not know.
    Other,
}

/// Why a text is no request.
#[derive(Clone, Copy, Debug, PartialEq, Eq, Error)]
pub enum PolicyFault {
    /// The text has more than 8192 bytes, is not attributes closed by one empty line, or lacks an
    /// attribute that its request needs.
    #[error("bad request")]
    BadRequest,
}

/// The number that one or more digits stand for, cut at 1099511627775; 0 for other bytes.
#[tactic(auto, using(crate::proofs::SizeLemmas::digit_step))]
fn size_of(value: &[u8]) -> u64
    ensures { result ≡ size_of value.now }
{
    let mut size = 0u64;
    for b in value {
        if !b.is_ascii_digit() {
            return 0;
        }
        size = (size * 10 + u64::from(*b - b'0')).min(MAX_SIZE);
    }
    size
}

/// The number that 1 to 10 digits stand for, if it is at most 67108864.
fn octets_of(value: &[u8]) -> Option<u64>
    ensures { result ≡ octets_of value.now }
{
    if value.len() > 10 {
        return None;
    }
    let octets = number_in(value)?;
    if octets > MAX_MESSAGE {
        return None;
    }
    Some(octets)
}

/// The flags of these letters; `None` if any other byte is among them.
fn flags_of(letters: &[u8]) -> Option<Flags>
    ensures { result ≡ flags_of letters.now }
{
    Flags::of_letters(letters)
}

/// What `smtpd_access_policy` asks for. The text is closed by its one empty line, here and below.
fn read_check(text: &[u8]) -> PolicyRequest<'_>
    requires { is_closed text.now ≡ true }
    ensures { asked_of result ≡ check_in text.now }
{
    PolicyRequest::Check {
        recipient: attribute(text, b"recipient"),
        size: size_of(attribute(text, b"size").unwrap_or(b"")),
    }
}

/// What `quotad_deliver` asks for.
fn read_deliver(text: &[u8]) -> Option<PolicyRequest<'_>>
    requires { is_closed text.now ≡ true }
    ensures { option_map asked_of result ≡ deliver_in text.now }
{
    let account = attribute(text, b"account")?;
    let octets = octets_of(attribute(text, b"octets")?)?;
    let flags = flags_of(attribute(text, b"flags").unwrap_or(b""))?;
    Some(PolicyRequest::Deliver {
        account,
        mailbox: attribute(text, b"mailbox").unwrap_or(b"INBOX"),
        octets,
        flags,
    })
}

/// What `quotad_remove` asks for.
fn read_remove(text: &[u8]) -> Option<PolicyRequest<'_>>
    requires { is_closed text.now ≡ true }
    ensures { option_map asked_of result ≡ remove_in text.now }
{
    Some(PolicyRequest::Remove {
        account: attribute(text, b"account")?,
        mailbox: attribute(text, b"mailbox")?,
        name: attribute(text, b"name")?,
    })
}

/// What `quotad_mark` asks for.
fn read_mark(text: &[u8]) -> Option<PolicyRequest<'_>>
    requires { is_closed text.now ≡ true }
    ensures { option_map asked_of result ≡ mark_in text.now }
{
    Some(PolicyRequest::Mark {
        account: attribute(text, b"account")?,
        mailbox: attribute(text, b"mailbox")?,
        name: attribute(text, b"name")?,
        flags: flags_of(attribute(text, b"flags")?)?,
    })
}

/// What `quotad_move` asks for.
fn read_move(text: &[u8]) -> Option<PolicyRequest<'_>>
    requires { is_closed text.now ≡ true }
    ensures { option_map asked_of result ≡ move_in text.now }
{
    Some(PolicyRequest::Move {
        account: attribute(text, b"account")?,
        mailbox: attribute(text, b"mailbox")?,
        name: attribute(text, b"name")?,
        to: attribute(text, b"to")?,
    })
}

/// What the request of this kind asks for.
fn read_kind<'a>(text: &'a [u8], kind: &[u8]) -> Option<PolicyRequest<'a>>
    requires { is_closed text.now ≡ true }
    ensures { option_map asked_of result ≡ asked_by text.now kind.now }
{
    if kind == b"smtpd_access_policy".as_slice() {
        Some(read_check(text))
    } else if kind == b"quotad_deliver".as_slice() {
        read_deliver(text)
    } else if kind == b"quotad_remove".as_slice() {
        read_remove(text)
    } else if kind == b"quotad_mark".as_slice() {
        read_mark(text)
    } else if kind == b"quotad_move".as_slice() {
        read_move(text)
    } else if kind == b"quotad_stop".as_slice() {
        Some(PolicyRequest::Stop)
    } else if kind.starts_with(b"quotad_") {
        None
    } else {
        Some(PolicyRequest::Other)
    }
}

/// What the text asks for, if it is a request's text.
fn read_text(text: &[u8]) -> Option<PolicyRequest<'_>>
    ensures { option_map asked_of result ≡ asked_in text.now }
{
    if text.len() > MAX_TEXT || !has_form(text) {
        return None;
    }
    read_kind(text, attribute(text, b"request")?)
}

/// Reads the text of a request, up to and with its empty line, in at most 8192 bytes. It takes no
/// memory.
///
/// # Errors
///
/// `BadRequest` if the text is not lines `NAME=VALUE` and one empty line at its end, if it has no
/// `request`, if that is none of the five requests but begins with `quotad_`, or if an attribute
/// that the request needs is missing or wrong.
pub fn read_request(lines: &[u8]) -> Result<PolicyRequest<'_>, PolicyFault>
    ensures ok { IfOk result (λ request. reading_of lines.now ≡ Ok (asked_of request)) }
    ensures err { IfErr result (λ fault. reading_of lines.now ≡ Err fault) }
{
    read_text(lines).ok_or(PolicyFault::BadRequest)
}
