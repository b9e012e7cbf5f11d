// Readers of the parts of a command. Each reads the part that its comment names, with which a text
// begins, and gives that part and the rest of the text.
ghost use Rattle.std.specs.Prelude.{◌≡◌};
ghost use Rattle.imap_grammar.specs.Reading.{Gives, byte, many, line_end};
ghost use Rattle.imap_grammar.specs.Bytes.{is_tag_byte, is_astring_byte, is_letter};
ghost use Rattle.imap_grammar.specs.declared.readers.Stop.TheVariants.{Memory};

use std::alloc::{AllocError, AllocFailed};

/// Why nothing was read.
#[derive(Clone, Copy, Debug, PartialEq, Eq)]
pub enum Stop {
    /// The text goes wrong at a byte. `left` bytes are left from that byte on.
    Wrong { left: usize },
    /// The text ends too early.
    Short,
    /// The text ends with the marker of a literal of `count` octets.
    Marked { count: usize },
    /// Memory ran out.
    Memory,
}

impl From<AllocError> for Stop {
    ghost from_gives = { λ _ e. e ≡ Memory };

    fn from(_: AllocError) -> Self {
        Stop::Memory
    }
}

impl<T: Drop> From<AllocFailed<T>> for Stop {
    ghost from_gives = { λ _ e. e ≡ Memory };

    fn from(_: AllocFailed<T>) -> Self {
        Stop::Memory
    }
}

/// The byte `wanted`.
pub fn byte(text: &[u8], wanted: u8) -> Result<((), &[u8]), Stop>
    ensures { Gives (λ x. x.0) (λ x. x.1.now) result (byte wanted text.now) }
{
    match text {
        [] => Err(Stop::Short),
        [first, rest @ ..] if *first == wanted => Ok(((), rest)),
        _ => Err(Stop::Wrong { left: text.len() }),
    }
}

/// A line's end: CR and LF, or LF alone.
pub fn line_end(text: &[u8]) -> Result<((), &[u8]), Stop>
    ensures { Gives (λ x. x.0) (λ x. x.1.now) result (line_end text.now) }
{
    match text {
        [] => Err(Stop::Short),
        [b'\n', rest @ ..] => Ok(((), rest)),
        [b'\r'] => Err(Stop::Short),
        [b'\r', b'\n', rest @ ..] => Ok(((), rest)),
        [b'\r', ..] => Err(Stop::Wrong {
            left: text.len() - 1,
        }),
        _ => Err(Stop::Wrong { left: text.len() }),
    }
}

/// Whether a tag may have this byte (RFC 9051, section 9: tag).
pub fn is_tag_byte(byte: u8) -> bool
    ensures { result ≡ is_tag_byte byte }
{
    (33..=126).contains(&byte) && !b"(){%*\"\\+".contains(&byte)
}

/// Whether a name may have this byte without quotes (RFC 9051, section 9: ASTRING-CHAR).
pub fn is_astring_byte(byte: u8) -> bool
    ensures { result ≡ is_astring_byte byte }
{
    byte == b'+' || is_tag_byte(byte)
}

/// The bytes of a tag, up to the first other byte.
#[tactic(auto, using(crate::proofs::Many::read_none, crate::proofs::Many::read_more, crate::proofs::Many::read_stops, crate::proofs::Many::read_all))]
pub fn tag_bytes(text: &[u8]) -> Result<(&[u8], &[u8]), Stop>
    ensures { Gives (λ x. x.0.now) (λ x. x.1.now) result (many is_tag_byte text.now) }
{
    for (i, b) in text.iter().enumerate() {
        if !is_tag_byte(*b) {
            return Ok(text.split_at(i));
        }
    }
    Err(Stop::Short)
}

/// Bytes that need no quotes, up to the first other byte.
#[tactic(auto, using(crate::proofs::Many::read_none, crate::proofs::Many::read_more, crate::proofs::Many::read_stops, crate::proofs::Many::read_all))]
pub fn astring_bytes(text: &[u8]) -> Result<(&[u8], &[u8]), Stop>
    ensures { Gives (λ x. x.0.now) (λ x. x.1.now) result (many is_astring_byte text.now) }
{
    for (i, b) in text.iter().enumerate() {
        if !is_astring_byte(*b) {
            return Ok(text.split_at(i));
        }
    }
    Err(Stop::Short)
}

/// Letters, up to the first other byte.
#[tactic(auto, using(crate::proofs::Many::read_none, crate::proofs::Many::read_more, crate::proofs::Many::read_stops, crate::proofs::Many::read_all))]
pub fn letters(text: &[u8]) -> Result<(&[u8], &[u8]), Stop>
    ensures { Gives (λ x. x.0.now) (λ x. x.1.now) result (many is_letter text.now) }
{
    for (i, b) in text.iter().enumerate() {
        if !b.is_ascii_alphabetic() {
            return Ok(text.split_at(i));
        }
    }
    Err(Stop::Short)
}
