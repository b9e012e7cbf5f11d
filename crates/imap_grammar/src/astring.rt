// The names of quota roots and mailboxes in commands.
ghost use Rattle.std.specs.Prelude.{◌≡◌, ◌<◌, ◌↔◌, length, false, IfOk, IfErr};
ghost use Rattle.imap_grammar.specs.Bytes.{is_quotable, is_escaped};
ghost use Rattle.imap_grammar.specs.Reading.{Gives};
ghost use Rattle.imap_grammar.specs.Astrings.{plain, inside, unquoted, astring};

use crate::literal::literal;
use crate::readers::{Stop, astring_bytes, is_astring_byte};
use quota_units::{Name, NameError};
use std::alloc::Global;
use std::marker::Model;

/// A name of any length, as a command gives it (RFC 9051, section 9: astring).
#[derive(Debug, Drop)]
pub struct Astring {
    bytes: Vec<u8>,
}

impl Model for Astring {
    ghost use Rattle.std.specs.Prelude.{ℕ, List};

    ghost Value = { List ℕ };

    ghost view = { λ a. a.bytes.items };
}

impl Astring {
    /// The bytes of the name, without quotes and escapes.
    pub fn as_slice(&self) -> &[u8]
        ensures { result.now ≡ self.now }
    {
        self.bytes.as_slice()
    }

    /// The same bytes as a `Name`. This allocates no memory.
    ///
    /// # Errors
    ///
    /// `TooLong` if there are more than 255 bytes. There is no other error.
    pub fn into_name(self) -> Result<Name, NameError>
        ensures ok { IfOk result (λ name. name ≡ self) }
        ensures too_long { (result ≡ Err (NameError.TooLong (length self))) ↔ (255 < length self) }
        ensures only { IfErr result (λ e. e ≡ NameError.TooLong (length self)) }
    {
        Name::from_vec(self.bytes)
    }
}

/// Whether a byte needs a `\` before it between quotes: `"` and `\` do.
pub fn is_escaped(byte: u8) -> bool
    ensures { result ≡ is_escaped byte }
{
    byte == b'"' || byte == b'\\'
}

/// Whether a byte may occur between quotes: every byte but NUL, LF and CR.
pub fn is_quotable(byte: u8) -> bool
    ensures { result ≡ is_quotable byte }
{
    !(byte == 0 || (byte == b'\n' || byte == b'\r'))
}

/// One or more bytes that need no quotes.
pub fn plain(text: &[u8]) -> Result<(&[u8], &[u8]), Stop>
    ensures { Gives (λ x. x.0.now) (λ x. x.1.now) result (plain text.now) }
{
    match text {
        [] => Err(Stop::Short),
        [first, ..] if is_astring_byte(*first) => astring_bytes(text),
        _ => Err(Stop::Wrong { left: text.len() }),
    }
}

/// The name up to the closing quote. Each byte is as it is, or comes after a `\`.
fn inside(alloc: Global, text: &[u8]) -> Result<(Astring, &[u8]), Stop>
    ensures { Gives (λ x. x.0) (λ x. x.1.now) result (inside false text.now) }
{
    let mut bytes = Vec::new(alloc);
    let mut after_backslash = false;
    for (i, b) in text.iter().enumerate() {
        if after_backslash {
            if !is_escaped(*b) {
                return Err(Stop::Wrong {
                    left: text.len() - i,
                });
            }
            bytes.push(*b)?;
            after_backslash = false;
        } else if *b == b'"' {
            return Ok((Astring { bytes }, &text[i + 1..]));
        } else if *b == b'\\' {
            after_backslash = true;
        } else if is_quotable(*b) {
            bytes.push(*b)?;
        } else {
            return Err(Stop::Wrong {
                left: text.len() - i,
            });
        }
    }
    Err(Stop::Short)
}

/// A name without quotes: a literal, or plain.
fn unquoted(text: &[u8]) -> Result<(&[u8], &[u8]), Stop>
    ensures { Gives (λ x. x.0.now) (λ x. x.1.now) result (unquoted text.now) }
{
    if let [b'{', rest @ ..] = text {
        return literal(rest);
    }
    plain(text)
}

/// A name: between quotes, as a literal, or plain.
pub fn name(alloc: Global, text: &[u8]) -> Result<(Astring, &[u8]), Stop>
    ensures { Gives (λ x. x.0) (λ x. x.1.now) result (astring text.now) }
{
    if let [b'"', rest @ ..] = text {
        return inside(alloc, rest);
    }
    let (bytes, rest) = unquoted(text)?;
    let bytes = bytes.to_vec(alloc)?;
    Ok((Astring { bytes }, rest))
}
