// How names are printed: as they are, quoted, or as a literal.
ghost use Rattle.std.specs.Prelude.{◌≡◌, ◌++◌, OnOk};
ghost use Rattle.std.specs.List.{flat_map, list_all};
ghost use Rattle.imap_grammar.specs.Bytes.{is_astring_byte};
ghost use Rattle.imap_grammar.specs.Printing.{escaped, is_plain, is_printable_text, printed};

use crate::astring::is_escaped;
use crate::readers::is_astring_byte;
use itoa::Buffer;
use quota_units::is_printable;
use std::alloc::AllocError;

/// Whether there is a byte, and no byte needs quotes.
fn is_plain(bytes: &[u8]) -> bool
    ensures { result ≡ is_plain bytes.now }
{
    !bytes.is_empty() && may_stand(bytes)
}

/// Whether no byte needs quotes.
fn may_stand(bytes: &[u8]) -> bool
    ensures { result ≡ list_all is_astring_byte bytes.now }
{
    bytes.iter().all(|b| is_astring_byte(*b))
}

/// Whether all bytes are printing ASCII or spaces.
fn is_printable_text(bytes: &[u8]) -> bool
    ensures { result ≡ is_printable_text bytes.now }
{
    bytes.iter().all(|b| is_printable(*b))
}

/// Appends a byte, with a `\` before it if it is `"` or `\`.
fn push_escaped_byte(out: &mut Vec<u8>, byte: u8) -> Result<(), AllocError>
    ensures { OnOk result (out.new.items ≡ out.old.items ++ escaped byte) }
{
    if is_escaped(byte) {
        out.push(b'\\')?;
    }
    out.push(byte)?;
    Ok(())
}

/// Appends the bytes, with a `\` before each `"` and each `\`.
#[tactic(auto, using(crate::proofs::Escaping::escaped_none, crate::proofs::Escaping::escaped_more, crate::proofs::Escaping::escaped_all))]
fn push_escaped(out: &mut Vec<u8>, bytes: &[u8]) -> Result<(), AllocError>
    ensures { OnOk result (out.new.items ≡ out.old.items ++ flat_map escaped bytes.now) }
{
    for (i, b) in bytes.iter().enumerate() {
        push_escaped_byte(out, *b)?;
    }
    Ok(())
}

/// Appends a name of a quota root or a mailbox as a client reads it (RFC 9051, section 9: astring):
/// as it is if it has a byte and no byte needs quotes, quoted if all its bytes are printing ASCII
/// and spaces, and else as a literal.
///
/// # Errors
///
/// Memory ran out. Some of the text may have been appended.
pub fn push_astring(out: &mut Vec<u8>, bytes: &[u8]) -> Result<(), AllocError>
    ensures { OnOk result (out.new.items ≡ out.old.items ++ printed bytes.now) }
{
    if is_plain(bytes) {
        return out.extend_from_slice(bytes);
    }
    if is_printable_text(bytes) {
        out.push(b'"')?;
        push_escaped(out, bytes)?;
        out.push(b'"')?;
        return Ok(());
    }
    out.push(b'{')?;
    out.extend_from_slice(Buffer::new().format(bytes.len()).as_bytes())?;
    out.extend_from_slice(b"}\r\n")?;
    out.extend_from_slice(bytes)
}
