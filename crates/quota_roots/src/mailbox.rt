ghost use Rattle.std.specs.Prelude.{◌≡◌, ◌<◌, ◌≤◌, ◌↔◌, ◌⊎◌, length, IfOk, IfErr};
ghost use Rattle.quota_roots.specs.MailboxNames.{canonical, is_mailbox_byte, is_mailbox_name};

use quota_units::{Name, NameError, is_printable};
use std::alloc::Global;

/// The canonical spelling of a mailbox name: `INBOX` for `INBOX` in any ASCII case (RFC 9051,
/// section 5.1), and any other bytes as they are.
///
/// # Errors
///
/// `TooLong` if there are more than 255 bytes; `NoMemory` if memory runs out.
pub fn canonical_name(alloc: Global, bytes: &[u8]) -> Result<Name, NameError>
    ensures ok { IfOk result (λ name. name ≡ canonical bytes.now) }
    ensures too_long { (result ≡ Err (NameError.TooLong (length bytes.now)))
        ↔ (255 < length bytes.now) }
    ensures only { IfErr result (λ e. (e ≡ NameError.TooLong (length bytes.now))
        ⊎ (e ≡ NameError.NoMemory)) }
{
    Name::of(alloc, canonical_spelling(bytes))
}

/// The canonical spelling of a mailbox name of any length, as in `canonical_name`.
pub fn canonical_spelling(bytes: &[u8]) -> &[u8]
    ensures value { result.now ≡ canonical bytes.now }
    ensures length { (length result.now ≤ 255) ↔ (length bytes.now ≤ 255) }
{
    if bytes.eq_ignore_ascii_case(b"INBOX") {
        b"INBOX"
    } else {
        bytes
    }
}

/// Whether the bytes may name a mailbox: 1 to 200 bytes from 0x20 to 0x7E, none of them `/`, `*`,
/// `%`, `"` or `\`, with no `.` at the start, at the end or next to another `.`.
#[tactic(auto, using(crate::proofs::MailboxLemmas::reads_all, crate::proofs::MailboxLemmas::reads_more, crate::proofs::MailboxLemmas::reads_end))]
pub fn is_mailbox_name(bytes: &[u8]) -> bool
    ensures { result ≡ is_mailbox_name bytes.now }
{
    if bytes.len() > 200 {
        return false;
    }
    // Neither a dot nor the end may come at the start or after a dot.
    let mut at_edge = true;
    for byte in bytes {
        let dot = *byte == b'.';
        if !is_mailbox_byte(*byte) || (dot && at_edge) {
            return false;
        }
        at_edge = dot;
    }
    !at_edge
}

fn is_mailbox_byte(byte: u8) -> bool
    ensures { result ≡ is_mailbox_byte byte }
{
    is_printable(byte) && !matches!(byte, b'/' | b'*' | b'%' | b'"' | b'\\')
}
