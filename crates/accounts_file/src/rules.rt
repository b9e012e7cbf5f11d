ghost use Rattle.std.specs.Prelude.{◌≡◌, ◌<◌, ◌≤◌, length};
ghost use Rattle.std.specs.List.{list_all};
ghost use Rattle.accounts_file.specs.Rules.{fits, is_account_name, is_id_byte, is_prefix, is_right, is_secret, is_secret_byte, largest, spelling};

use crate::key::Key;
use quota_roots::{canonical_spelling, is_mailbox_name, is_root_name};
use quota_units::MAX_LIMIT;

/// Whether the key may have this text. No text may have more than 255 bytes.
pub(crate) fn fits(key: Key, text: &[u8]) -> bool
    ensures { result ≡ fits key text.now }
{
    text.len() <= 255 && is_right(key, spelling(key, text))
}

/// The text as it is kept: a mailbox name in canonical spelling, and any other text as it is.
pub(crate) fn spelling(key: Key, text: &[u8]) -> &[u8]
    ensures value { result.now ≡ spelling key text.now }
    ensures short { length text.now ≤ 255 → length result.now ≤ 255 }
{
    match key {
        Key::Mailboxes | Key::Prefix => canonical_spelling(text),
        _ => text,
    }
}

/// Whether the key may have this text, which is spelled as it is kept.
fn is_right(key: Key, text: &[u8]) -> bool
    ensures { result ≡ is_right key text.now }
{
    match key {
        Key::AccountName => is_account_name(text),
        Key::Password | Key::Token => is_secret(text),
        Key::Recipients => !text.is_empty(),
        Key::Mailboxes => is_mailbox_name(text),
        Key::RootName => is_root_name(text),
        Key::Prefix => is_prefix(text),
        _ => false,
    }
}

/// Whether this is a JMAP Id (RFC 8620, section 1.2) of 1 to 64 characters that does not begin with
/// `-`.
fn is_account_name(name: &[u8]) -> bool
    ensures { result ≡ is_account_name name.now }
{
    let short = 1 <= name.len() && name.len() <= 64;
    short && are_id_bytes(name) && !name.starts_with(b"-")
}

fn are_id_bytes(bytes: &[u8]) -> bool
    ensures { result ≡ list_all is_id_byte bytes.now }
{
    bytes.iter().all(|byte| is_id_byte(*byte))
}

fn is_id_byte(byte: u8) -> bool
    ensures { result ≡ is_id_byte byte }
{
    byte.is_ascii_alphanumeric() || byte == b'-' || byte == b'_'
}

/// Whether this is 1 to 64 bytes of printing ASCII without the space.
fn is_secret(secret: &[u8]) -> bool
    ensures { result ≡ is_secret secret.now }
{
    let short = 1 <= secret.len() && secret.len() <= 64;
    short && are_secret_bytes(secret)
}

fn are_secret_bytes(bytes: &[u8]) -> bool
    ensures { result ≡ list_all is_secret_byte bytes.now }
{
    bytes.iter().all(|byte| is_secret_byte(*byte))
}

fn is_secret_byte(byte: u8) -> bool
    ensures { result ≡ is_secret_byte byte }
{
    (0x21..=0x7E).contains(&byte)
}

/// Whether this is a mailbox name other than `Trash`.
fn is_prefix(prefix: &[u8]) -> bool
    ensures { result ≡ is_prefix prefix.now }
{
    is_mailbox_name(prefix) && prefix != b"Trash".as_slice()
}

/// The largest number that the key may have. Each key's numbers begin at 1.
pub(crate) fn largest(key: Key) -> u64
    ensures value { result ≡ largest key }
    ensures small { result < 8796093022208 }
{
    match key {
        Key::Workers => 16,
        Key::Journal => 524288,
        Key::Storage | Key::Messages => MAX_LIMIT,
        _ => 65535,
    }
}
