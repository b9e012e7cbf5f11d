// The words of a line.
use crate::trouble::Trouble;
use quota_units::{Limits, Name, number_in};
use std::alloc::Global;

/// The most bytes of a ledger that are shown whole, and how many are shown of each end of a longer
/// one.
const LONG: usize = 100;

const SHOWN: usize = 24;

/// The words of a line, which have one space between each two.
pub fn words_of(alloc: Global, line: &[u8]) -> Result<Vec<&[u8]>, Trouble> {
    let mut words = Vec::new(alloc);
    for word in line.split(|b| *b == b' ') {
        words.push(word)?;
    }
    Ok(words)
}

pub fn text_of(alloc: Global, text: &str) -> Result<String, Trouble> {
    Ok(String::from_str(alloc, text)?)
}

/// The name that a word spells; `-` stands for the empty name.
pub fn name_of(alloc: Global, word: &[u8]) -> Result<Name, Trouble> {
    if word == b"-".as_slice() {
        Ok(Name::of(alloc, b"")?)
    } else {
        Ok(Name::of(alloc, word)?)
    }
}

/// The number that a word spells in decimal digits.
pub fn number_of(word: &[u8]) -> Result<u64, Trouble> {
    number_in(word).ok_or(Trouble::NoForm)
}

/// The number that a word spells, or none for `-`.
fn option_of(word: &[u8]) -> Result<Option<u64>, Trouble> {
    if word == b"-".as_slice() {
        return Ok(None);
    }
    Ok(Some(number_of(word)?))
}

/// The limits that two words spell, in octets and in messages; `-` stands for no limit.
pub fn limits_of(octets: &[u8], count: &[u8]) -> Result<Limits, Trouble> {
    Limits::new(option_of(octets)?, option_of(count)?).ok_or(Trouble::NoForm)
}

/// The bytes of a ledger that a word spells, with an LF for each `|` and a space for each `_`.
pub fn ledger_of(alloc: Global, word: &[u8]) -> Result<Vec<u8>, Trouble> {
    let mut bytes = word.to_vec(alloc)?;
    for byte in bytes.iter_mut() {
        *byte = match *byte {
            b'|' => b'\n',
            b'_' => b' ',
            other => other,
        };
    }
    Ok(bytes)
}

/// The bytes of a ledger on one line, with `|` for each LF. Of a long ledger only its length, its
/// first bytes and its last bytes are shown.
pub fn shown_ledger(alloc: Global, bytes: &[u8]) -> Result<String, Trouble> {
    if bytes.len() <= LONG {
        return shown_bytes(alloc, bytes);
    }
    let length = bytes.len();
    let first = shown_bytes(alloc, &bytes[..SHOWN])?;
    let last = shown_bytes(alloc, &bytes[length - SHOWN..])?;
    Ok(format!(in alloc; "{length} bytes, {first} .. {last}")?)
}

fn shown_bytes(alloc: Global, bytes: &[u8]) -> Result<String, Trouble> {
    let mut shown = bytes.to_vec(alloc)?;
    for byte in shown.iter_mut() {
        if *byte == b'\n' {
            *byte = b'|';
        }
    }
    match str::from_utf8(shown.as_slice()) {
        Ok(text) => text_of(alloc, text),
        Err(_) => text_of(alloc, "no text"),
    }
}
