ghost use Rattle.std.specs.Prelude.{◌≡◌, ◌++◌, ◌↔◌, ℕ, true, false, not, IfOk, OnOk, codes};
ghost use Rattle.std.specs.List.{filter, list_any, list_all};
ghost use Rattle.quota_units.specs.Flagging.{is_flag_letter, has_flag, flag_letters, letters_of};
ghost use Rattle.message_names.specs.declared.writing.NameFault.TheVariants.{NoMemory};
ghost use Rattle.message_names.specs.Sizes.{cut_size};
ghost use Rattle.message_names.specs.Messages.{message_of};
ghost use Rattle.message_names.specs.Written.{is_base, is_base_byte, written_flags, written_name, renamed};
ghost use Rattle.message_names.specs.Laws.{IsRenamed};

use crate::cuts::{after_two, around_first};
use itoa::Buffer;
use quota_units::{Flags, NoMemory, is_flag_letter};
use std::alloc::{AllocError, Global};
use thiserror::Error;

/// Why no file name was written.
#[derive(Clone, Copy, Debug, PartialEq, Eq, Error)]
pub enum NameFault {
    /// The base is empty, begins with `.`, or holds `,`, `:`, `/`, byte 0 or byte 10.
    #[error("not a base of a file name")]
    BadBase,
    #[error("out of memory")]
    NoMemory,
}

impl From<AllocError> for NameFault {
    ghost from_gives = { λ _ e. e ≡ NoMemory };

    fn from(_: AllocError) -> Self {
        NameFault::NoMemory
    }
}

/// The letters that name flags, in alphabetical order.
const LETTERS: [u8; 6] = *b"DFPRST";

/// The file name of a message: `base,S=size`, and, if flags are set, `:2,` and their letters in
/// alphabetical order.
///
/// `size` is a number of octets. It is written in full, and cut at 1099511627775 when it is read
/// (Maildir++).
///
/// # Errors
///
/// `BadBase` if the base is empty, begins with `.`, or holds `,`, `:`, `/`, byte 0 or byte 10;
/// `NoMemory` if memory runs out.
pub fn print_name(alloc: Global, base: &[u8], size: u64, flags: Flags) -> Result<Vec<u8>, NameFault>
    ensures bad_base { (result ≡ Err NameFault.BadBase) ↔ (is_base base.now ≡ false) }
    ensures written { IfOk result (λ name. name.items ≡ written_name base.now size flags) }
    // Whatever the file's length, the name gives back this base, this size cut at 1099511627775,
    // and these flags.
    ensures reads_back { IfOk result (λ name. (length : ℕ) → message_of name.items length
        ≡ record { base = base.now; octets = cut_size size; flags = flags }) }
{
    if !is_base(base) {
        return Err(NameFault::BadBase);
    }
    let mut name = Vec::new(alloc);
    name.extend_from_slice(base)?;
    name.extend_from_slice(b",S=")?;
    name.extend_from_slice(Buffer::new().format(size).as_bytes())?;
    push_flags(&mut name, flags)?;
    Ok(name)
}

/// The file name with these flags in place of its own: the unique part, `:2,`, the letters in
/// alphabetical order, and then the bytes after the old `2,` that name no flag, in their order. No
/// other bytes of the info part are kept.
///
/// # Errors
///
/// `NoMemory` if memory runs out.
pub fn with_flags(alloc: Global, name: &[u8], flags: Flags) -> Result<Vec<u8>, NoMemory>
    ensures renamed { IfOk result (λ after. after.items ≡ renamed name.now flags) }
    // The new name has the same unique part, these flags, and the bytes after the old `2,` that
    // name no flag.
    ensures reads_back { IfOk result (λ after. IsRenamed name.now after.items flags) }
{
    let (unique, info) = around_first(b':', name);
    let mut after = Vec::new(alloc);
    after.extend_from_slice(unique)?;
    after.extend_from_slice(b":2,")?;
    push_letters(&mut after, flags)?;
    push_others(&mut after, after_two(info))?;
    Ok(after)
}

/// Whether the bytes are the base of a file name.
fn is_base(base: &[u8]) -> bool
    ensures { result ≡ is_base base.now }
{
    !matches!(base, [] | [b'.', ..]) && are_base_bytes(base)
}

/// Whether a base may hold each of the bytes.
fn are_base_bytes(bytes: &[u8]) -> bool
    ensures { result ≡ list_all is_base_byte bytes.now }
{
    bytes.iter().all(|byte| is_base_byte(*byte))
}

/// Whether a base may hold the byte.
fn is_base_byte(byte: u8) -> bool
    ensures { result ≡ is_base_byte byte }
{
    !matches!(byte, b',' | b':' | b'/' | 0 | b'\n')
}

/// Adds `:2,` and the letters if flags are set.
fn push_flags(name: &mut Vec<u8>, flags: Flags) -> Result<(), AllocError>
    ensures { OnOk result (name.new.items ≡ name.old.items ++ written_flags flags) }
{
    if is_any_set(flags) {
        name.extend_from_slice(b":2,")?;
        push_letters(name, flags)?;
    }
    Ok(())
}

/// Whether a flag is set.
fn is_any_set(flags: Flags) -> bool
    ensures { result ≡ list_any (has_flag flags) flag_letters }
{
    LETTERS.iter().any(|letter| flags.has(*letter))
}

/// Adds the letters of the flags that are set, in alphabetical order.
fn push_letters(name: &mut Vec<u8>, flags: Flags) -> Result<(), AllocError>
    ensures { OnOk result (name.new.items ≡ name.old.items ++ letters_of flags) }
{
    for letter in LETTERS {
        if flags.has(letter) {
            name.push(letter)?;
        }
    }
    Ok(())
}

/// Adds the bytes that name no flag, in their order.
fn push_others(name: &mut Vec<u8>, bytes: &[u8]) -> Result<(), AllocError>
    ensures { OnOk result
        (name.new.items ≡ name.old.items ++ filter (λ b. not (is_flag_letter b)) bytes.now) }
{
    for byte in bytes {
        if !is_flag_letter(*byte) {
            name.push(*byte)?;
        }
    }
    Ok(())
}
