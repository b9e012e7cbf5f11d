ghost use Rattle.std.specs.Prelude.{◌≡◌, ◌∷◌};
ghost use Rattle.message_names.specs.Sizes.{size_in_digits, size_named, size_or};
ghost use Rattle.message_names.specs.Fields.{size_in_field};

use crate::cuts::around_first;
use crate::parts::NameParts;

/// What a size is cut at: 2^40 - 1 octets.
const LARGEST_SIZE: u64 = 1099511627775;

/// The octets of a message whose file has this name and `length` bytes: the size that the name
/// states, or else `length`, each cut at 1099511627775.
pub fn size_of(parts: &NameParts<'_>, length: u64) -> u64
    ensures { result ≡ size_or parts.now.size length }
{
    parts.size.unwrap_or(length).min(LARGEST_SIZE)
}

/// The size that the first field of the form `S=` and digits states, among fields with commas
/// between them.
pub(crate) fn size_in_fields(fields: &[u8]) -> Option<u64>
    ensures { result ≡ size_named (44 ∷ fields.now) }
{
    let mut rest = fields;
    while !rest.is_empty() {
        let (field, after) = around_first(b',', rest);
        let size = size_in_field(field);
        if size.is_some() {
            return size;
        }
        rest = after;
    }
    None
}

/// The size that a field states: `S=` and one or more digits; `None` for every other field.
fn size_in_field(field: &[u8]) -> Option<u64>
    ensures { result ≡ size_in_field field.now }
{
    match field {
        [b'S', b'=', digits @ ..] => size_in_digits(digits),
        _ => None,
    }
}

/// The size that one or more digits stand for, cut; `None` for other bytes.
#[tactic(auto, using(crate::proofs::DigitSteps::digit_step))]
fn size_in_digits(digits: &[u8]) -> Option<u64>
    ensures { result ≡ size_in_digits digits.now }
{
    if digits.is_empty() {
        return None;
    }
    let mut size = 0u64;
    for b in digits {
        if !b.is_ascii_digit() {
            return None;
        }
        size = (size * 10 + u64::from(*b - b'0')).min(LARGEST_SIZE);
    }
    Some(size)
}
