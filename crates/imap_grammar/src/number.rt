// Decimal numbers.
ghost use Rattle.std.specs.Prelude.{◌≡◌, ◌+◌, ◌*◌, ◌-◌, ◌≤◌, IsSome, IfSome, IsTrue, ◌↔◌};
ghost use Rattle.imap_grammar.specs.Reading.{Gives};
ghost use Rattle.imap_grammar.specs.Numbers.{max_number, takes_digit, number_within, number, count};

use crate::readers::Stop;

/// The largest number: 2 to the power of 63, less 1.
const MAX_NUMBER: u64 = 9223372036854775807;

/// The largest number of ten digits.
const MAX_COUNT: u64 = 9999999999;

/// The number with one more digit, after the `come` digits that make `value`; `None` if no digit
/// may follow, or if the byte is not a digit. A number has at most `most` digits, and is at most
/// `largest`.
fn with_digit(most: usize, largest: u64, come: usize, value: u64, byte: u8) -> Option<u64>
    requires { largest ≤ max_number }

    ensures some { IsSome result ↔ IsTrue (takes_digit most largest come value byte) }
    ensures value { IfSome result (λ more. more ≡ value * 10 + (byte - 48)) }
    ensures bounded { IfSome result (λ more. more ≤ largest) }
{
    if !byte.is_ascii_digit() || come >= most || value > largest / 10 {
        return None;
    }
    let more = value * 10 + u64::from(byte - b'0');
    if more > largest { None } else { Some(more) }
}

/// A number of 1 to `most` digits, at most `largest`.
fn number_within(text: &[u8], most: usize, largest: u64) -> Result<(u64, &[u8]), Stop>
    requires { largest ≤ max_number }

    ensures { Gives (λ x. x.0) (λ x. x.1.now) result (number_within most largest text.now) }
{
    let mut value = 0;
    for (i, b) in text.iter().enumerate() {
        match with_digit(most, largest, i, value, *b) {
            Some(more) => value = more,
            None if i == 0 => return Err(Stop::Wrong { left: text.len() }),
            None => return Ok((value, &text[i..])),
        }
    }
    Err(Stop::Short)
}

/// A number: 1 to 19 digits, at most 9223372036854775807.
pub fn number(text: &[u8]) -> Result<(u64, &[u8]), Stop>
    ensures { Gives (λ x. x.0) (λ x. x.1.now) result (number text.now) }
{
    number_within(text, 19, MAX_NUMBER)
}

/// The number of octets of a literal: 1 to 10 digits.
pub fn count(text: &[u8]) -> Result<(u64, &[u8]), Stop>
    ensures { Gives (λ x. x.0) (λ x. x.1.now) result (count text.now) }
{
    number_within(text, 10, MAX_COUNT)
}
