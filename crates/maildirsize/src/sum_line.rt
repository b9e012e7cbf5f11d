ghost use Rattle.std.specs.Prelude.{◌≡◌, ◌<◌, None, Some, IfSome, MatchOption, unsigned_abs};
ghost use Rattle.std.specs.List.{take_while};
ghost use Rattle.maildirsize.specs.Prefixes.{skip_while, begins_with};
ghost use Rattle.maildirsize.specs.SumLine.{is_space, is_in_word, magnitude_in, integer_in, sum_line_at};

use crate::prefixes::{CUT, after_byte, leading_digits};

/// The octets and the messages of the sum line that the bytes begin with, and the bytes after its
/// line feed; `None` if the first line is not a sum line or has no line feed.
pub(crate) fn leading_sum_line(bytes: &[u8]) -> Option<(i64, i64, &[u8])>
    ensures line { MatchOption result (sum_line_at bytes.now ≡ None)
        (λ r. sum_line_at bytes.now ≡ Some (record { octets = r.0; count = r.1 }, r.2.now)) }
    ensures octets { IfSome result (λ r. unsigned_abs r.0 < CUT) }
    ensures count { IfSome result (λ r. unsigned_abs r.1 < CUT) }
{
    let (octets, rest) = leading_integer(after_spaces(bytes))?;
    let (count, rest) = leading_integer(after_spaces(rest))?;
    let rest = after_byte(after_spaces(rest), b'\n')?;
    Some((octets, count, rest))
}

/// The bytes after the spaces that they begin with.
fn after_spaces(bytes: &[u8]) -> &[u8]
    ensures { result.now ≡ skip_while is_space bytes.now }
{
    let mut rest = bytes;
    while let [b' ', next @ ..] = rest {
        rest = next;
    }
    rest
}

/// The first word of the bytes as an integer, and the bytes after that word; `None` if the word is
/// not an integer.
fn leading_integer(bytes: &[u8]) -> Option<(i64, &[u8])>
    ensures integer { MatchOption result (integer_in (take_while is_in_word bytes.now) ≡ None)
        (λ r. (integer_in (take_while is_in_word bytes.now) ≡ Some r.0)
        × (r.1.now ≡ skip_while is_in_word bytes.now)) }
    ensures small { IfSome result (λ r. unsigned_abs r.0 < CUT) }
{
    match after_byte(bytes, b'-') {
        Some(digits) => {
            let (number, rest) = leading_magnitude(digits)?;
            Some((-(number as i64), rest))
        }
        None => {
            let (number, rest) = leading_magnitude(bytes)?;
            Some((number as i64, rest))
        }
    }
}

/// The first word of the bytes as a number of 1 to 18 digits, and the bytes after that word; `None`
/// if the word is not such a number.
fn leading_magnitude(bytes: &[u8]) -> Option<(u64, &[u8])>
    ensures number { MatchOption result (magnitude_in (take_while is_in_word bytes.now) ≡ None)
        (λ r. (magnitude_in (take_while is_in_word bytes.now) ≡ Some r.0)
        × (r.1.now ≡ skip_while is_in_word bytes.now)) }
    ensures small { IfSome result (λ r. r.0 < CUT) }
{
    let (number, rest) = leading_digits(bytes);
    let length = bytes.len() - rest.len();
    if length == 0 || length > 18 || is_within_word(rest) {
        return None;
    }
    Some((number, rest))
}

/// Whether the bytes begin with a byte of a word.
fn is_within_word(bytes: &[u8]) -> bool
    ensures { result ≡ begins_with is_in_word bytes.now }
{
    !matches!(bytes, [] | [b' ' | b'\n', ..])
}
