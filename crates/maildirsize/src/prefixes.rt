ghost use Rattle.std.specs.Prelude.{◌≡◌, ◌==◌, ◌∷◌, min, false, MatchOption};
ghost use Rattle.std.specs.List.{take_while};
ghost use Rattle.std.specs.Char.{is_ascii_digit};
ghost use Rattle.std.specs.Str.Parse.{digits_value};
ghost use Rattle.maildirsize.specs.Prefixes.{skip_while, begins_with};

/// The number that leading digits stand for is cut here, above each limit and each integer of a
/// ledger.
pub(crate) const CUT: u64 = 1000000000000000000;

/// The number that the leading digits of the bytes stand for, cut at 10^18, and the bytes after
/// those digits.
#[tactic(auto, using(crate::proofs::DigitSteps::digit_step))]
pub(crate) fn leading_digits(bytes: &[u8]) -> (u64, &[u8])
    ensures number { result.0 ≡ min (digits_value 10 (take_while is_ascii_digit bytes.now)) CUT }
    ensures rest { result.1.now ≡ skip_while is_ascii_digit bytes.now }
{
    let mut number = 0u64;
    for (i, b) in bytes.iter().enumerate() {
        if !b.is_ascii_digit() {
            return (number, &bytes[i..]);
        }
        number = (number * 10 + u64::from(*b - b'0')).min(CUT);
    }
    (number, &bytes[bytes.len()..])
}

/// The bytes after a leading `byte`; `None` if `bytes` does not begin with it.
pub(crate) fn after_byte(bytes: &[u8], byte: u8) -> Option<&[u8]>
    ensures { MatchOption result (begins_with (λ b. b == byte) bytes.now ≡ false)
        (λ rest. bytes.now ≡ byte ∷ rest.now) }
{
    match bytes {
        [first, rest @ ..] if *first == byte => Some(rest),
        _ => None,
    }
}
