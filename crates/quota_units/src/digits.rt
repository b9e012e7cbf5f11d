ghost use Rattle.std.specs.Prelude.{◌≡◌, ◌<◌, ℕ, IfSome, IfNone};
ghost use Rattle.std.specs.Fmt.{decimal};
ghost use Rattle.quota_units.specs.Digits.{number_of};

/// The number that 1 to 19 decimal digits stand for; `None` for other bytes. A sign is no digit.
#[tactic(auto, using(crate::proofs::DigitLemmas::step, std::proofs::lemmas::List::take_all))]
pub fn number_in(bytes: &[u8]) -> Option<u64>
    ensures { result ≡ number_of bytes.now }
{
    if bytes.is_empty() || bytes.len() > 19 {
        return None;
    }
    let mut value = 0u64;
    for b in bytes {
        if !b.is_ascii_digit() {
            return None;
        }
        value = value * 10 + u64::from(*b - b'0');
    }
    Some(value)
}

/// The number that these bytes spell as a decimal numeral: no sign, no leading zero, at most 19
/// digits; `None` for other bytes.
#[tactic(auto, using(crate::proofs::DigitLemmas::numeral_is, crate::proofs::DigitLemmas::numeral_read))]
pub fn numeral_in(bytes: &[u8]) -> Option<u64>
    ensures some { IfSome result (λ n. bytes.now ≡ decimal n) }
    ensures none { IfNone result ((n : ℕ) → n < 10000000000000000000 → bytes.now ≡ decimal n → ⊥) }
{
    if bytes.len() > 1 && bytes[0] == b'0' {
        return None;
    }
    number_in(bytes)
}
