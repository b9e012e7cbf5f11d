ghost use Rattle.std.specs.Prelude.{◌≡◌, ◌*◌, ◌<◌, ◌≤◌, ◌↔◌, IsTrue, IfOk, IsOk, IfSome, IsSome, IsErrOf};
ghost use Rattle.quota_units.specs.Limiting.{IsLimit, AreLimits};

use std::marker::Model;
use thiserror::Error;

/// The most storage units or messages that a limit can be set to.
pub const MAX_LIMIT: u64 = 8796093022207;

/// The largest limit, in octets or in messages: 2^53 - 1, the largest whole number of JMAP (RFC
/// 8620, section 1.3).
pub const LARGEST_LIMIT: u64 = 9007199254740991;

/// Why a number can't be set as a limit.
#[derive(Clone, Copy, Debug, PartialEq, Eq, Error)]
pub enum LimitError {
    /// The number is 0, which means no limit in a ledger.
    #[error("a limit is at least 1")]
    Zero,
    /// The number is above 8796093022207.
    #[error("a limit is at most 8796093022207, not {0}")]
    TooLarge(u64),
}

/// The limits of a quota root: octets and messages, each from 1 to 9007199254740991 if it is set.
#[derive(Clone, Copy, Debug, PartialEq, Eq)]
pub struct Limits {
    octets: Option<u64>,
    count: Option<u64>,
}

impl Model for Limits {
    ghost use Rattle.quota_units.specs.Limiting.{LimitNumbers, AreLimits};

    ghost Value = { LimitNumbers };

    ghost view = { λ l. record { octets = l.octets; count = l.count } };

    ghost invariant = { λ l. AreLimits (record { octets = l.octets; count = l.count }) };

    ghost inverse = { λ l. record { octets = l.octets; count = l.count } };
}

impl Limits {
    /// Limits of `octets` octets and `count` messages; `None` if a number that is set is out of
    /// range.
    pub fn new(octets: Option<u64>, count: Option<u64>) -> Option<Limits>
        ensures some { IsSome result ↔ AreLimits (record { octets = octets; count = count }) }
        ensures value { IfSome result
            (λ limits. limits ≡ record { octets = octets; count = count }) }
    {
        if in_range(octets) && in_range(count) {
            Some(Limits { octets, count })
        } else {
            None
        }
    }

    /// The most octets, if they are limited.
    pub fn octets(&self) -> Option<u64>
        ensures value { result ≡ self.now.octets }
        ensures range { IfSome result IsLimit }
    {
        self.octets
    }

    /// The most messages, if they are limited.
    pub fn count(&self) -> Option<u64>
        ensures value { result ≡ self.now.count }
        ensures range { IfSome result IsLimit }
    {
        self.count
    }
}

fn in_range(limit: Option<u64>) -> bool
    ensures { IsTrue result ↔ IfSome limit IsLimit }
{
    match limit {
        None => true,
        Some(n) => 1 <= n && n <= LARGEST_LIMIT,
    }
}

/// The octets of a limit of `n` storage units, each of 1024 octets.
///
/// # Errors
///
/// `Zero` if `n` is 0, and `TooLarge` if it is above 8796093022207.
pub fn limit_of_units(n: u64) -> Result<u64, LimitError>
    ensures ok { IsOk result ↔ ((1 ≤ n) × (n ≤ MAX_LIMIT)) }
    ensures value { IfOk result (λ octets. octets ≡ 1024 * n) }
    ensures zero { IsErrOf result LimitError.Zero ↔ (n ≡ 0) }
    ensures too_large { IsErrOf result (LimitError.TooLarge n) ↔ (MAX_LIMIT < n) }
{
    if n == 0 {
        return Err(LimitError::Zero);
    }
    if n > MAX_LIMIT {
        return Err(LimitError::TooLarge(n));
    }
    Ok(1024 * n)
}

/// A limit of `n` messages, from 1 to 8796093022207.
///
/// # Errors
///
/// `Zero` if `n` is 0, and `TooLarge` if it is above 8796093022207.
pub fn limit_of_count(n: u64) -> Result<u64, LimitError>
    ensures ok { IsOk result ↔ ((1 ≤ n) × (n ≤ MAX_LIMIT)) }
    ensures value { IfOk result (λ count. count ≡ n) }
    ensures zero { IsErrOf result LimitError.Zero ↔ (n ≡ 0) }
    ensures too_large { IsErrOf result (LimitError.TooLarge n) ↔ (MAX_LIMIT < n) }
{
    if n == 0 {
        return Err(LimitError::Zero);
    }
    if n > MAX_LIMIT {
        return Err(LimitError::TooLarge(n));
    }
    Ok(n)
}
