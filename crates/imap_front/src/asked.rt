// The limits that SETQUOTA asks for.
ghost use Rattle.std.specs.Prelude.{◌≡◌, length, filter};
ghost use Rattle.imap_front.specs.AskedLimits.{is_for, number_for, repeats, has_unknown, has_repeats, limits_set, limits_asked, refusal_words};

use imap_grammar::AskedLimit;
use quota_units::{Limits, Resource, limit_of_count, limit_of_units};

/// Why the limits that SETQUOTA asks for are not set.
#[derive(Clone, Copy, Debug, PartialEq, Eq)]
pub enum Refusal {
    /// A limit is for a resource that this service does not have.
    Unknown,
    /// Two limits are for the same resource.
    Repeated,
    /// A number is 0 or above 8796093022207.
    Unsupported,
}

impl Refusal {
    /// The words, after the command's tag, with which a session refuses.
    pub fn words(self) -> &'static [u8]
        ensures { result.now ≡ refusal_words self }
    {
        match self {
            Refusal::Unknown => b"NO Resource not supported",
            Refusal::Repeated => b"NO Resource repeated",
            Refusal::Unsupported => b"NO Limit not supported",
        }
    }
}

/// Whether this limit is for this resource.
fn is_for(resource: Resource, asked: &AskedLimit) -> bool
    ensures { result ≡ is_for resource asked.now }
{
    match (resource, asked.resource) {
        (Resource::Storage, Some(Resource::Storage)) => true,
        (Resource::Message, Some(Resource::Message)) => true,
        _ => false,
    }
}

/// The first number that is asked for a resource.
fn number_for(resource: Resource, asked: &[AskedLimit]) -> Option<u64>
    ensures { result ≡ number_for resource asked.now }
{
    asked
        .iter()
        .find(|limit| is_for(resource, limit))
        .map(|limit| limit.limit)
}

/// Whether this resource occurs twice.
#[tactic(auto, using(crate::proofs::Repeats::counted_more, crate::proofs::Repeats::counted_same, crate::proofs::Repeats::counted_all))]
fn repeats(resource: Resource, asked: &[AskedLimit]) -> bool
    ensures { result ≡ repeats resource asked.now }
{
    let mut count = 0usize;
    for limit in asked {
        if is_for(resource, limit) {
            count += 1;
        }
    }
    count > 1
}

/// Limits of this many 1024-octet units of storage and this many messages, each if it is given.
fn limits_set(units: Option<u64>, messages: Option<u64>) -> Result<Limits, Refusal>
    ensures { result ≡ limits_set units messages }
{
    let octets = match units {
        None => None,
        Some(n) => match limit_of_units(n) {
            Ok(octets) => Some(octets),
            Err(_) => return Err(Refusal::Unsupported),
        },
    };
    let count = match messages {
        None => None,
        Some(n) => match limit_of_count(n) {
            Ok(count) => Some(count),
            Err(_) => return Err(Refusal::Unsupported),
        },
    };
    match Limits::new(octets, count) {
        Some(limits) => Ok(limits),
        None => unreachable!(),
    }
}

/// Whether a limit is asked for a resource that this service does not have.
fn has_unknown(asked: &[AskedLimit]) -> bool
    ensures { result ≡ has_unknown asked.now }
{
    asked.iter().any(|limit| limit.resource.is_none())
}

/// Whether a resource occurs twice.
fn has_repeats(asked: &[AskedLimit]) -> bool
    ensures { result ≡ has_repeats asked.now }
{
    repeats(Resource::Storage, asked) || repeats(Resource::Message, asked)
}

/// The limits that are asked for, and no other.
///
/// # Errors
///
/// The whole list is searched for each refusal in turn: `Unknown`, then `Repeated`, then
/// `Unsupported`.
pub fn limits_of(asked: &[AskedLimit]) -> Result<Limits, Refusal>
    ensures { result ≡ limits_asked asked.now }
{
    if has_unknown(asked) {
        return Err(Refusal::Unknown);
    }
    if has_repeats(asked) {
        return Err(Refusal::Repeated);
    }
    limits_set(
        number_for(Resource::Storage, asked),
        number_for(Resource::Message, asked),
    )
}
