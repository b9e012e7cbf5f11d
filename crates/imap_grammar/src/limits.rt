// The limits that SETQUOTA asks for.
ghost use Rattle.std.specs.Prelude.{◌≡◌, ◌++◌, [], ◌∷◌, OnOk, OnErr};
ghost use Rattle.imap_grammar.specs.Reading.{Gives};
ghost use Rattle.imap_grammar.specs.Lists.{next_item, some_items};
ghost use Rattle.imap_grammar.specs.LimitLists.{asked_limit, limits_closed};

use crate::astring::plain;
use crate::number::number;
use crate::readers::{Stop, byte};
use quota_units::{Resource, resource_named};
use std::alloc::{AllocError, Global};
use std::marker::Model;

/// A limit that SETQUOTA asks for (RFC 9208, on SETQUOTA).
#[derive(Clone, Copy, Debug, PartialEq, Eq)]
pub struct AskedLimit {
    /// The resource of the given name; `None` if this service has no such resource.
    pub resource: Option<Resource>,
    /// Units of 1024 octets, or messages: at most 9223372036854775807.
    pub limit: u64,
}

/// The limits that SETQUOTA asks for, in their order.
#[derive(Debug, Drop)]
pub struct AskedLimits {
    limits: Vec<AskedLimit>,
}

impl Model for AskedLimits {
    ghost use Rattle.std.specs.Prelude.{List};
    ghost use Rattle.imap_grammar.specs.declared.limits.AskedLimit.{AskedLimit};

    ghost Value = { List AskedLimit };

    ghost view = { λ a. a.limits.items };
}

impl AskedLimits {
    /// The limits.
    pub fn as_slice(&self) -> &[AskedLimit]
        ensures { result.now ≡ self.now }
    {
        self.limits.as_slice()
    }

    fn new(alloc: Global) -> AskedLimits
        ensures { result ≡ [] }
    {
        AskedLimits {
            limits: Vec::new(alloc),
        }
    }

    fn push(&mut self, limit: AskedLimit) -> Result<(), AllocError>
        ensures ok { OnOk result (self.new ≡ self.old ++ limit ∷ []) }
        ensures err { OnErr result (self.new ≡ self.old) }
    {
        Ok(self.limits.push(limit)?)
    }
}

/// A resource's name, a space and a number.
fn asked_limit(text: &[u8]) -> Result<(AskedLimit, &[u8]), Stop>
    ensures { Gives (λ x. x.0) (λ x. x.1.now) result (asked_limit text.now) }
{
    let (name, rest) = plain(text)?;
    let ((), rest) = byte(rest, b' ')?;
    let (limit, rest) = number(rest)?;
    let resource = resource_named(name);
    Ok((AskedLimit { resource, limit }, rest))
}

/// A space and a limit, or the closing parenthesis.
fn next_limit(text: &[u8]) -> Result<(Option<AskedLimit>, &[u8]), Stop>
    ensures { Gives (λ x. x.0) (λ x. x.1.now) result (next_item asked_limit text.now) }
{
    match text {
        [] => Err(Stop::Short),
        [b')', rest @ ..] => Ok((None, rest)),
        [b' ', rest @ ..] => {
            let (limit, rest) = asked_limit(rest)?;
            Ok((Some(limit), rest))
        }
        _ => Err(Stop::Wrong { left: text.len() }),
    }
}

/// One limit or more, separated by spaces, and the closing parenthesis.
fn some_limits(alloc: Global, text: &[u8]) -> Result<(AskedLimits, &[u8]), Stop>
    ensures { Gives (λ x. x.0) (λ x. x.1.now) result (some_items asked_limit text.now) }
{
    let mut limits = AskedLimits::new(alloc);
    let (first, mut rest) = asked_limit(text)?;
    limits.push(first)?;
    loop {
        let (next, more) = next_limit(rest)?;
        match next {
            Some(limit) => limits.push(limit)?,
            None => return Ok((limits, more)),
        }
        rest = more;
    }
}

/// Any number of limits, separated by spaces, and the closing parenthesis.
pub fn limits_closed(alloc: Global, text: &[u8]) -> Result<(AskedLimits, &[u8]), Stop>
    ensures { Gives (λ x. x.0) (λ x. x.1.now) result (limits_closed text.now) }
{
    if let [b')', rest @ ..] = text {
        return Ok((AskedLimits::new(alloc), rest));
    }
    some_limits(alloc, text)
}
