// Literals: a marker, and then as many octets as it says.
ghost use Rattle.std.specs.Prelude.{◌≡◌};
ghost use Rattle.imap_grammar.specs.Reading.{Gives};
ghost use Rattle.imap_grammar.specs.Literals.{marker, octets, literal};

use crate::number::count;
use crate::readers::{Stop, byte, line_end};

/// The marker of a literal, after its opening brace: the number of its octets, a closing brace and
/// the line's end.
pub fn marker(text: &[u8]) -> Result<(u64, &[u8]), Stop>
    ensures { Gives (λ x. x.0) (λ x. x.1.now) result (marker text.now) }
{
    let (octets, rest) = count(text)?;
    let ((), rest) = byte(rest, b'}')?;
    let ((), rest) = line_end(rest)?;
    Ok((octets, rest))
}

/// This many octets.
fn octets(text: &[u8], count: usize) -> Result<(&[u8], &[u8]), Stop>
    ensures { Gives (λ x. x.0.now) (λ x. x.1.now) result (octets count text.now) }
{
    if text.is_empty() {
        return Err(Stop::Marked { count });
    }
    if text.len() < count {
        return Err(Stop::Short);
    }
    Ok(text.split_at(count))
}

/// A literal, after its opening brace.
pub fn literal(text: &[u8]) -> Result<(&[u8], &[u8]), Stop>
    ensures { Gives (λ x. x.0.now) (λ x. x.1.now) result (literal text.now) }
{
    let (count, rest) = marker(text)?;
    octets(rest, count as usize)
}
