ghost use Rattle.std.specs.Prelude.{◌≡◌, ◌<◌, ◌≤◌, List, length, IfOk, IsOkAnd, if◌then◌else◌};
ghost use Rattle.std.specs.Option.{option_or};
ghost use Rattle.std.specs.Result.{result_err};
ghost use Rattle.std.specs.List.{list_any};
ghost use Rattle.quota_units.specs.Limiting.{LimitNumbers};
ghost use Rattle.maildirsize.specs.Lines.{is_line_feed, lines_in, rest_in};
ghost use Rattle.maildirsize.specs.SumLine.{pairs_in};
ghost use Rattle.maildirsize.specs.Sums.{Pair};
ghost use Rattle.maildirsize.specs.Reading.{Reads, SumsUp, summary, fault_of, line_fault, rest_fault};

use crate::definition::{leading_definition, limits_from};
use crate::prefixes::after_byte;
use crate::sum_line::leading_sum_line;
use quota_units::Limits;
use thiserror::Error;

/// A ledger of this many bytes or more is not read.
const FULL: usize = 5120;

/// What a ledger says.
#[derive(Clone, Copy, Debug, PartialEq, Eq)]
pub struct LedgerText {
    /// The limits that its definition sets.
    pub limits: Limits,
    /// How many sum lines it has.
    pub lines: u32,
    /// The sum of the octets of its sum lines.
    pub octets: i128,
    /// The sum of the messages of its sum lines.
    pub count: i128,
}

/// Why bytes are not a ledger. Faults are looked for in this order.
#[derive(Clone, Copy, Debug, PartialEq, Eq, Error)]
pub enum LedgerFault {
    /// There are 5120 bytes or more.
    #[error("a ledger has fewer than 5120 bytes, not {length}")]
    TooLong { length: usize },
    /// The first line is not a definition: its first wrong member begins at this offset.
    #[error("not a member of a definition at {at}")]
    BadDefinition { at: usize },
    /// The first line that is not a sum line. The definition is line 1.
    #[error("line {line} is not a sum line")]
    BadLine { line: u32 },
    /// The text is empty, or its last line has no line feed. The last line begins at this offset.
    #[error("the line at {at} has no line feed")]
    Torn { at: usize },
}

/// Reads a ledger (Maildir++): a definition line and sum lines, each ended by a line feed. This
/// allocates no memory.
///
/// A sum line has two integers of at most 18 digits: octets, one or more spaces, and messages.
/// There may be spaces before and after them.
///
/// # Errors
///
/// The text's first fault, in the order of `LedgerFault`. A text that is not too long and has no
/// line feed is `Torn` at 0, whatever it holds.
pub fn read_ledger(bytes: &[u8]) -> Result<LedgerText, LedgerFault>
    // A text that is read is a ledger, and the result has its limits, its number of sum lines and
    // their sums.
    ensures readable { IfOk result (SumsUp bytes.now) }
    // Every ledger is read, and the result sums up its limits and pairs.
    ensures only { (limits : LimitNumbers) (pairs : List Pair) → Reads bytes.now limits pairs
        → IsOkAnd result (λ ledger. ledger ≡ summary limits pairs) }
    // A text is refused exactly if it has a fault, and the error is its first fault.
    ensures fault { result_err result ≡ fault_of bytes.now }
{
    if bytes.len() >= FULL {
        return Err(LedgerFault::TooLong {
            length: bytes.len(),
        });
    }
    match leading_definition(bytes) {
        Ok((octets, count, rest)) => match after_byte(rest, b'\n') {
            Some(sums) => read_summed(limits_from(octets, count), bytes.len(), sums),
            None => Err(LedgerFault::Torn { at: 0 }),
        },
        Err(at) => Err(definition_fault(bytes, at)),
    }
}

/// The ledger of these limits and of the sum lines in `bytes`, which come after the definition line
/// of a text of `text_length` bytes.
///
/// # Errors
///
/// The fault of the first line that is not a sum line or has no line feed.
fn read_summed(limits: Limits, text_length: usize, bytes: &[u8]) -> Result<LedgerText, LedgerFault>
    requires within { length bytes.now ≤ text_length }
    requires short { text_length < FULL }
    ensures fault { result_err result
        ≡ option_or (line_fault (lines_in bytes.now)) (rest_fault text_length (rest_in bytes.now)) }
    ensures ledger { IfOk result
        (λ ledger. ledger ≡ summary limits (pairs_in (lines_in bytes.now))) }
{
    let mut lines = 0;
    let mut octets = 0;
    let mut count = 0;
    let mut rest = bytes;
    while !rest.is_empty() {
        let Some((more_octets, more_count, next)) = leading_sum_line(rest) else {
            return Err(sum_line_fault(rest, lines + 2, text_length - rest.len()));
        };
        lines += 1;
        octets += i128::from(more_octets);
        count += i128::from(more_count);
        rest = next;
    }
    Ok(LedgerText {
        limits,
        lines,
        octets,
        count,
    })
}

/// The fault of a text whose definition has a wrong member at this offset.
fn definition_fault(bytes: &[u8], at: usize) -> LedgerFault
    ensures { result ≡ (if list_any is_line_feed bytes.now then LedgerFault.BadDefinition at
        else LedgerFault.Torn 0) }
{
    if bytes.contains(&b'\n') {
        LedgerFault::BadDefinition { at }
    } else {
        LedgerFault::Torn { at: 0 }
    }
}

/// The fault of a line that is not a sum line with its line feed: `BadLine` with its number, or
/// `Torn` with the offset at which it begins if no line feed follows.
fn sum_line_fault(bytes: &[u8], line: u32, at: usize) -> LedgerFault
    ensures { result ≡ (if list_any is_line_feed bytes.now then LedgerFault.BadLine line
        else LedgerFault.Torn at) }
{
    if bytes.contains(&b'\n') {
        LedgerFault::BadLine { line }
    } else {
        LedgerFault::Torn { at }
    }
}
