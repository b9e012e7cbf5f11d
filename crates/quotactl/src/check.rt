// The command `check`, which says what a ledger holds.
ghost use Rattle.std.specs.Prelude.{◌≡◌, ◌≢◌, ◌++◌, codes, OnOk, IfOk, IfErr};
ghost use Rattle.quota_units.specs.Causes.{HasCause};
ghost use Rattle.maildirsize.specs.Reading.{SumsUp, fault_of};
ghost use Rattle.maildirsize.specs.Written.{written_definition};
ghost use Rattle.quotactl.specs.Lines.{said};
ghost use Rattle.quotactl.specs.Checking.{sums_text, values_text, fault_text, Reports, TakesLedger, TakesSome, ChecksLedger};

use crate::lines::{push_number, push_said};
use crate::status::{NO_MEMORY, WRITE_FAULT};
use maildirsize::{LedgerFault, LedgerText, Text, print_definition, read_ledger};
use quota_units::{Failed, Limits};
use std::alloc::{AllocError, Global};
use wire_io::{Feed, FeedEnd, Sink, Source, send};

/// The most bytes that are read of a ledger.
const MAX_CHECKED: usize = 65536;

/// Why a ledger's bytes were not read.
#[derive(Clone, Copy, Debug, PartialEq, Eq)]
enum Unread {
    /// The source failed.
    Fault,
    /// Memory ran out.
    NoMemory,
}

/// All bytes of the source, or its first `MAX_CHECKED` if it has more.
fn ledger_bytes<S: Source>(alloc: Global, source: &mut S) -> Result<Vec<u8>, Unread>
    ensures ok { IfOk result
        (λ bytes. TakesLedger (S.left source.old) (S.left source.new) bytes.items) }
    ensures err { IfErr result (λ e. TakesSome (S.left source.old) (S.left source.new)) }
    ensures read_cause { HasCause (result ≡ Err Unread.Fault)
        (S.faults source.old) (S.faults source.new) }
{
    let mut bytes = Vec::new(alloc);
    let Ok(mut feed) = Feed::new(source, MAX_CHECKED as u64) else {
        unreachable!()
    };
    match feed.exact(&mut bytes, MAX_CHECKED) {
        Ok(()) | Err(FeedEnd::Ended) => Ok(bytes),
        Err(FeedEnd::Fault) => Err(Unread::Fault),
        Err(FeedEnd::NoMemory) => Err(Unread::NoMemory),
        Err(FeedEnd::Limit) => unreachable!(),
    }
}

/// Appends the line of a ledger's definition, that is its limits as a ledger writes them.
fn push_definition(out: &mut Vec<u8>, limits: &Limits) -> Result<(), AllocError>
    ensures { OnOk result (out.new.items ≡ out.old.items
        ++ said (codes "definition ") (written_definition limits.now)) }
{
    let mut definition = Text::new();
    print_definition(limits, &mut definition);
    push_said(out, b"definition ", definition.as_slice())
}

/// The sum of a ledger's octets.
fn octets_of(ledger: &LedgerText) -> i128
    ensures { result ≡ ledger.now.octets }
{
    ledger.octets
}

/// The sum of a ledger's messages.
fn count_of(ledger: &LedgerText) -> i128
    ensures { result ≡ ledger.now.count }
{
    ledger.count
}

/// Appends the lines of a ledger's two sums.
fn push_sums(out: &mut Vec<u8>, ledger: &LedgerText) -> Result<(), AllocError>
    ensures { OnOk result
        (out.new.items ≡ out.old.items ++ sums_text ledger.now.octets ledger.now.count) }
{
    push_number(out, b"octets ", octets_of(ledger))?;
    push_number(out, b"messages ", count_of(ledger))
}

/// Appends what a ledger holds, line by line.
fn push_values(out: &mut Vec<u8>, ledger: &LedgerText) -> Result<(), AllocError>
    ensures { OnOk result (out.new.items ≡ out.old.items ++ values_text ledger.now) }
{
    push_definition(out, &ledger.limits)?;
    push_number(out, b"lines ", ledger.lines)?;
    push_sums(out, ledger)
}

/// Appends the line that says what is wrong with a ledger.
fn push_fault(out: &mut Vec<u8>, fault: LedgerFault) -> Result<(), AllocError>
    ensures { OnOk result (out.new.items ≡ out.old.items ++ fault_text fault) }
{
    match fault {
        LedgerFault::TooLong { length } => push_number(out, b"too long ", length),
        LedgerFault::BadDefinition { at } => push_number(out, b"bad definition at ", at),
        LedgerFault::BadLine { line } => push_number(out, b"bad line ", line),
        LedgerFault::Torn { at } => push_number(out, b"torn at ", at),
    }
}

/// What `check` writes for these bytes, and the exit status.
fn reported(alloc: Global, bytes: &[u8]) -> Result<(Vec<u8>, u8), AllocError>
    ensures { IfOk result (λ x. Reports bytes.now x.0.items x.1) }
{
    let mut text = Vec::new(alloc);
    match read_ledger(bytes) {
        Ok(ledger) => {
            push_values(&mut text, &ledger)?;
            Ok((text, 0))
        }
        Err(fault) => {
            push_fault(&mut text, fault)?;
            Ok((text, 3))
        }
    }
}

/// Reads a ledger from the source, to the source's end or for 65536 bytes, and writes what the
/// ledger holds or what is wrong with it.
///
/// Returns the exit status: 0 if the ledger can be read, 3 if something is wrong with it, 4 if a
/// read failed, 5 if a write failed, 6 if memory ran out.
pub fn check<S: Source, O: Sink>(alloc: Global, source: &mut S, sink: &mut O) -> u8
    ensures checks { ChecksLedger (S.left source.old) (S.left source.new) (O.written sink.old)
        (O.written sink.new) result }
    ensures read_cause { HasCause (result ≡ 4) (S.faults source.old) (S.faults source.new) }
    ensures write_cause { HasCause (result ≡ 5) (O.faults sink.old) (O.faults sink.new) }
{
    let bytes = match ledger_bytes(alloc, source) {
        Ok(bytes) => bytes,
        Err(Unread::Fault) => return 4,
        Err(Unread::NoMemory) => return NO_MEMORY,
    };
    let Ok((text, status)) = reported(alloc, &bytes) else {
        return NO_MEMORY;
    };
    match send(sink, &text) {
        Ok(()) => status,
        Err(Failed) => WRITE_FAULT,
    }
}
