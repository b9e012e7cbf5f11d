// The lines that the program writes of its own.
ghost use Rattle.std.specs.Prelude.{◌≡◌, ◌≢◌, ◌++◌, OnOk, IfOk};
ghost use Rattle.quota_units.specs.Causes.{HasCause};
ghost use Rattle.std.specs.Prelude.{◌≤◌};
ghost use Rattle.quotactl.specs.Lines.{EndsWith, MayEndWith, said, usage_line, file_line, file_status, no_account_line, opening_line, opening_status, summary_lines};

use crate::status::{NO_MEMORY, WRITE_FAULT};
use account_ledger::OpenError;
use accounts_file::AccountsError;
use itoa::{Buffer, Integer};
use quota_units::{Failed, NoMemory};
use std::alloc::{AllocError, Global};
use wire_io::{Sink, send};
use workload::{run_workload, summary_text};

/// What the program writes for unrecognised arguments.
const USAGE: &[u8] =
    b"usage: quotactl session N | imap [ACCOUNT] | jmap | policy | recalc ACCOUNT | check | workload N\n";

/// What the program writes if the store of an account failed at its opening.
const STORE_UNAVAILABLE: &[u8] = b"store unavailable\n";

/// Appends a line of these words and then this value.
pub fn push_said(out: &mut Vec<u8>, words: &[u8], value: &[u8]) -> Result<(), AllocError>
    ensures { OnOk result (out.new.items ≡ out.old.items ++ said words.now value.now) }
{
    out.extend_from_slice(words)?;
    out.extend_from_slice(value)?;
    out.extend_from_slice(b"\n")
}

/// Appends a line of these words and then this number.
pub fn push_number<I: Integer>(out: &mut Vec<u8>, words: &[u8], number: I) -> Result<(), AllocError>
    ensures { OnOk result (out.new.items ≡ out.old.items ++ said words.now (I.text number)) }
{
    push_said(out, words, Buffer::new().format(number).as_bytes())
}

/// A line of these words and then this value.
fn line_of(alloc: Global, words: &[u8], value: &[u8]) -> Result<Vec<u8>, AllocError>
    ensures { IfOk result (λ line. line.items ≡ said words.now value.now) }
{
    let mut line = Vec::new(alloc);
    push_said(&mut line, words, value)?;
    Ok(line)
}

/// The line that says why an accounts file is refused.
fn line_of_file(alloc: Global, fault: &AccountsError) -> Result<Vec<u8>, AllocError>
    ensures { IfOk result (λ line. line.items ≡ file_line fault.now) }
{
    match fault {
        AccountsError::NotToml => b"accounts: not TOML\n".to_vec(alloc),
        AccountsError::Missing { key } => {
            line_of(alloc, b"accounts: missing ", key.word().as_bytes())
        }
        AccountsError::BadValue { key } => line_of(alloc, b"accounts: bad ", key.word().as_bytes()),
        AccountsError::Double { name } => line_of(alloc, b"accounts: double ", name.as_slice()),
        AccountsError::TooMany { key } => {
            line_of(alloc, b"accounts: too many ", key.word().as_bytes())
        }
        AccountsError::NoMemory => Ok(Vec::new(alloc)),
    }
}

/// The line that says why an account is not opened.
fn line_of_opening(alloc: Global, cause: &OpenError) -> Result<Vec<u8>, AllocError>
    ensures { IfOk result (λ line. line.items ≡ opening_line cause.now) }
{
    match cause {
        OpenError::Store => STORE_UNAVAILABLE.to_vec(alloc),
        OpenError::TooManyMessages { found } => {
            let mut line = Vec::new(alloc);
            push_number(&mut line, b"too many messages ", *found)?;
            Ok(line)
        }
        OpenError::DoubleName { name } => line_of(alloc, b"double name ", name.as_slice()),
        OpenError::EpochUsed { name } => line_of(alloc, b"epoch used ", name.as_slice()),
        OpenError::NoMemory => Ok(Vec::new(alloc)),
    }
}

/// The status that goes with the line of a refused accounts file.
fn status_of_file(fault: &AccountsError) -> u8
    ensures value { result ≡ file_status fault.now }
    ensures no_write { result ≢ 5 }
{
    match fault {
        AccountsError::NoMemory => NO_MEMORY,
        _ => 2,
    }
}

/// The status that goes with the line of a refused opening.
fn status_of_opening(cause: &OpenError) -> u8
    ensures value { result ≡ opening_status cause.now }
    ensures no_write { result ≢ 5 }
{
    match cause {
        OpenError::Store => 7,
        OpenError::TooManyMessages { .. } => 14,
        OpenError::DoubleName { .. } => 13,
        OpenError::EpochUsed { .. } => 12,
        OpenError::NoMemory => NO_MEMORY,
    }
}

/// Writes a line, and returns the line's own exit status, or 5 if a write fails.
fn end_with<O: Sink>(sink: &mut O, line: &[u8], own: u8) -> u8
    requires { own ≢ 5 }
    ensures ends { EndsWith (O.written sink.old) (O.written sink.new) line.now own result }
    ensures write_cause { HasCause (result ≡ 5) (O.faults sink.old) (O.faults sink.new) }
{
    match send(sink, line) {
        Ok(()) => own,
        Err(Failed) => WRITE_FAULT,
    }
}

/// Writes the usage line, and returns the exit status.
pub fn refuse_words<O: Sink>(sink: &mut O) -> u8
    ensures ends { EndsWith (O.written sink.old) (O.written sink.new) usage_line 1 result }
    ensures write_cause { HasCause (result ≡ 5) (O.faults sink.old) (O.faults sink.new) }
{
    end_with(sink, USAGE, 1)
}

/// Writes why the accounts file is refused, and returns the exit status. If memory ran out, nothing
/// is written.
pub fn refuse_file<O: Sink>(alloc: Global, fault: &AccountsError, sink: &mut O) -> u8
    ensures ends { MayEndWith (O.written sink.old) (O.written sink.new) (file_line fault.now)
        (file_status fault.now) result }
    ensures write_cause { HasCause (result ≡ 5) (O.faults sink.old) (O.faults sink.new) }
{
    match line_of_file(alloc, fault) {
        Ok(line) => end_with(sink, &line, status_of_file(fault)),
        Err(_) => NO_MEMORY,
    }
}

/// Writes that the accounts file has no account of this name, and returns the exit status.
pub fn refuse_account<O: Sink>(alloc: Global, name: &[u8], sink: &mut O) -> u8
    ensures ends { MayEndWith (O.written sink.old) (O.written sink.new) (no_account_line name.now) 8
        result }
    ensures write_cause { HasCause (result ≡ 5) (O.faults sink.old) (O.faults sink.new) }
{
    match line_of(alloc, b"no account ", name) {
        Ok(line) => end_with(sink, &line, 8),
        Err(_) => NO_MEMORY,
    }
}

/// Writes why an account is not opened, and returns the exit status. If memory ran out, nothing is
/// written.
pub fn refuse_opening<O: Sink>(alloc: Global, cause: &OpenError, sink: &mut O) -> u8
    ensures ends { MayEndWith (O.written sink.old) (O.written sink.new) (opening_line cause.now)
        (opening_status cause.now) result }
    ensures write_cause { HasCause (result ≡ 5) (O.faults sink.old) (O.faults sink.new) }
{
    match line_of_opening(alloc, cause) {
        Ok(line) => end_with(sink, &line, status_of_opening(cause)),
        Err(_) => NO_MEMORY,
    }
}

/// The summary of a workload of so many requests.
fn summary_of(alloc: Global, requests: u64) -> Result<Vec<u8>, NoMemory>
    requires some { 1 ≤ requests }
    requires bounded { requests ≤ 4096 }
    ensures { IfOk result (λ text. text.items ≡ summary_lines requests) }
{
    let summary = run_workload(alloc, requests)?;
    summary_text(alloc, &summary)
}

/// Works a workload of so many requests, writes its summary, and returns the exit status. If memory
/// runs out before, nothing is written.
pub fn write_summary<O: Sink>(alloc: Global, requests: u64, sink: &mut O) -> u8
    requires some { 1 ≤ requests }
    requires bounded { requests ≤ 4096 }
    ensures ends { MayEndWith (O.written sink.old) (O.written sink.new) (summary_lines requests) 0
        result }
    ensures write_cause { HasCause (result ≡ 5) (O.faults sink.old) (O.faults sink.new) }
{
    match summary_of(alloc, requests) {
        Ok(text) => end_with(sink, &text, 0),
        Err(NoMemory) => NO_MEMORY,
    }
}
