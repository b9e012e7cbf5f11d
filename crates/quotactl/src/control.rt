// The program over its arguments, an accounts file, stores, a source and a sink.
ghost use Rattle.std.specs.Prelude.{◌≡◌, ◌≢◌, ◌≤◌, ◌<◌, ℕ, List, [], ◌∷◌, map, take, codes, Option, Some, IfSome};
ghost use Rattle.std.specs.String.{string_bytes};
ghost use Rattle.std.specs.Io.KnownBytes.{Appends};
ghost use Rattle.quota_units.specs.Causes.{HasCause, Rose};
ghost use Rattle.command_words.specs.Words.{IsSessionForm, IsWorkloadForm, IsNoForm};
ghost use Rattle.quotactl.specs.Words.{IsHostedForm, HostedForm};
ghost use Rattle.quotactl.specs.Checking.{Reports, max_checked};
ghost use Rattle.quotactl.specs.Outcome.{HasOutcome, HaveNoneDue, IsUnbroken, file_outcome, session_outcome, usage_outcome, workload_outcome};
ghost use Rattle.sessions.specs.declared.front.Front.TheVariants.{ImapAs};
ghost use Rattle.quotactl.specs.Control.{Runs, Controls, hosts_with, fresh};

use crate::accounts::{HostSession, serve_file};
use crate::check::check;
use crate::lines::{refuse_words, write_summary};
use crate::status::{NO_MEMORY, status};
use command_words::{Form, form_of};
use keeper::Stores;
use owner_sessions::open_plain;
use quota_units::{Limits, NoMemory};
use sessions::{Front, run_session};
use std::alloc::Global;
use wire_io::{Sink, Source};

/// Serves a session of an account with this many 1024-octet units of storage, and returns the exit
/// status.
fn run<S: Source, O: Sink>(alloc: Global, units: u64, source: &mut S, sink: &mut O) -> u8
    requires some { 0 < units }
    requires bounded { units ≤ 8796093022207 }
    ensures runs { Runs (S.left source.old) (S.left source.new) (O.written sink.old)
        (O.written sink.new) units result }
    ensures read_cause { HasCause (result ≡ 4) (S.faults source.old) (S.faults source.new) }
    ensures write_cause { HasCause (result ≡ 5) (O.faults sink.old) (O.faults sink.new) }
{
    let Some(limits) = Limits::new(Some(1024 * units), None) else {
        unreachable!()
    };
    match open_plain(alloc, limits) {
        Ok((table, mut desk)) => {
            let end = run_session(alloc, Front::ImapAs(0), &table, &mut desk, source, sink);
            desk.show_owned();
            status(end)
        }
        Err(NoMemory) => NO_MEMORY,
    }
}

/// Runs `quotactl` with these arguments, over an accounts file, stores, a source and a sink, and
/// returns the exit status.
///
/// `words` are the arguments after the program's name. `session N` serves a session of IMAP for the
/// owner of an account with N units of storage of 1024 octets; N is from 1 to 8796093022207, in
/// decimal digits with no leading zero. `imap` serves a session of IMAP over the accounts of the
/// accounts file, and `imap ACCOUNT` one in which the owner of that account is logged in at the
/// start. `policy` serves a session of the policy protocol over them. `accounts` are the bytes of
/// the file, `stores` have the accounts' mailboxes and ledgers, and `epoch` is the second in which
/// they are opened. `check` says what a ledger holds. `workload N` asks N requests of the policy
/// protocol, from 1 to 4096, of an account in memory, and sums up the answers. For any other
/// arguments the program writes the usage line.
///
/// The status is 0 after a session that closed, after `check` of a ledger that can be read and
/// after a workload, 1 if the arguments are unrecognised, 2 if the accounts file is refused, 3 if the input ended inside a
/// request or the ledger can't be read, 4 if a read failed, 5 if a write failed, 6 if memory ran
/// out, 7 if the store of an account failed at its opening, 8 if no account has the name, 11 if the
/// session took 1073741824 bytes, 12 if the epoch was used, 13 if a name occurs twice in a mailbox,
/// and 14 if an account has more than 1048576 messages.
pub fn control<S: Source, O: Sink, M: Stores>(
    alloc: Global,
    words: &[String],
    accounts: &[u8],
    stores: &mut M,
    epoch: u64,
    source: &mut S,
    sink: &mut O,
) -> u8
where
    M::K: Drop,
    // The program does what the arguments say. If they are unrecognised, it writes the usage line.
    ensures controls { Controls M.K.told M.K.faults M.K.append_faults M.K.lists
        (map string_bytes words.now) accounts.now epoch (M.told stores.old) (M.told stores.new)
        (S.left source.old) (S.left source.new) (O.written sink.old) (O.written sink.new) result }

    // Only a session over the accounts of the file uses the stores.
    ensures untouched { ((session : HostedForm) → IsHostedForm (map string_bytes words.now) session → ⊥)
        → stores.new ≡ stores.old }

    // Status 4 means that a read failed, and status 5 that a write failed. No other failure is
    // counted. Status 7 means that the stores failed.
    ensures read_cause { HasCause (result ≡ 4) (S.faults source.old) (S.faults source.new) }
    ensures write_cause { HasCause (result ≡ 5) (O.faults sink.old) (O.faults sink.new) }
    ensures store_cause { result ≡ 7 → Rose (M.faults stores.old) (M.faults stores.new) }
    ensures store_later { M.faults stores.old ≤ M.faults stores.new }

    // If nothing failed and memory did not run out, the status and all that is written depend on
    // the arguments, the accounts file, the epoch, the files of the accounts and the input alone.
    ensures session_output { (n : ℕ) → IsSessionForm (map string_bytes words.now) n
        → IfSome (S.left source.old) (λ input. IsUnbroken
        (Rose (S.faults source.old) (S.faults source.new))
        (Rose (O.faults sink.old) (O.faults sink.new)) result
        → HasOutcome (O.written sink.old) (O.written sink.new) result
        (session_outcome (hosts_with n) (ImapAs 0) (fresh n) input)) }
    ensures accounts_output { (session : HostedForm)
        → IsHostedForm (map string_bytes words.now) session
        → IfSome (M.told stores.old) (λ told. HaveNoneDue M.K.told told
        → (Rose (M.faults stores.old) (M.faults stores.new) → ⊥)
        → IfSome (S.left source.old) (λ input. IsUnbroken
        (Rose (S.faults source.old) (S.faults source.new))
        (Rose (O.faults sink.old) (O.faults sink.new)) result
        → HasOutcome (O.written sink.old) (O.written sink.new) result
        (file_outcome M.K.told accounts.now epoch session told input))) }
    ensures check_output { map string_bytes words.now ≡ codes "check" ∷ []
        → IfSome (S.left source.old) (λ input. IsUnbroken
        (Rose (S.faults source.old) (S.faults source.new))
        (Rose (O.faults sink.old) (O.faults sink.new)) result
        → (text : List ℕ) × Reports (take max_checked input) text result
        × Appends (O.written sink.old) (O.written sink.new) text) }
    ensures workload_output { (n : ℕ) → IsWorkloadForm (map string_bytes words.now) n → result ≢ 6
        → (Rose (O.faults sink.old) (O.faults sink.new) → ⊥)
        → HasOutcome (O.written sink.old) (O.written sink.new) result (workload_outcome n) }
    ensures usage_output { IsNoForm (map string_bytes words.now) → result ≢ 6
        → (Rose (O.faults sink.old) (O.faults sink.new) → ⊥)
        → HasOutcome (O.written sink.old) (O.written sink.new) result usage_outcome }
{
    match form_of(alloc, words) {
        Ok(Some(Form::Session { units })) => run(alloc, units, source, sink),
        Ok(Some(Form::Imap { account })) => {
            let session = HostSession::Imap { account };
            serve_file(alloc, session, accounts, stores, epoch, source, sink)
        }
        Ok(Some(Form::Policy)) => {
            let session = HostSession::Policy;
            serve_file(alloc, session, accounts, stores, epoch, source, sink)
        }
        Ok(Some(Form::Check)) => check(alloc, source, sink),
        Ok(Some(Form::Workload { requests })) => write_summary(alloc, requests, sink),
        Ok(None) => refuse_words(sink),
        Err(NoMemory) => NO_MEMORY,
    }
}
