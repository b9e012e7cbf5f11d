// A session over the accounts of an accounts file.
ghost use Rattle.std.specs.Prelude.{◌≡◌, ◌≤◌, Some, IfOk, IfErr};
ghost use Rattle.quota_units.specs.Causes.{HasCause, Rose};
ghost use Rattle.front_core.specs.Desks.{IsLogin};
ghost use Rattle.sessions.specs.Fronts.{start_of};
ghost use Rattle.quotactl.specs.Hosting.{IsNobody, ServesTable, ServesFile, front_in};
ghost use Rattle.quotactl.specs.Words.{hosted_form};

use crate::lines::{refuse_account, refuse_file, refuse_opening};
use crate::status::status;
use accounts_file::{HostTable, read_accounts};
use host_opening::{close_accounts, open_accounts};
use keeper::Stores;
use plain_desk::PlainDesk;
use sessions::{Front, run_session};
use std::alloc::Global;
use wire_io::{Sink, Source};

/// A session over the accounts of an accounts file.
#[derive(Clone, Copy)]
pub enum HostSession<'a> {
    /// A session of IMAP. If an account is named, its owner is logged in at the start.
    Imap { account: Option<&'a [u8]> },
    /// A session of the policy protocol.
    Policy,
}

/// Opens the accounts of the table, serves a session over them, closes them, and returns the exit
/// status.
fn serve_table<M: Stores, S: Source, O: Sink>(
    alloc: Global,
    front: Front,
    table: &HostTable,
    stores: &mut M,
    source: &mut S,
    sink: &mut O,
) -> u8
where
    M::K: Drop,
    requires { IsLogin table.now (start_of front) }
    ensures serves { ServesTable M.K.told M.K.faults M.K.append_faults M.K.lists table.now
        front (M.told stores.old) (M.told stores.new) (S.left source.old)
        (S.left source.new) (O.written sink.old) (O.written sink.new) result }
    ensures read_cause { HasCause (result ≡ 4) (S.faults source.old) (S.faults source.new) }
    ensures write_cause { HasCause (result ≡ 5) (O.faults sink.old) (O.faults sink.new) }
    ensures store_cause { result ≡ 7 → Rose (M.faults stores.old) (M.faults stores.new) }
    ensures store_later { M.faults stores.old ≤ M.faults stores.new }
{
    let _count = table.count();
    let states = match open_accounts(alloc, table, stores) {
        Ok(states) => states,
        Err(cause) => return refuse_opening(alloc, &cause, sink),
    };
    let mut desk = PlainDesk::new(states);
    let end = run_session(alloc, front, table, &mut desk, source, sink);
    close_accounts(table, desk.into_states(), stores);
    status(end)
}

/// The front of a session over the accounts of the table.
///
/// # Errors
///
/// The name that the session gives, if no account has it.
fn front_for<'a>(table: &HostTable, session: HostSession<'a>) -> Result<Front, &'a [u8]>
    ensures front { IfOk result (λ front.
        front_in table.now.accounts (hosted_form session.entry) ≡ Some front) }
    ensures login { IfOk result (λ front. IsLogin table.now (start_of front)) }
    ensures none { IfErr result (λ name. IsNobody table.now (hosted_form session.entry) name.now) }
{
    match session {
        HostSession::Imap { account: None } => Ok(Front::Imap),
        HostSession::Imap {
            account: Some(name),
        } => match table.named(name) {
            Some(number) => Ok(Front::ImapAs(number)),
            None => Err(name),
        },
        HostSession::Policy => Ok(Front::Policy),
    }
}

/// Serves this session over the accounts of an accounts file, and returns the exit status.
pub fn serve_file<M: Stores, S: Source, O: Sink>(
    alloc: Global,
    session: HostSession<'_>,
    file: &[u8],
    stores: &mut M,
    epoch: u64,
    source: &mut S,
    sink: &mut O,
) -> u8
where
    M::K: Drop,
    ensures serves { ServesFile M.K.told M.K.faults M.K.append_faults M.K.lists file.now epoch
        (hosted_form session.entry) (M.told stores.old) (M.told stores.new) (S.left source.old)
        (S.left source.new) (O.written sink.old) (O.written sink.new) result }
    ensures read_cause { HasCause (result ≡ 4) (S.faults source.old) (S.faults source.new) }
    ensures write_cause { HasCause (result ≡ 5) (O.faults sink.old) (O.faults sink.new) }
    ensures store_cause { result ≡ 7 → Rose (M.faults stores.old) (M.faults stores.new) }
    ensures store_later { M.faults stores.old ≤ M.faults stores.new }
{
    let table = match read_accounts(alloc, file, epoch) {
        Ok(table) => table,
        Err(fault) => return refuse_file(alloc, &fault, sink),
    };
    match front_for(&table, session) {
        Ok(front) => serve_table(alloc, front, &table, stores, source, sink),
        Err(name) => refuse_account(alloc, name, sink),
    }
}
