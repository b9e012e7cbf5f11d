// What is done for a request: its call on the desk, and its answer.
ghost use Rattle.std.specs.Prelude.{◌≡◌, ◌<◌, ◌≤◌, length, IfOk, IfSome, OnErr, IfNone, OnOk, None, Some};
ghost use Rattle.std.specs.Option.{option_and_then, option_map};
ghost use Rattle.accounts_file.specs.Hosts.{named, receiver};
ghost use Rattle.front_core.specs.Desks.{IsDeskOf};
ghost use Rattle.front_core.specs.Works.{DoesWork, LeavesWork};
ghost use Rattle.policy_front.specs.Texts.{asked_of};
ghost use Rattle.policy_front.specs.Policy.{work};
ghost use Rattle.policy_front.specs.Taking.{after_asked, request_with, request_taken};

use crate::answers::{DUNNO, NO_ACCOUNT, write_action};
use crate::reading::{PolicyFault, PolicyRequest};
use crate::target::Target;
use accounts_file::HostTable;
use desk::Desk;
use quota_units::NoMemory;
use std::alloc::Global;
use wire_io::After;

/// The account of this name.
fn named(table: &HostTable, name: &[u8]) -> Option<Target>
    ensures some { IfSome result (λ target.
        named table.now.accounts name.now ≡ Some target.account) }
    ensures none { IfNone result (named table.now.accounts name.now ≡ None) }
    ensures there { IfSome result (λ target. target.account < length table.now.accounts) }
    ensures epoch { IfSome result (λ target. target.epoch ≡ table.now.epoch) }
{
    Some(Target {
        account: table.named(name)?,
        epoch: table.epoch(),
    })
}

/// The account that has this address among its recipients.
fn receiver(table: &HostTable, recipient: Option<&[u8]>) -> Option<Target>
    ensures some { IfSome result (λ target. option_and_then (receiver table.now.accounts)
        (option_map (λ value. value.now) recipient.entry) ≡ Some target.account) }
    ensures none { IfNone result (option_and_then (receiver table.now.accounts)
        (option_map (λ value. value.now) recipient.entry) ≡ None) }
    ensures there { IfSome result (λ target. target.account < length table.now.accounts) }
    ensures epoch { IfSome result (λ target. target.epoch ≡ table.now.epoch) }
{
    Some(Target {
        account: table.recipient(recipient?)?,
        epoch: table.epoch(),
    })
}

/// Does what the text of a request asks for, with this message if it is a delivery, and writes the
/// answer over what `out` has.
fn answer_asked<D: Desk>(
    alloc: Global,
    table: &HostTable,
    desk: &mut D,
    request: PolicyRequest<'_>,
    message: &[u8],
    out: &mut Vec<u8>,
) -> Result<(), NoMemory>
    requires desk { IsDeskOf table.now (D.shares desk.old) }
    requires small { length message.now ≤ 67108864 }
    ensures ok { OnOk result (DoesWork (D.shares desk.old) (D.shares desk.new)
        (work table.now (request_with (asked_of request.entry) message.now)) out.new.items
        (after_asked request.entry)) }
    ensures err { OnErr result (LeavesWork (D.shares desk.old) (D.shares desk.new)
        (work table.now (request_with (asked_of request.entry) message.now))) }
    ensures leads { D.leads desk.old desk.new }
{
    match request {
        PolicyRequest::Check { recipient, size } => match receiver(table, recipient) {
            Some(target) => target.check(alloc, desk, size, out),
            None => write_action(out, DUNNO),
        },
        PolicyRequest::Deliver {
            account,
            mailbox,
            flags,
            ..
        } => match named(table, account) {
            Some(target) => target.deliver(alloc, desk, mailbox, flags, message, out),
            None => write_action(out, NO_ACCOUNT),
        },
        PolicyRequest::Remove {
            account,
            mailbox,
            name,
        } => match named(table, account) {
            Some(target) => target.remove(alloc, desk, mailbox, name, out),
            None => write_action(out, NO_ACCOUNT),
        },
        PolicyRequest::Mark {
            account,
            mailbox,
            name,
            flags,
        } => match named(table, account) {
            Some(target) => target.mark(alloc, desk, mailbox, name, flags, out),
            None => write_action(out, NO_ACCOUNT),
        },
        PolicyRequest::Move {
            account,
            mailbox,
            name,
            to,
        } => match named(table, account) {
            Some(target) => target.move_message(alloc, desk, mailbox, name, to, out),
            None => write_action(out, NO_ACCOUNT),
        },
        PolicyRequest::Stop => write_action(out, b"stopping"),
        PolicyRequest::Other => write_action(out, DUNNO),
    }
}

/// What the session does after the answer to what a text asks for.
fn after_asked(request: PolicyRequest<'_>) -> After
    ensures { result ≡ after_asked request.entry }
{
    match request {
        PolicyRequest::Stop => After::Stopping,
        PolicyRequest::Check { .. }
        | PolicyRequest::Deliver { .. }
        | PolicyRequest::Remove { .. }
        | PolicyRequest::Mark { .. }
        | PolicyRequest::Move { .. }
        | PolicyRequest::Other => After::Open,
    }
}

/// Makes the call that a request asks for, and writes the answer to the request over what `out`
/// has. It returns what the session does then.
pub fn answer_request<D: Desk>(
    alloc: Global,
    table: &HostTable,
    desk: &mut D,
    request: Result<PolicyRequest<'_>, PolicyFault>,
    message: &[u8],
    out: &mut Vec<u8>,
) -> Result<After, NoMemory>
    requires desk { IsDeskOf table.now (D.shares desk.old) }
    requires small { length message.now ≤ 67108864 }
    ensures ok { IfOk result (λ after. DoesWork (D.shares desk.old) (D.shares desk.new)
        (work table.now (request_taken message.now request.entry)) out.new.items after) }
    ensures err { OnErr result (LeavesWork (D.shares desk.old) (D.shares desk.new)
        (work table.now (request_taken message.now request.entry))) }
    ensures leads { D.leads desk.old desk.new }
{
    match request {
        Ok(request) => {
            answer_asked(alloc, table, desk, request, message, out)?;
            Ok(after_asked(request))
        }
        Err(_) => {
            write_action(out, b"bad request")?;
            Ok(After::Closing)
        }
    }
}
