// The answer to a request, and how the session goes on.
ghost use Rattle.std.specs.Prelude.{◌≡◌, ◌≤◌, ◌++◌, [], length, OnOk, OnErr, IfOk, None};
ghost use Rattle.wire_io.specs.Work.{Does};
ghost use Rattle.imap_front.specs.Imap.{work_of_nobody, work_in, login_after, fault_after, work, next};
ghost use Rattle.imap_front.specs.Texts.{login_text};
ghost use Rattle.front_core.specs.Desks.{IsDeskOf, IsLogin};
ghost use Rattle.front_core.specs.Works.{DoesWork, LeavesWork};
ghost use Rattle.imap_front.specs.Taking.{request_taken, HasSizes};

use crate::owner::Owner;
use crate::request::Taken;
use crate::texts::{
    LOGGED_IN, LOGIN_FAILED, NOOP, push_capability, push_logout, push_refusal, push_tagged,
};
use accounts_file::HostTable;
use desk::Desk;
use imap_grammar::{Command, CommandFault, tag_in};
use quota_units::NoMemory;
use std::alloc::{AllocError, Global};
use wire_io::After;

/// How a session goes on after a request was answered.
#[derive(Clone, Copy)]
pub struct Onward {
    /// What the session does then.
    pub after: After,
    /// The number of the account that is logged in then; `None` if nobody is.
    pub login: Option<u32>,
}

/// The session goes on, and nobody is logged in.
const STAYS: Onward = Onward {
    after: After::Open,
    login: None,
};

/// Appends the answer to LOGIN with this account, or with a name and a password of none.
#[inline(always)]
fn push_login(out: &mut Vec<u8>, tag: &[u8], login: Option<u32>) -> Result<(), AllocError>
    ensures { OnOk result (out.new.items ≡ out.old.items ++ login_text tag.now login) }
{
    match login {
        Some(_) => push_tagged(out, tag, LOGGED_IN),
        None => push_tagged(out, tag, LOGIN_FAILED),
    }
}

/// Writes the answer to a command to `answer`, which is empty before, if nobody is logged in.
fn answer_nobody(
    table: &HostTable,
    command: Command,
    tag: &[u8],
    answer: &mut Vec<u8>,
) -> Result<Onward, NoMemory>
    requires empty { answer.old.items ≡ [] }
    ensures does { IfOk result (λ onward.
        Does (work_of_nobody table.now tag.now command) [] answer.new.items onward.after) }
    ensures login { IfOk result (λ onward. onward.login ≡ login_after table.now None command) }
    ensures there { IfOk result (λ onward. IsLogin table.now onward.login) }
{
    match command {
        Command::Capability => {
            push_capability(answer, tag)?;
            Ok(STAYS)
        }
        Command::Noop => {
            push_tagged(answer, tag, NOOP)?;
            Ok(STAYS)
        }
        Command::Logout => {
            push_logout(answer, tag)?;
            Ok(Onward {
                after: After::Closing,
                login: None,
            })
        }
        Command::Login { user, password } => {
            let login = table.login(user.as_slice(), password.as_slice());
            push_login(answer, tag, login)?;
            Ok(Onward {
                after: After::Open,
                login,
            })
        }
        Command::GetQuota { .. }
        | Command::GetQuotaRoot { .. }
        | Command::SetQuota { .. }
        | Command::Status { .. }
        | Command::Append { .. } => {
            push_refusal(answer, tag, CommandFault::NotAuthenticated)?;
            Ok(STAYS)
        }
    }
}

/// Makes the calls of a command with this tag, and with this message if it is APPEND, and writes
/// its answer to `answer`, which is empty before.
#[inline(always)]
fn answer_command<D: Desk>(
    alloc: Global,
    table: &HostTable,
    login: Option<u32>,
    desk: &mut D,
    command: Command,
    tag: &[u8],
    message: &[u8],
    answer: &mut Vec<u8>,
) -> Result<Onward, NoMemory>
    requires empty { answer.old.items ≡ [] }
    requires desk { IsDeskOf table.now (D.shares desk.old) }
    requires login { IsLogin table.now login }
    requires small { length message.now ≤ 67108864 }
    ensures ok { IfOk result (λ onward. DoesWork (D.shares desk.old) (D.shares desk.new)
        (work_in table.now login tag.now command message.now) answer.new.items onward.after) }
    ensures err { OnErr result (LeavesWork (D.shares desk.old) (D.shares desk.new)
        (work_in table.now login tag.now command message.now)) }
    ensures login { IfOk result (λ onward. onward.login ≡ login_after table.now login command) }
    ensures there { IfOk result (λ onward. IsLogin table.now onward.login) }
    ensures leads { D.leads desk.old desk.new }
{
    match login {
        Some(account) => {
            let owner = Owner {
                account,
                details: table.entry(account),
                tag,
            };
            let after = owner.answer(alloc, desk, command, message, answer)?;
            Ok(Onward { after, login })
        }
        None => answer_nobody(table, command, tag, answer),
    }
}

/// What the session does after it answered this fault.
fn after_fault(fault: CommandFault) -> After
    ensures { result ≡ fault_after fault }
{
    match fault {
        CommandFault::TooLong => After::Closing,
        CommandFault::InvalidTag
        | CommandFault::Unknown
        | CommandFault::NotAuthenticated
        | CommandFault::AlreadyAuthenticated
        | CommandFault::Syntax { .. }
        | CommandFault::LiteralTooLarge
        | CommandFault::MessageTooLarge
        | CommandFault::NoMemory => After::Open,
    }
}

/// Makes the calls that a request asks for, and writes the answer to it: `answer` then has the
/// answer alone. The bytes of the request are `text`, without the octets of its message.
#[inline(always)]
pub fn answer_request<D: Desk>(
    alloc: Global,
    table: &HostTable,
    login: Option<u32>,
    desk: &mut D,
    text: &[u8],
    request: Taken,
    answer: &mut Vec<u8>,
) -> Result<Onward, NoMemory>
    requires desk { IsDeskOf table.now (D.shares desk.old) }
    requires login { IsLogin table.now login }
    requires sizes { HasSizes text.now request }
    ensures ok { IfOk result (λ onward. DoesWork (D.shares desk.old) (D.shares desk.new)
        (work table.now login (request_taken text.now request)) answer.new.items onward.after) }
    ensures err { OnErr result (LeavesWork (D.shares desk.old) (D.shares desk.new)
        (work table.now login (request_taken text.now request))) }
    ensures login { IfOk result (λ onward.
        onward.login ≡ next table.now login (request_taken text.now request)) }
    ensures there { IfOk result (λ onward. IsLogin table.now onward.login) }
    ensures leads { D.leads desk.old desk.new }
{
    answer.clear();
    match request {
        Taken::Command {
            tag,
            command,
            message,
        } => answer_command(
            alloc,
            table,
            login,
            desk,
            command,
            &text[..tag],
            &message,
            answer,
        ),
        Taken::Fault { fault } => {
            push_refusal(answer, tag_in(text), fault)?;
            let after = after_fault(fault);
            Ok(Onward { after, login })
        }
    }
}
