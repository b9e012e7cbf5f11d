ghost use Rattle.std.specs.Prelude.{◌≡◌, ◌⊎◌, Err};
ghost use Rattle.imap_grammar.specs.Progressing.{command_in};

use crate::astring::Astring;
use crate::faults::{line_fault, unended_fault};
use crate::limits::AskedLimits;
use crate::progress::{Progress, read_progress};
use crate::status::StatusItems;
use quota_units::Flags;
use std::alloc::Global;
use thiserror::Error;

/// A command without its tag.
#[derive(Debug, Drop)]
pub enum Command {
    /// `CAPABILITY`: what the server can do (RFC 9051, section 6.1.1).
    Capability,
    /// `NOOP` (RFC 9051, section 6.1.2).
    Noop,
    /// `LOGOUT` (RFC 9051, section 6.1.3).
    Logout,
    /// `LOGIN USER PASSWORD` (RFC 9051, section 6.2.3).
    Login {
        user: Astring,
        password: Astring,
    },
    /// `GETQUOTA ROOT`: the root's usage and limits (RFC 9208, on GETQUOTA).
    GetQuota {
        root: Astring,
    },
    /// `GETQUOTAROOT MAILBOX`: the roots that govern the mailbox (RFC 9208, on GETQUOTAROOT).
    GetQuotaRoot {
        mailbox: Astring,
    },
    /// `SETQUOTA ROOT (RESOURCE LIMIT ...)`: the root's limits from now on (RFC 9208, on SETQUOTA).
    SetQuota {
        root: Astring,
        limits: AskedLimits,
    },
    /// `STATUS MAILBOX (ITEM ...)`: what the mailbox has (RFC 9051, section 6.3.11).
    Status {
        mailbox: Astring,
        items: StatusItems,
    },
    /// `APPEND MAILBOX (FLAG ...) "DATE" {SIZE}`: a message of `size` octets for the mailbox, whose
    /// octets are no part of the command's text (RFC 9051, section 6.3.12). `\Seen`, `\Deleted`,
    /// `\Flagged`, `\Answered` and `\Draft` are the flags S, T, F, R and D; other flags and the
    /// date are dropped.
    Append {
        mailbox: Astring,
        flags: Flags,
        size: u64,
    },
}

/// Why a text is no command.
#[derive(Clone, Copy, Debug, PartialEq, Eq, Error)]
pub enum CommandFault {
    /// 16384 bytes of the text do not hold the command's end.
    #[error("the command is too long")]
    TooLong,
    /// The text does not begin with a tag and a space.
    #[error("no tag and space")]
    InvalidTag,
    /// The word after the tag, up to a space or the line's end, is the word of no command.
    #[error("unknown command")]
    Unknown,
    /// The command needs a login.
    #[error("not logged in")]
    NotAuthenticated,
    /// LOGIN after a login.
    #[error("already logged in")]
    AlreadyAuthenticated,
    /// The first `at` bytes of the text are the most with which a command begins.
    #[error("syntax error after {at} bytes")]
    Syntax { at: usize },
    /// A literal would make the text longer than 16384 bytes.
    #[error("the literal is too large")]
    LiteralTooLarge,
    /// The message of an APPEND has more than 67108864 octets.
    #[error("the message is too large")]
    MessageTooLarge,
    #[error("out of memory")]
    NoMemory,
}

/// The command that a text is, from its tag to its line's end (RFC 9051, section 9; RFC 9208).
/// `login` says whether the session is logged in. The octets of literals are part of the text,
/// those of an APPEND's message are not.
///
/// # Errors
///
/// The first fault of the text, in the order of `CommandFault`, but a literal or a message that is
/// too large is found at its marker. A text with which a command begins is wrong at its end.
/// `NoMemory` if memory runs out.
pub fn read_command(alloc: Global, text: &[u8], login: bool) -> Result<Command, CommandFault>
    ensures { (result ≡ Err CommandFault.NoMemory) ⊎ (result ≡ command_in login text.now) }
{
    match read_progress(alloc, text, login)? {
        Progress::Whole { command, .. } => Ok(command),
        Progress::More { at } => Err(unended_fault(text, login, at)),
        Progress::Literal { .. } | Progress::Message { .. } => {
            Err(line_fault(text, login, text.len()))
        }
    }
}
