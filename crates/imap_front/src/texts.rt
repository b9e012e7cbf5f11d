// The lines that answer requests. Each text is appended whole unless memory runs out.
ghost use Rattle.std.specs.Prelude.{◌≡◌, ◌++◌, OnOk};
ghost use Rattle.std.specs.Fmt.{decimal};
ghost use Rattle.imap_front.specs.Texts.{tagged_line, capability_text, logout_text, fault_line_tag, fault_words, fault_text, greeting};

use imap_grammar::CommandFault;
use itoa::Buffer;
use std::alloc::AllocError;

/// The first line of the session of an account's owner.
const PREAUTHENTICATED: &[u8] = b"* PREAUTH quotad ready\r\n";

/// The first line of a session in which nobody is logged in.
const UNAUTHENTICATED: &[u8] = b"* OK quotad ready\r\n";

/// What a session writes first, if this account, or nobody, is logged in at its start (RFC 9051,
/// section 7.1).
pub fn greeting_of(login: Option<u32>) -> &'static [u8]
    ensures { result.now ≡ greeting login }
{
    match login {
        Some(_) => PREAUTHENTICATED,
        None => UNAUTHENTICATED,
    }
}

/// What the server can do: the answer to CAPABILITY before its last line (RFC 9051, section 7.2.2;
/// RFC 9208, on capabilities).
const CAPABILITIES: &[u8] =
    b"* CAPABILITY IMAP4rev1 QUOTA QUOTASET QUOTA=RES-STORAGE QUOTA=RES-MESSAGE STATUS=SIZE\r\n";

/// The answer, after the tag, to NOOP.
pub const NOOP: &[u8] = b"OK NOOP completed";

/// The answer, after the tag, to LOGIN with the name and the password of an account.
pub const LOGGED_IN: &[u8] = b"OK LOGIN completed";

/// The answer, after the tag, to LOGIN with any other name and password.
pub const LOGIN_FAILED: &[u8] = b"NO [AUTHENTICATIONFAILED] Login failed";

/// The answer, after the tag, to SETQUOTA if the account may not set limits.
pub const NOT_PERMITTED: &[u8] = b"NO [NOPERM] Not permitted";

/// The answer, after the tag, to a command that names a root that does not exist.
pub const NO_ROOT: &[u8] = b"NO No such quota root";

/// The answer, after the tag, to STATUS of a mailbox that does not exist.
pub const NO_MAILBOX: &[u8] = b"NO No such mailbox";

/// The answer, after the tag, to APPEND to a mailbox that does not exist.
pub const TRY_CREATE: &[u8] = b"NO [TRYCREATE] No such mailbox";

/// The answer, after the tag, to APPEND of a message that does not fit.
pub const OVER_QUOTA: &[u8] = b"NO [OVERQUOTA] Quota exceeded";

/// The answer, after the tag, to APPEND of a message that was delivered.
pub const APPENDED: &[u8] = b"OK APPEND completed";

/// The answer, after the tag, to STATUS if an item is none that this service has.
pub const NO_ITEM: &[u8] = b"NO Status item not supported";

/// The answer, after the tag, to GETQUOTAROOT of a mailbox whose name has more than 255 bytes.
pub const NAME_TOO_LONG: &[u8] = b"NO Name too long";

/// The answer, after the tag, to a command if the store failed during its call.
pub const UNAVAILABLE: &[u8] = b"NO [UNAVAILABLE] Store unavailable";

/// The answer, after the tag, to a command if the account's history is full.
pub const JOURNAL_FULL: &[u8] = b"NO [LIMIT] Journal full";

/// Appends a number in decimal.
#[inline(always)]
pub fn push_number(out: &mut Vec<u8>, number: u64) -> Result<(), AllocError>
    ensures { OnOk result (out.new.items ≡ out.old.items ++ decimal number) }
{
    out.extend_from_slice(Buffer::new().format(number).as_bytes())
}

/// Appends the line that answers the command with this tag in these words.
#[inline(always)]
pub fn push_tagged(out: &mut Vec<u8>, tag: &[u8], words: &[u8]) -> Result<(), AllocError>
    ensures { OnOk result (out.new.items ≡ out.old.items ++ tagged_line tag.now words.now) }
{
    out.extend_from_slice(tag)?;
    out.extend_from_slice(b" ")?;
    out.extend_from_slice(words)?;
    out.extend_from_slice(b"\r\n")
}

/// Appends the answer to CAPABILITY.
#[inline(always)]
pub fn push_capability(out: &mut Vec<u8>, tag: &[u8]) -> Result<(), AllocError>
    ensures { OnOk result (out.new.items ≡ out.old.items ++ capability_text tag.now) }
{
    out.extend_from_slice(CAPABILITIES)?;
    push_tagged(out, tag, b"OK CAPABILITY completed")
}

/// Appends the answer to LOGOUT.
#[inline(always)]
pub fn push_logout(out: &mut Vec<u8>, tag: &[u8]) -> Result<(), AllocError>
    ensures { OnOk result (out.new.items ≡ out.old.items ++ logout_text tag.now) }
{
    out.extend_from_slice(b"* BYE quotad closing\r\n")?;
    push_tagged(out, tag, b"OK LOGOUT completed")
}

/// The tag of the line that answers a fault: the command's, or `*` if the text has none.
#[inline(always)]
fn fault_line_tag(fault: CommandFault, tag: &[u8]) -> &[u8]
    ensures { result.now ≡ fault_line_tag fault tag.now }
{
    match fault {
        CommandFault::TooLong | CommandFault::InvalidTag | CommandFault::NoMemory => b"*",
        CommandFault::Unknown
        | CommandFault::NotAuthenticated
        | CommandFault::AlreadyAuthenticated
        | CommandFault::Syntax { .. }
        | CommandFault::LiteralTooLarge
        | CommandFault::MessageTooLarge => tag,
    }
}

/// The words that answer a fault, without the place of a syntax error.
fn push_fault_words(out: &mut Vec<u8>, fault: CommandFault) -> Result<(), AllocError>
    ensures { OnOk result (out.new.items ≡ out.old.items ++ fault_words fault) }
{
    match fault {
        CommandFault::TooLong => out.extend_from_slice(b"BYE Command too long"),
        CommandFault::InvalidTag => out.extend_from_slice(b"BAD Invalid tag"),
        CommandFault::Unknown => out.extend_from_slice(b"BAD Unknown command"),
        CommandFault::NotAuthenticated => out.extend_from_slice(b"BAD Not authenticated"),
        CommandFault::AlreadyAuthenticated => out.extend_from_slice(b"BAD Already authenticated"),
        CommandFault::Syntax { at } => {
            out.extend_from_slice(b"BAD Syntax error at ")?;
            push_number(out, at as u64)
        }
        CommandFault::LiteralTooLarge => out.extend_from_slice(b"BAD Literal too large"),
        CommandFault::MessageTooLarge => out.extend_from_slice(b"NO [LIMIT] Message too large"),
        CommandFault::NoMemory => out.extend_from_slice(b"NO [UNAVAILABLE] Out of memory"),
    }
}

/// Appends the line that answers a text with this fault, and with this tag if it has one.
pub fn push_refusal(out: &mut Vec<u8>, tag: &[u8], fault: CommandFault) -> Result<(), AllocError>
    ensures { OnOk result (out.new.items ≡ out.old.items ++ fault_text tag.now fault) }
{
    out.extend_from_slice(fault_line_tag(fault, tag))?;
    out.extend_from_slice(b" ")?;
    push_fault_words(out, fault)?;
    out.extend_from_slice(b"\r\n")
}
