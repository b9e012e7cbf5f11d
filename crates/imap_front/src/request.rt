// Taking a request from a feed: lines of a command's text, octets of its literals, and the octets
// of its message.
ghost use Rattle.std.specs.Prelude.{◌≡◌, ◌≢◌, ◌≤◌, ◌++◌, List, ℕ, Option, length, is_some, IfOk, Ok};
ghost use Rattle.quota_units.specs.Causes.{HasCause};
ghost use Rattle.wire_io.specs.Feeds.{source_of, source_name, waiting_of, taken_of, handed_of, limit_of};
ghost use Rattle.imap_grammar.specs.declared.progress.Progress.TheVariants.{Message};
ghost use Rattle.imap_grammar.specs.Progressing.{progress_in, Fits};
ghost use Rattle.imap_grammar.specs.Requests.{ready};
ghost use Rattle.imap_grammar.specs.Reaching.{Reached};
ghost use Rattle.accounts_file.specs.Hosts.{Hosts};
ghost use Rattle.front_core.specs.Taking.{Takes, TakesRest};
ghost use Rattle.imap_front.specs.Imap.{imap};
ghost use Rattle.imap_front.specs.Taking.{request_taken, HasSizes};

use imap_grammar::{Command, CommandFault, MAX_TEXT, Progress, read_progress};
use quota_units::{Failed, NoMemory};
use std::alloc::Global;
use wire_io::{Feed, LineEnd, SessionEnd, Sink, Source, end_of, send};

/// What is written before octets are read (RFC 9051, section 7.5).
const READY: &[u8] = b"+ Ready\r\n";

/// A request that was taken from a feed, apart from its text: all bytes of it but the octets of its
/// message.
#[derive(Drop)]
pub enum Taken {
    /// A command. The first `tag` bytes of its text are its tag. Only APPEND has a message.
    Command {
        tag: usize,
        command: Command,
        message: Vec<u8>,
    },
    /// A text that is no command.
    Fault {
        fault: CommandFault,
    },
}

/// What the text has come to, or its fault.
#[inline(always)]
fn progress_of(
    alloc: Global,
    text: &[u8],
    login: Option<u32>,
) -> Result<Result<Progress, CommandFault>, NoMemory>
    ensures is { IfOk result (λ progress. progress ≡ progress_in (is_some login) text.now) }
    ensures fits { IfOk result (λ progress. IfOk progress (Fits text.now)) }
{
    match read_progress(alloc, text, login.is_some()) {
        Ok(progress) => Ok(Ok(progress)),
        Err(fault) => match fault {
            CommandFault::NoMemory => Err(NoMemory),
            _ => Ok(Err(fault)),
        },
    }
}

/// Takes the rest of a command after its message: the line's end. The request began at `at`, and
/// `text` is the command up to the message's marker.
fn take_last_line<S: Source>(
    alloc: Global,
    login: Option<u32>,
    feed: &mut Feed<'_, S>,
    at: u64,
    text: &mut Vec<u8>,
    message: Vec<u8>,
) -> Result<Taken, SessionEnd>
    requires marker { progress_in (is_some login) text.old.items
        ≡ Ok (Message (length message.items)) }
    requires fits { Fits text.old.items (Message (length message.items)) }
    ensures takes { (hosts : Hosts) (written : Option (List ℕ)) (said : List ℕ)
        → Reached (is_some login) text.old.items said
        → TakesRest (imap hosts) login (limit_of feed.old) (request_taken text.new.items)
        (S.left (source_of feed.old)) (S.left (source_of feed.new)) written written
        (waiting_of feed.old) (waiting_of feed.new) (taken_of feed.old) (taken_of feed.new) at
        (handed_of feed.old) (handed_of feed.new) (text.old.items ++ message.items) said result }
    ensures sizes { IfOk result (HasSizes text.new.items) }
    ensures same_source { source_name feed.new ≡ source_name feed.old }
    ensures same_limit { limit_of feed.new ≡ limit_of feed.old }
    ensures within { taken_of feed.new ≤ limit_of feed.new }
    ensures read_cause { HasCause (result ≡ Err SessionEnd.ReadFault)
        (S.faults (source_of feed.old)) (S.faults (source_of feed.new)) }
    ensures not_written { result ≢ Err SessionEnd.WriteFault }
{
    let room = MAX_TEXT - text.len();
    match feed.line(text, room) {
        Ok(LineEnd::Whole) => match progress_of(alloc, text, login) {
            Ok(Ok(progress)) => match progress {
                Progress::Whole { command, tag } => Ok(Taken::Command {
                    tag,
                    command,
                    message,
                }),
                _ => unreachable!(),
            },
            Ok(Err(fault)) => Ok(Taken::Fault { fault }),
            Err(NoMemory) => Err(SessionEnd::NoMemory),
        },
        Ok(LineEnd::TooLong) => Ok(Taken::Fault {
            fault: CommandFault::TooLong,
        }),
        Err(end) => Err(end_of(end, at, text.len() + message.len())),
    }
}

/// Takes the octets of a message and the rest of its command. The text of the command ends with the
/// message's marker. The request began at `at`.
fn take_message<S: Source, O: Sink>(
    alloc: Global,
    login: Option<u32>,
    feed: &mut Feed<'_, S>,
    sink: &mut O,
    at: u64,
    text: &mut Vec<u8>,
    count: usize,
) -> Result<Taken, SessionEnd>
    requires marker { progress_in (is_some login) text.old.items ≡ Ok (Message count) }
    requires fits { Fits text.old.items (Message count) }
    ensures takes { (hosts : Hosts) (said : List ℕ)
        → Reached (is_some login) text.old.items (said ++ ready)
        → TakesRest (imap hosts) login (limit_of feed.old) (request_taken text.new.items)
        (S.left (source_of feed.old)) (S.left (source_of feed.new)) (O.written sink.old)
        (O.written sink.new) (waiting_of feed.old) (waiting_of feed.new) (taken_of feed.old)
        (taken_of feed.new) at (handed_of feed.old) (handed_of feed.new) text.old.items said
        result }
    ensures sizes { IfOk result (HasSizes text.new.items) }
    ensures same_source { source_name feed.new ≡ source_name feed.old }
    ensures same_limit { limit_of feed.new ≡ limit_of feed.old }
    ensures within { taken_of feed.new ≤ limit_of feed.new }
    ensures read_cause { HasCause (result ≡ Err SessionEnd.ReadFault)
        (S.faults (source_of feed.old)) (S.faults (source_of feed.new)) }
    ensures write_cause { HasCause (result ≡ Err SessionEnd.WriteFault)
        (O.faults sink.old) (O.faults sink.new) }
{
    if let Err(Failed) = send(sink, READY) {
        return Err(SessionEnd::WriteFault);
    }
    let mut message = Vec::new(alloc);
    match feed.exact(&mut message, count) {
        Ok(()) => take_last_line(alloc, login, feed, at, text, message),
        Err(end) => Err(end_of(end, at, text.len() + message.len())),
    }
}

/// Takes one request from the feed, and writes its prompts. The bytes of the request, without the
/// octets of its message, are then all that `text` has.
///
/// # Errors
///
/// The session's end, if it ends within the request.
#[inline(always)]
pub fn take_request<S: Source, O: Sink>(
    alloc: Global,
    login: Option<u32>,
    feed: &mut Feed<'_, S>,
    sink: &mut O,
    text: &mut Vec<u8>,
) -> Result<Taken, SessionEnd>
    // All of the request came, and its prompts are written; or the session ended within it.
    ensures takes { (hosts : Hosts) → Takes (imap hosts) login (limit_of feed.old)
        (request_taken text.new.items) (S.left (source_of feed.old)) (S.left (source_of feed.new))
        (O.written sink.old) (O.written sink.new) (waiting_of feed.old) (waiting_of feed.new)
        (taken_of feed.old) (taken_of feed.new) (handed_of feed.old) (handed_of feed.new) result }
    ensures sizes { IfOk result (HasSizes text.new.items) }
    ensures same_source { source_name feed.new ≡ source_name feed.old }
    ensures same_limit { limit_of feed.new ≡ limit_of feed.old }
    ensures within { taken_of feed.new ≤ limit_of feed.new }
    ensures read_cause { HasCause (result ≡ Err SessionEnd.ReadFault)
        (S.faults (source_of feed.old)) (S.faults (source_of feed.new)) }
    ensures write_cause { HasCause (result ≡ Err SessionEnd.WriteFault)
        (O.faults sink.old) (O.faults sink.new) }
{
    let at = feed.at();
    text.clear();
    loop {
        let room = MAX_TEXT - text.len();
        match feed.line(text, room) {
            Ok(LineEnd::Whole) => {}
            Ok(LineEnd::TooLong) => {
                return Ok(Taken::Fault {
                    fault: CommandFault::TooLong,
                });
            }
            Err(end) => return Err(end_of(end, at, text.len())),
        }
        match progress_of(alloc, text, login) {
            Ok(Ok(Progress::Whole { command, tag })) => {
                return Ok(Taken::Command {
                    tag,
                    command,
                    message: Vec::new(alloc),
                });
            }
            Ok(Ok(Progress::More { .. })) => {}
            Ok(Ok(Progress::Literal { count })) => {
                if let Err(Failed) = send(sink, READY) {
                    return Err(SessionEnd::WriteFault);
                }
                if let Err(end) = feed.exact(text, count) {
                    return Err(end_of(end, at, text.len()));
                }
            }
            Ok(Ok(Progress::Message { count })) => {
                return take_message(alloc, login, feed, sink, at, text, count);
            }
            Ok(Err(fault)) => return Ok(Taken::Fault { fault }),
            Err(NoMemory) => return Err(SessionEnd::NoMemory),
        }
    }
}
