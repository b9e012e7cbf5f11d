// Taking a request from a feed: its head, line by line, and the octets of its body.
ghost use Rattle.std.specs.Prelude.{◌≡◌, ◌≢◌, ◌≤◌, ◌<◌, ◌+◌, if◌then◌else◌, ℕ, List, [], Option, length, Ok, Err, IfOk, IfErr, OnOk, OnErr, IsErrOf};
ghost use Rattle.quota_units.specs.Causes.{HasCause};
ghost use Rattle.wire_io.specs.Feeding.{Hands};
ghost use Rattle.wire_io.specs.Feeds.{source_of, source_name, waiting_of, taken_of, handed_of, limit_of};
ghost use Rattle.http_front.specs.Heads.{ends_head};
ghost use Rattle.http_front.specs.Requests.{continue_text, after};
ghost use Rattle.http_front.specs.Taking.{request_taken, IsPartOfHead, EndsHead, Stops, Takes};

use crate::reading::{Head, MAX_HEAD, read_head};
use crate::refusal::Refusal;
use quota_units::Failed;
use wire_io::{After, Feed, FeedEnd, LineEnd, SessionEnd, Sink, Source, end_of, send};

/// Whether the bytes end with an empty line after another line.
fn ends_head(bytes: &[u8]) -> bool
    ensures { result ≡ ends_head bytes.now }
{
    bytes.ends_with(b"\n\n") || bytes.ends_with(b"\n\r\n")
}

/// Takes a head, up to and with its empty line, into `head`, which is empty, and returns `Whole`.
/// If the next 16384 bytes hold no head, it takes those, and returns `TooLong`.
fn take_head<S: Source>(feed: &mut Feed<'_, S>, head: &mut Vec<u8>) -> Result<LineEnd, FeedEnd>
    requires empty { head.old.items ≡ [] }
    ensures hands { Hands (S.left (source_of feed.old)) (S.left (source_of feed.new))
        (waiting_of feed.old) (waiting_of feed.new) (taken_of feed.old) (taken_of feed.new)
        head.new.items }
    ensures counts { handed_of feed.new ≡ handed_of feed.old + length head.new.items }
    ensures head { IfOk result (λ end. EndsHead end head.new.items) }
    ensures part { OnErr result (IsPartOfHead head.new.items) }
    ensures stops { IfErr result (λ end. Stops end (S.left (source_of feed.new))
        (waiting_of feed.new) (taken_of feed.new) (limit_of feed.new)) }
    ensures same_source { source_name feed.new ≡ source_name feed.old }
    ensures same_limit { limit_of feed.new ≡ limit_of feed.old }
    ensures within { taken_of feed.new ≤ limit_of feed.new }
    ensures cause { HasCause (IsErrOf result FeedEnd.Fault) (S.faults (source_of feed.old))
        (S.faults (source_of feed.new)) }
{
    loop {
        let room = MAX_HEAD - head.len();
        match feed.line(head, room) {
            Ok(LineEnd::Whole) => {}
            Ok(LineEnd::TooLong) => return Ok(LineEnd::TooLong),
            Err(end) => return Err(end),
        }
        if ends_head(head) {
            return Ok(LineEnd::Whole);
        }
    }
}

/// What is written before a body is taken.
fn prompt_text(expects: bool) -> &'static [u8]
    ensures { result.now ≡ (if expects then continue_text else []) }
{
    if expects {
        b"HTTP/1.1 100 Continue\r\n\r\n"
    } else {
        b""
    }
}

/// Takes one request from the feed. Its head, of at most 16384 bytes, is in `head` then, and its
/// body, of at most 1048576 octets, in `body`. It returns what the head asks for, or the head's
/// refusal; no body is taken then. If the head expects `100 Continue`, that is written before the
/// body is taken.
///
/// # Errors
///
/// The session's end, if it ends within the request.
pub fn take_request<'a, S: Source, O: Sink>(
    feed: &mut Feed<'_, S>,
    sink: &mut O,
    head: &'a mut Vec<u8>,
    body: &mut Vec<u8>,
) -> Result<Result<Head<'a>, Refusal>, SessionEnd>
    // The bytes that were taken are the shortest prefix of the input that is a whole request, and
    // its prompt was written; or the session ended within it.
    ensures takes { Takes (limit_of feed.old) (request_taken body.new.items)
        (S.left (source_of feed.old)) (S.left (source_of feed.new))
        (O.written sink.old) (O.written sink.new)
        (waiting_of feed.old) (waiting_of feed.new) (taken_of feed.old) (taken_of feed.new)
        (handed_of feed.old) (handed_of feed.new) result }

    // The source stays the one that was lent, and no more is taken from it than the limit.
    ensures same_source { source_name feed.new ≡ source_name feed.old }
    ensures same_limit { limit_of feed.new ≡ limit_of feed.old }
    ensures within { taken_of feed.new ≤ limit_of feed.new }
    ensures progress { OnOk result (handed_of feed.old < handed_of feed.new) }

    // The end is `ReadFault` if a read failed, and `WriteFault` if a write failed. No other failure
    // is counted.
    ensures read_cause { HasCause (result ≡ Err SessionEnd.ReadFault)
        (S.faults (source_of feed.old)) (S.faults (source_of feed.new)) }
    ensures write_cause { HasCause (result ≡ Err SessionEnd.WriteFault)
        (O.faults sink.old) (O.faults sink.new) }
{
    head.clear();
    body.clear();
    let at = feed.at();
    match take_head(feed, head) {
        Ok(LineEnd::Whole) => {}
        Ok(LineEnd::TooLong) => return Ok(Err(Refusal::HeadTooLarge)),
        Err(end) => return Err(end_of(end, at, head.len())),
    }
    let asked = match read_head(head) {
        Ok(asked) => asked,
        Err(refusal) => return Ok(Err(refusal)),
    };
    if let Err(Failed) = send(sink, prompt_text(asked.expects)) {
        return Err(SessionEnd::WriteFault);
    }
    match feed.exact(body, asked.size as usize) {
        Ok(()) => Ok(Ok(asked)),
        Err(end) => Err(end_of(end, at, head.len() + body.len())),
    }
}

/// What the session does after it has answered the request that was taken: it closes if the head
/// was refused, or if the head says so.
pub fn after_answer(taken: Result<Head<'_>, Refusal>) -> After
    ensures { (body : List ℕ) → result ≡ after (request_taken body taken.entry) }
{
    match taken {
        Ok(head) if !head.closes => After::Open,
        _ => After::Closing,
    }
}
