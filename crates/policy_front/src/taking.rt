// Taking a request from a feed: the lines of its text, and the octets of its message.
ghost use Rattle.std.specs.Prelude.{◌≡◌, ◌≢◌, ◌≤◌, ℕ, List, [], Option, length, IfOk, OnOk};
ghost use Rattle.quota_units.specs.Causes.{HasCause};
ghost use Rattle.wire_io.specs.Feeds.{source_of, source_name, waiting_of, taken_of, handed_of, limit_of};
ghost use Rattle.accounts_file.specs.Hosts.{Hosts};
ghost use Rattle.front_core.specs.Taking.{Takes, TakesRest};
ghost use Rattle.policy_front.specs.Policy.{policy};
ghost use Rattle.policy_front.specs.Taking.{is_empty_line, request_taken, EndsText, IsText, TakesText};

use crate::reading::{MAX_TEXT, PolicyFault, PolicyRequest, read_request};
use wire_io::{Feed, LineEnd, SessionEnd, Source, end_of};

/// Whether the line is empty but for its end.
fn is_empty_line(line: &[u8]) -> bool
    ensures { result ≡ is_empty_line line.now }
{
    matches!(line, b"\n" | b"\r\n")
}

/// Takes the text of a request, up to and with its empty line, into `text`, which is empty, and
/// returns `Whole`. If the next 8192 bytes hold no empty line, it takes those, and returns
/// `TooLong`.
fn take_text<S: Source>(feed: &mut Feed<'_, S>, text: &mut Vec<u8>) -> Result<LineEnd, SessionEnd>
    requires empty { text.old.items ≡ [] }
    ensures takes { (hosts : Hosts) (login : Option ℕ) (message : List ℕ)
        (written : Option (List ℕ)) → TakesText hosts login (limit_of feed.old) message
        (S.left (source_of feed.old)) (S.left (source_of feed.new)) written (waiting_of feed.old)
        (waiting_of feed.new) (taken_of feed.old) (taken_of feed.new) (handed_of feed.old)
        (handed_of feed.new) text.new.items result }
    ensures text { IfOk result (λ end. EndsText end text.new.items) }
    ensures same_source { source_name feed.new ≡ source_name feed.old }
    ensures same_limit { limit_of feed.new ≡ limit_of feed.old }
    ensures within { taken_of feed.new ≤ limit_of feed.new }
    ensures read_cause { HasCause (result ≡ Err SessionEnd.ReadFault)
        (S.faults (source_of feed.old)) (S.faults (source_of feed.new)) }
    ensures not_written { result ≢ Err SessionEnd.WriteFault }
{
    let at = feed.at();
    loop {
        let begin = text.len();
        let room = MAX_TEXT - begin;
        match feed.line(text, room) {
            Ok(LineEnd::Whole) => {}
            Ok(LineEnd::TooLong) => return Ok(LineEnd::TooLong),
            Err(end) => return Err(end_of(end, at, text.len())),
        }
        if is_empty_line(&text[begin..]) {
            return Ok(LineEnd::Whole);
        }
    }
}

/// Reads the text of a request that began at `at`. If it is a delivery, its message is taken into
/// `message`, which is empty.
fn take_message<'a, S: Source>(
    feed: &mut Feed<'_, S>,
    at: u64,
    text: &'a [u8],
    message: &mut Vec<u8>,
) -> Result<Result<PolicyRequest<'a>, PolicyFault>, SessionEnd>
    requires text { IsText text.now }
    requires empty { message.old.items ≡ [] }
    ensures takes { (hosts : Hosts) (login : Option ℕ) (written : Option (List ℕ))
        → TakesRest (policy hosts) login (limit_of feed.old) (request_taken message.new.items)
        (S.left (source_of feed.old)) (S.left (source_of feed.new)) written written
        (waiting_of feed.old) (waiting_of feed.new) (taken_of feed.old) (taken_of feed.new) at
        (handed_of feed.old) (handed_of feed.new) text.now [] result }
    ensures small { OnOk result (length message.new.items ≤ 67108864) }
    ensures same_source { source_name feed.new ≡ source_name feed.old }
    ensures same_limit { limit_of feed.new ≡ limit_of feed.old }
    ensures within { taken_of feed.new ≤ limit_of feed.new }
    ensures read_cause { HasCause (result ≡ Err SessionEnd.ReadFault)
        (S.faults (source_of feed.old)) (S.faults (source_of feed.new)) }
    ensures not_written { result ≢ Err SessionEnd.WriteFault }
{
    match read_request(text) {
        Ok(request) => match request {
            PolicyRequest::Deliver { octets, .. } => match feed.exact(message, octets as usize) {
                Ok(()) => Ok(Ok(request)),
                Err(end) => Err(end_of(end, at, text.len() + message.len())),
            },
            _ => Ok(Ok(request)),
        },
        Err(fault) => Ok(Err(fault)),
    }
}

/// Takes one request from the feed. Its text, of at most 8192 bytes, is in `text` then, and its
/// message, of at most 67108864 octets, in `message`, which is empty if it is no delivery. It
/// returns what the text asks for; a request that is none has a fault.
///
/// # Errors
///
/// The session's end, if it ends within the request.
pub(crate) fn take_request<'a, S: Source>(
    feed: &mut Feed<'_, S>,
    text: &'a mut Vec<u8>,
    message: &mut Vec<u8>,
) -> Result<Result<PolicyRequest<'a>, PolicyFault>, SessionEnd>
    // All of the request came; or the session ended within it.
    ensures takes { (hosts : Hosts) (login : Option ℕ) (written : Option (List ℕ))
        → Takes (policy hosts) login (limit_of feed.old) (request_taken message.new.items)
        (S.left (source_of feed.old)) (S.left (source_of feed.new)) written written
        (waiting_of feed.old) (waiting_of feed.new) (taken_of feed.old) (taken_of feed.new)
        (handed_of feed.old) (handed_of feed.new) result }
    ensures small { OnOk result (length message.new.items ≤ 67108864) }
    ensures same_source { source_name feed.new ≡ source_name feed.old }
    ensures same_limit { limit_of feed.new ≡ limit_of feed.old }
    ensures within { taken_of feed.new ≤ limit_of feed.new }
    ensures read_cause { HasCause (result ≡ Err SessionEnd.ReadFault)
        (S.faults (source_of feed.old)) (S.faults (source_of feed.new)) }
    ensures not_written { result ≢ Err SessionEnd.WriteFault }
{
    text.clear();
    message.clear();
    let at = feed.at();
    match take_text(feed, text) {
        Ok(LineEnd::Whole) => take_message(feed, at, text, message),
        Ok(LineEnd::TooLong) => Ok(Err(PolicyFault::BadRequest)),
        Err(end) => Err(end),
    }
}
