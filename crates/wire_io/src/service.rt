// The loop over requests. It is one for the sessions of all protocols.
ghost use Rattle.std.specs.Prelude.{◌≡◌, ◌≢◌, ◌≤◌, ◌<◌, ◌⊎◌, ◌++◌, ℕ, List, [], OnOk, IfSome};
ghost use Rattle.quota_units.specs.Causes.{HasCause, Rose};
ghost use Rattle.wire_io.specs.Feeds.{source_of, source_name, waiting_of, taken_of, handed_of, limit_of};
ghost use Rattle.wire_io.specs.Protocol.{Protocol, IsFilled};
ghost use Rattle.wire_io.specs.Session.{EndsOneWay, EndsAsDecided};
ghost use Rattle.wire_io.specs.Requests.{end_at, ServesRequest};
ghost use Rattle.wire_io.specs.Serving.{IsSession, IsServed};

use super::ends::{After, FeedEnd, SessionEnd};
use super::feed::Feed;
use super::source::{Sink, Source, send};
use quota_units::Failed;
use std::alloc::Global;

/// What speaks a protocol. It serves one request after another, and makes its calls on a world,
/// such as the accounts of a host.
pub trait Service<W> {
    /// What a session knows between two requests.
    ghost State: { Type 0 };

    /// What a request is.
    ghost Request: { Type 0 };

    /// What the world is asked.
    ghost Call: { Type 0 };

    /// What it answers.
    ghost Answer: { Type 0 };

    /// The protocol that it speaks.
    ghost protocol: { Self → Protocol State Request Call Answer };

    /// What is known before the next request, such as who is logged in.
    ghost state: { Self → State };

    /// What it and its world have to meet; each request keeps it.
    ghost fits: { Self → W → Type 0 };

    /// These calls with their answers led from the one world to the other.
    ghost logged: { W → W → List (Call × Answer) → Type 0 };

    /// Takes one request from the feed, makes its calls on the world, and writes the answer. It
    /// returns what the session does then, or the session's end if it ends during the request.
    fn serve<S: Source, O: Sink>(
        &mut self,
        alloc: Global,
        world: &mut W,
        feed: &mut Feed<'_, S>,
        sink: &mut O,
    ) -> Result<After, SessionEnd>
        requires { fits self.old world.old }
        ensures fits { fits self.new world.new }
        ensures same_protocol { protocol self.new ≡ protocol self.old }

        // What is written answers what is taken, and the calls are those that the request asks for.
        ensures serves { ServesRequest (protocol self.old) (limit_of feed.old) (state self.old)
            (state self.new) (logged world.old world.new) (S.left (source_of feed.old))
            (S.left (source_of feed.new)) (O.written sink.old) (O.written sink.new)
            (waiting_of feed.old) (waiting_of feed.new) (taken_of feed.old) (taken_of feed.new)
            (handed_of feed.old) (handed_of feed.new) result }

        // The source stays the one that was lent, and no more is taken from it than the limit.
        ensures same_source { source_name feed.new ≡ source_name feed.old }
        ensures same_limit { limit_of feed.new ≡ limit_of feed.old }
        ensures within { taken_of feed.new ≤ limit_of feed.new }
        ensures progress { OnOk result (handed_of feed.old < handed_of feed.new) }

        // The end is `ReadFault` if a read failed, and `WriteFault` if a write failed. No other
        // failure is counted.
        ensures read_cause { HasCause (result ≡ Err SessionEnd.ReadFault)
            (S.faults (source_of feed.old)) (S.faults (source_of feed.new)) }
        ensures write_cause { HasCause (result ≡ Err SessionEnd.WriteFault)
            (O.faults sink.old) (O.faults sink.new) };

    /// No call leads from a world to itself.
    ghost logged_none: { (world : W) → logged world world [] };

    /// Calls that led from one world to another, and more calls from there on, together led to
    /// where the latter led.
    ghost logged_on: { (first between last : W) (log more : List (Call × Answer))
        → logged first between log → logged between last more → logged first last (log ++ more) };

    /// Each text can be continued to a whole request.
    ghost filled: { (service : Self) → IsFilled (protocol service) };

    /// What the session does after a request does not depend on the answers to its calls.
    ghost one_way: { (service : Self) → EndsOneWay (protocol service) };
}

/// The session's end if the feed ends within a request that begins at `at`, after `come` bytes of
/// the request.
pub fn end_of(end: FeedEnd, at: u64, come: usize) -> SessionEnd
    ensures { result ≡ end_at end at come }
{
    match end {
        FeedEnd::Fault => SessionEnd::ReadFault,
        FeedEnd::Limit => SessionEnd::InputLimit,
        FeedEnd::NoMemory => SessionEnd::NoMemory,
        FeedEnd::Ended => match come {
            0 => SessionEnd::Closed,
            _ => SessionEnd::Truncated { at },
        },
    }
}

/// Serves one request after another to the session's end.
fn serve_all<W, F: Service<W>, S: Source, O: Sink>(
    alloc: Global,
    service: &mut F,
    world: &mut W,
    feed: &mut Feed<'_, S>,
    sink: &mut O,
) -> SessionEnd
    requires fits { F.fits service.old world.old }
    requires empty { waiting_of feed.old ≡ [] }
    requires untaken { taken_of feed.old ≡ 0 }
    requires at_start { handed_of feed.old ≡ 0 }
    ensures served { IsServed (F.protocol service.old) (F.state service.old) (limit_of feed.old)
        (F.logged world.old world.new) (S.left (source_of feed.old)) (S.left (source_of feed.new))
        (O.written sink.old) (O.written sink.new) result }
    ensures fits { F.fits service.new world.new }
    ensures same_protocol { F.protocol service.new ≡ F.protocol service.old }
    ensures same_source { source_name feed.new ≡ source_name feed.old }
    ensures read_cause { HasCause (result ≡ SessionEnd.ReadFault)
        (S.faults (source_of feed.old)) (S.faults (source_of feed.new)) }
    ensures write_cause { HasCause (result ≡ SessionEnd.WriteFault)
        (O.faults sink.old) (O.faults sink.new) }
{
    loop {
        match service.serve(alloc, world, feed, sink) {
            Ok(After::Open) => {}
            Ok(After::Closing) => return SessionEnd::Closed,
            Ok(After::Stopping) => return SessionEnd::Stopped,
            Err(end) => return end,
        }
    }
}

/// Serves a session to its end. It writes the greeting, and then serves one request after another.
///
/// It takes at most `limit` bytes from the source.
pub fn run_service<W, F: Service<W>, S: Source, O: Sink>(
    alloc: Global,
    service: &mut F,
    world: &mut W,
    limit: u64,
    greeting: &[u8],
    source: &mut S,
    sink: &mut O,
) -> SessionEnd
    requires { F.fits service.old world.old }

    // What is written answers what is read, and the calls are those that the requests ask for.
    ensures session { IsSession (F.protocol service.old) greeting.now (F.state service.old) limit
        (F.logged world.old world.new) (S.left source.old) (S.left source.new) (O.written sink.old)
        (O.written sink.new) result }
    ensures fits { F.fits service.new world.new }
    ensures same_protocol { F.protocol service.new ≡ F.protocol service.old }

    // The end is `ReadFault` if a read failed, and `WriteFault` if a write failed. No other failure
    // is counted.
    ensures read_cause { HasCause (result ≡ SessionEnd.ReadFault)
        (S.faults source.old) (S.faults source.new) }
    ensures write_cause { HasCause (result ≡ SessionEnd.WriteFault)
        (O.faults sink.old) (O.faults sink.new) }

    // The input decides an end. The session has that end unless something failed or memory ran out.
    ensures decided { IfSome (S.left source.old) (λ input.
        EndsAsDecided (F.protocol service.old) (F.state service.old) limit input
        (Rose (S.faults source.old) (S.faults source.new)
        ⊎ Rose (O.faults sink.old) (O.faults sink.new)) result) }
{
    if let Err(Failed) = send(sink, greeting) {
        return SessionEnd::WriteFault;
    }
    match Feed::new(source, limit) {
        Ok(mut feed) => serve_all(alloc, service, world, &mut feed, sink),
        Err(_) => unreachable!(),
    }
}
