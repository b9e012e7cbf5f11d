// One session of a policy server over a desk of accounts.
ghost use Rattle.std.specs.Prelude.{◌≡◌, ◌⊎◌, IfSome, None};
ghost use Rattle.quota_units.specs.Causes.{HasCause, Rose};
ghost use Rattle.wire_io.specs.Session.{EndsAsDecided};
ghost use Rattle.desk.specs.Shares.{HaveNoFailure};
ghost use Rattle.desk.specs.Logs.{IsLog, IsRepliedLog};
ghost use Rattle.front_core.specs.Desks.{input_limit, IsDeskOf};
ghost use Rattle.policy_front.specs.Policy.{policy};
ghost use Rattle.policy_front.specs.Serving.{IsPolicySession};

use crate::asking::answer_request;
use crate::taking::take_request;
use accounts_file::HostTable;
use desk::Desk;
use front_core::INPUT_LIMIT;
use quota_units::{Failed, NoMemory};
use std::alloc::Global;
use wire_io::{After, Feed, Service, SessionEnd, Sink, Source, run_service, send};

/// A session of a policy server for a table's accounts. It keeps the room for texts, messages and
/// answers from one request to the next.
#[derive(Drop)]
pub(crate) struct PolicySession<'a> {
    table: &'a HostTable,
    /// The text of the last request.
    text: Vec<u8>,
    /// The message of the last request; empty if it was no delivery.
    message: Vec<u8>,
    /// The answer to the last request.
    answer: Vec<u8>,
}

impl<'a, D: Desk> Service<D> for PolicySession<'a> {
    ghost use Rattle.std.specs.Prelude.{ℕ, Option, None};
    ghost use Rattle.account_core.specs.History.{Answer as CallAnswer};
    ghost use Rattle.desk.specs.Asking.{DeskCall};
    ghost use Rattle.policy_front.specs.Requests.{Request as PolicyTaken};
    ghost use Rattle.desk.specs.Logs.{IsLog};
    ghost use Rattle.desk.proofs.Logging.{log_nothing, logs_join};
    ghost use Rattle.front_core.specs.Desks.{IsDeskOf};
    ghost use Rattle.policy_front.specs.Policy.{policy};
    ghost use Rattle.policy_front.specs.OneWay.{policy_one_way};
    ghost use Rattle.policy_front.specs.Filled.{policy_filled};

    ghost State = { Option ℕ };

    ghost Request = { PolicyTaken };

    ghost Call = { DeskCall };

    ghost Answer = { CallAnswer };

    ghost protocol = { λ session. policy session.table.now };

    ghost state = { λ session. None };

    ghost fits = { λ session desk. IsDeskOf session.table.now (D.shares desk) };

    ghost logged = { λ desk desk' log. IsLog (D.shares desk) (D.shares desk') log
        × D.leads desk desk' };

    fn serve<S: Source, O: Sink>(
        &mut self,
        alloc: Global,
        desk: &mut D,
        feed: &mut Feed<'_, S>,
        sink: &mut O,
    ) -> Result<After, SessionEnd> {
        let request = take_request(feed, &mut self.text, &mut self.message)?;
        match answer_request(
            alloc,
            self.table,
            desk,
            request,
            &self.message,
            &mut self.answer,
        ) {
            Ok(after) => match send(sink, &self.answer) {
                Ok(()) => Ok(after),
                Err(Failed) => Err(SessionEnd::WriteFault),
            },
            Err(NoMemory) => Err(SessionEnd::NoMemory),
        }
    }

    ghost logged_none = { λ desk. (log_nothing (D.shares desk), D.leads_itself desk) };

    ghost logged_on = { λ first between last log more one two. (
      logs_join (D.shares first) (D.shares between) (D.shares last) log more one.0 two.0,
      D.leads_on first between last one.1 two.1,
    ) };

    ghost filled = { λ session. policy_filled session.table.now };

    ghost one_way = { λ session. policy_one_way session.table.now };
}

/// Serves a session of a policy server for the table's accounts to its end. It reads the source,
/// asks the desk, and writes to the sink. It writes nothing before the first request.
///
/// The session takes at most 1073741824 bytes from the source.
pub fn run_policy<S: Source, O: Sink, D: Desk>(
    alloc: Global,
    table: &HostTable,
    desk: &mut D,
    source: &mut S,
    sink: &mut O,
) -> SessionEnd
    requires desk { IsDeskOf table.now (D.shares desk.old) }

    // What is written answers what is read. Each reply is the account machine's, at its call's
    // place in the account's history.
    ensures session { IsPolicySession table.now (IsLog (D.shares desk.old) (D.shares desk.new))
        (S.left source.old) (S.left source.new) (O.written sink.old) (O.written sink.new) result }

    // If no entry that the desk has seen by the end has fault, and no history is full then, each
    // call of the session got the account machine's own reply.
    ensures replied { HaveNoFailure (D.shares desk.new) → IsPolicySession table.now
        (IsRepliedLog (D.shares desk.old) (D.shares desk.new))
        (S.left source.old) (S.left source.new) (O.written sink.old) (O.written sink.new) result }

    // The session keeps of the desk what each call keeps.
    ensures leads { D.leads desk.old desk.new }

    // The end is `ReadFault` if a read failed, and `WriteFault` if a write failed. No other failure
    // is counted.
    ensures read_cause { HasCause (result ≡ SessionEnd.ReadFault)
        (S.faults source.old) (S.faults source.new) }
    ensures write_cause { HasCause (result ≡ SessionEnd.WriteFault)
        (O.faults sink.old) (O.faults sink.new) }

    // The input decides an end. The session has that end unless something failed or memory ran out.
    ensures decided { IfSome (S.left source.old) (λ input.
        EndsAsDecided (policy table.now) None input_limit input
        (Rose (S.faults source.old) (S.faults source.new)
        ⊎ Rose (O.faults sink.old) (O.faults sink.new)) result) }
{
    let mut session = PolicySession {
        table,
        text: Vec::new(alloc),
        message: Vec::new(alloc),
        answer: Vec::new(alloc),
    };
    run_service(alloc, &mut session, desk, INPUT_LIMIT, b"", source, sink)
}
