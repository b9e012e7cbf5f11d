// One session of IMAP over a desk of accounts.
ghost use Rattle.std.specs.Prelude.{◌≡◌, ◌⊎◌, [], IfSome};
ghost use Rattle.quota_units.specs.Causes.{HasCause, Rose};
ghost use Rattle.wire_io.specs.Session.{EndsAsDecided};
ghost use Rattle.desk.specs.Shares.{HaveNoFailure};
ghost use Rattle.desk.specs.Logs.{IsLog, IsRepliedLog};
ghost use Rattle.imap_front.specs.Imap.{imap};
ghost use Rattle.front_core.specs.Desks.{input_limit, IsDeskOf, IsLogin};
ghost use Rattle.imap_front.specs.Serving.{IsImapSession};

use crate::request::take_request;
use crate::response::answer_request;
use crate::texts::greeting_of;
use accounts_file::HostTable;
use desk::Desk;
use front_core::INPUT_LIMIT;
use quota_units::{Failed, NoMemory};
use std::alloc::Global;
use wire_io::{After, Feed, Service, SessionEnd, Sink, Source, run_service, send};

/// A session of IMAP of a table's accounts.
#[derive(Drop)]
pub(crate) struct ImapSession<'a> {
    table: &'a HostTable,
    /// The number of the account that is logged in; `None` if nobody is.
    login: Option<u32>,
    /// The text of the request that is served: all bytes of it but the octets of its message. Each
    /// request begins with the room that the last one left.
    text: Vec<u8>,
    /// The answer to it.
    answer: Vec<u8>,
}

/// The room that the text of a request and its answer begin with, in bytes: most fit, so that they
/// are not moved.
const ROOM: usize = 128;

/// An empty text, with this room if there is memory for it.
fn empty_text(alloc: Global) -> Vec<u8>
    ensures items { result.items ≡ [] }
{
    match Vec::with_capacity(alloc, ROOM) {
        Ok(text) => text,
        Err(_) => Vec::new(alloc),
    }
}

impl<'a, D: Desk> Service<D> for ImapSession<'a> {
    ghost use Rattle.std.specs.Prelude.{ℕ, Option};
    ghost use Rattle.account_core.specs.History.{Answer as CallAnswer};
    ghost use Rattle.desk.specs.Asking.{DeskCall};
    ghost use Rattle.imap_grammar.specs.Requests.{Request as ImapRequest};
    ghost use Rattle.desk.specs.Logs.{IsLog};
    ghost use Rattle.desk.proofs.Logging.{log_nothing, logs_join};
    ghost use Rattle.imap_front.specs.Imap.{imap};
    ghost use Rattle.front_core.specs.Desks.{IsDeskOf, IsLogin};
    ghost use Rattle.imap_front.specs.Filled.{imap_filled};
    ghost use Rattle.imap_front.specs.OneWay.{imap_one_way};

    ghost State = { Option ℕ };

    ghost Request = { ImapRequest };

    ghost Call = { DeskCall };

    ghost Answer = { CallAnswer };

    ghost protocol = { λ session. imap session.table.now };

    ghost state = { λ session. session.login };

    ghost fits = { λ session desk. IsDeskOf session.table.now (D.shares desk)
        × IsLogin session.table.now session.login };

    ghost logged = { λ desk desk' log. IsLog (D.shares desk) (D.shares desk') log
        × D.leads desk desk' };

    fn serve<S: Source, O: Sink>(
        &mut self,
        alloc: Global,
        desk: &mut D,
        feed: &mut Feed<'_, S>,
        sink: &mut O,
    ) -> Result<After, SessionEnd> {
        let request = take_request(alloc, self.login, feed, sink, &mut self.text)?;
        match answer_request(
            alloc,
            self.table,
            self.login,
            desk,
            &self.text,
            request,
            &mut self.answer,
        ) {
            Ok(onward) => {
                self.login = onward.login;
                match send(sink, &self.answer) {
                    Ok(()) => Ok(onward.after),
                    Err(Failed) => Err(SessionEnd::WriteFault),
                }
            }
            Err(NoMemory) => Err(SessionEnd::NoMemory),
        }
    }

    ghost logged_none = { λ desk. (log_nothing (D.shares desk), D.leads_itself desk) };

    ghost logged_on = { λ first between last log more one two. (
      logs_join (D.shares first) (D.shares between) (D.shares last) log more one.0 two.0,
      D.leads_on first between last one.1 two.1,
    ) };

    ghost filled = { λ session. imap_filled session.table.now };

    ghost one_way = { λ session. imap_one_way session.table.now };
}

/// Serves a session of IMAP of the table's accounts to its end. It reads the source, asks the desk,
/// and writes to the sink.
///
/// `as_account` is the number of the account whose owner is logged in from the start; if it is
/// `None`, nobody is. The session takes at most 1073741824 bytes from the source.
pub fn run_imap<S: Source, O: Sink, D: Desk>(
    alloc: Global,
    as_account: Option<u32>,
    table: &HostTable,
    desk: &mut D,
    source: &mut S,
    sink: &mut O,
) -> SessionEnd
    requires desk { IsDeskOf table.now (D.shares desk.old) }
    requires account { IsLogin table.now as_account }

    // What is written answers what is read. Each reply is the account machine's, at its call's
    // place in the account's history.
    ensures session { IsImapSession table.now as_account
        (IsLog (D.shares desk.old) (D.shares desk.new))
        (S.left source.old) (S.left source.new) (O.written sink.old) (O.written sink.new) result }

    // If no entry that the desk has seen by the end has fault, and no history is full then, each
    // call of the session got the account machine's own reply.
    ensures replied { HaveNoFailure (D.shares desk.new) → IsImapSession table.now as_account
        (IsRepliedLog (D.shares desk.old) (D.shares desk.new))
        (S.left source.old) (S.left source.new) (O.written sink.old) (O.written sink.new) result }

    // The session keeps of the desk what each call keeps.
    ensures leads { D.leads desk.old desk.new }

    // The end is `ReadFault` if a read failed, and `WriteFault` if a write failed. No other failure
    // is counted.
    ensures read_cause { HasCause (result ≡ SessionEnd.ReadFault)
        (S.faults source.old) (S.faults source.new) }
    ensures write_cause { HasCause (result ≡ SessionEnd.WriteFault)
        (O.faults sink.old) (O.faults sink.new) }

    // The input decides an end. The session has that end unless something failed or memory ran out.
    ensures decided { IfSome (S.left source.old) (λ input.
        EndsAsDecided (imap table.now) as_account input_limit input
        (Rose (S.faults source.old) (S.faults source.new)
        ⊎ Rose (O.faults sink.old) (O.faults sink.new)) result) }
{
    let mut session = ImapSession {
        table,
        login: as_account,
        text: empty_text(alloc),
        answer: empty_text(alloc),
    };
    let greeting = greeting_of(as_account);
    run_service(
        alloc,
        &mut session,
        desk,
        INPUT_LIMIT,
        greeting,
        source,
        sink,
    )
}
