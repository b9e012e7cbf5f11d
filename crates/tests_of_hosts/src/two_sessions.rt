// Two callers of one account, with a session each.
ghost use Rattle.std.specs.Prelude.{◌≡◌};
ghost use Rattle.account_host.specs.Leading.{Leads, shares_of};
ghost use Rattle.account_host.specs.Seating.{IsSetOf};
ghost use Rattle.account_host.specs.Sets.{AreLater, views_of};
ghost use Rattle.front_core.specs.Desks.{IsDeskOf, IsLogin};
ghost use Rattle.sessions.specs.Fronts.{start_of};
ghost use Rattle.tests_of_hosts.specs.Sets.{numbers_of, shares_in};

use crate::closing::close_all;
use crate::headline::session_over_seats;
use crate::opening::{enlist, open_host};
use account_host::{Host, SeatSet, Seats};
use accounts_file::{HostTable, read_accounts};
use keeper::{Keeper, MemKeeper};
use sessions::Front;
use std::alloc::Global;
use std::sync::Wait;
use std::test::Fail;
use wire_io::{MemSink, MemSource, SessionEnd};

/// An account without limits.
const ANN: &str = "[[account]]
name = \"ann\"
password = \"pw\"
token = \"tok\"
admin = true
mailboxes = [\"INBOX\", \"Lists\", \"Trash\"]
[[account.root]]
";

/// What each of the two sends: a message of ten octets, then a limit, then a question.
const INPUT: &[u8] = b"a1 APPEND INBOX {10}\r\n0123456789\r\n\
a2 SETQUOTA \"\" (MESSAGE 100)\r\na3 GETQUOTAROOT INBOX\r\n";

/// Serves a session over these seats whose input ends it. Returns what it wrote; `None` if it ended
/// otherwise or memory ran out.
fn text_of<K: Keeper, R: Wait>(
    alloc: Global,
    table: &HostTable,
    seats: &mut Seats<'_, K, R>,
) -> Option<Vec<u8>>
    requires desk { IsDeskOf table.now (shares_of seats.old) }
    requires account { IsLogin table.now (start_of (Front.ImapAs 0)) }
    ensures leads { Leads seats.old seats.new }
{
    let mut source = MemSource::new(INPUT.to_vec(alloc).ok()?, 7, Vec::new(alloc));
    let mut sink = MemSink::new(alloc, 4096, 4096, Vec::new(alloc)).ok()?;
    let front = Front::ImapAs(0);
    match session_over_seats(alloc, front, table, seats, &mut source, &mut sink) {
        SessionEnd::Closed => sink.as_slice().to_vec(alloc).ok(),
        _ => None,
    }
}

/// Serves a session over the seats of this set.
fn serve<R: Wait>(
    rt: &R,
    alloc: Global,
    host: &Host<MemKeeper>,
    table: &HostTable,
    set: SeatSet,
) -> (SeatSet, Option<Vec<u8>>)
    requires set { IsSetOf host.now set }
    requires desk { IsDeskOf table.now (shares_in set) }
    requires account { IsLogin table.now (start_of (Front.ImapAs 0)) }
    ensures set { IsSetOf host.now result.0 }
    ensures numbers { numbers_of result.0 ≡ numbers_of set }
{
    let mut seats = Seats::new(rt, host, set);
    let text = text_of(alloc, table, &mut seats);
    (seats.finish(), text)
}

/// Serves a session of each caller, and joins the second set into the first.
fn serve_both<R: Wait>(
    rt: &R,
    alloc: Global,
    host: &Host<MemKeeper>,
    table: &HostTable,
    first: SeatSet,
    second: SeatSet,
) -> (SeatSet, Option<Vec<u8>>, Option<Vec<u8>>)
    requires sets { IsSetOf host.now first × IsSetOf host.now second }
    requires later { AreLater (views_of second) }
    requires desks { IsDeskOf table.now (shares_in first) × IsDeskOf table.now (shares_in second) }
    requires account { IsLogin table.now (start_of (Front.ImapAs 0)) }
    ensures set { IsSetOf host.now result.0 }
    ensures numbers { numbers_of result.0 ≡ numbers_of first }
{
    let (mut first, one) = serve(rt, alloc, host, table, first);
    let (second, other) = serve(rt, alloc, host, table, second);
    host.join(&mut first, second);
    (first, one, other)
}

/// What a session writes that finds so many messages.
fn expected(alloc: Global, messages: u32) -> Result<Option<Vec<u8>>, Fail> {
    let text = format!(in alloc;
        "* PREAUTH quotad ready\r\n+ Ready\r\na1 OK APPEND completed\r\n\
* QUOTA \"\" (MESSAGE {messages} 100)\r\na2 OK SETQUOTA completed\r\n\
* QUOTAROOT INBOX \"\"\r\n* QUOTA \"\" (MESSAGE {messages} 100)\r\n\
a3 OK GETQUOTAROOT completed\r\n"
    )?;
    Ok(Some(text.as_bytes().to_vec(alloc)?))
}

#[test]
fn two_callers_deliver_into_one_account(rt: HostRuntime) -> Result<(), Fail> {
    let alloc = rt.alloc();
    let table = match read_accounts(alloc, ANN.as_bytes(), 1700000000) {
        Ok(table) => table,
        Err(fault) => return Err(fault.into()),
    };
    if table.count() != 1 {
        return Err("not one account".into());
    }
    let (host, mut first) = open_host(alloc, &table, 2)?;
    let second = enlist(alloc, &host, &mut first)?;
    let (first, one, other) = serve_both(&rt, alloc, &host, &table, first, second);
    assert_eq!(rt; one, expected(alloc, 1)?);
    assert_eq!(rt; other, expected(alloc, 2)?);
    let Some(mut states) = close_all(host, first) else {
        return Err("refused with all passes joined".into());
    };
    let Some(mut account) = states.pop() else {
        return Err("no account".into());
    };
    assert_eq!(rt; account.calls(), 6);
    let usage = account.usage(alloc, 0)?;
    assert_eq!(rt; (usage.octets, usage.count), (20, 2));
    Ok(())
}
