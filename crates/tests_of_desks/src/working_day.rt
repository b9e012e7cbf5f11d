// A working day: deliveries by the policy protocol, and then a session of IMAP, over one desk.
ghost use Rattle.std.specs.Prelude.{map};
ghost use Rattle.front_core.specs.Desks.{IsDeskOf, IsLogin};
ghost use Rattle.plain_desk.specs.Owning.{share_of};
ghost use Rattle.sessions.specs.Fronts.{start_of};

use crate::headline::session_of_the_owner;
use crate::three_accounts::open_desk;
use accounts_file::{HostTable, read_accounts};
use keeper::{Bytes, MemKeeper, StoreRow};
use plain_desk::PlainDesk;
use quota_units::Name;
use sessions::Front;
use std::alloc::Global;
use std::test::Fail;
use wire_io::{MemSink, MemSource, SessionEnd};

/// Three accounts with two quota roots each.
const ACCOUNTS: &str = "[[account]]
name = \"u1\"
password = \"pw1\"
token = \"t1\"
mailboxes = [\"INBOX\", \"Lists\", \"Trash\"]
[[account.root]]
storage = 100000
messages = 1000
[[account.root]]
name = \"lists\"
prefix = \"Lists\"
[[account]]
name = \"u2\"
password = \"pw2\"
token = \"t2\"
mailboxes = [\"INBOX\", \"Lists\", \"Trash\"]
[[account.root]]
storage = 100000
messages = 1000
[[account.root]]
name = \"lists\"
prefix = \"Lists\"
[[account]]
name = \"u3\"
password = \"pw3\"
token = \"t3\"
mailboxes = [\"INBOX\", \"Lists\", \"Trash\"]
[[account.root]]
storage = 100000
messages = 1000
[[account.root]]
name = \"lists\"
prefix = \"Lists\"
";

/// What the owner of the first account asks in the evening.
const QUESTIONS: &[u8] = b"a1 LOGIN u1 pw1\r\n\
a2 STATUS INBOX (MESSAGES UNSEEN DELETED DELETED-STORAGE SIZE)\r\n\
a3 GETQUOTAROOT INBOX\r\n";

/// What is answered.
const ANSWERS: &[u8] = b"* OK quotad ready\r\na1 OK LOGIN completed\r\n\
* STATUS INBOX (MESSAGES 240 UNSEEN 200 DELETED 0 DELETED-STORAGE 0 SIZE 700000)\r\n\
a2 OK STATUS completed\r\n\
* QUOTAROOT INBOX \"\"\r\n* QUOTA \"\" (STORAGE 684 100000 MESSAGE 240 1000)\r\n\
a3 OK GETQUOTAROOT completed\r\n";

/// A keeper with 40 messages of 2500 octets in INBOX that other programs put there and that were
/// read.
fn with_old_mail(alloc: Global) -> Result<MemKeeper, Fail> {
    let mut rows = Vec::new(alloc);
    for number in 1..=40 {
        let name = format!(in alloc; "{number}.M1P1.mx,S=2500,W=2550:2,S")?;
        rows.push(StoreRow {
            mailbox: Name::of(alloc, b"INBOX")?,
            name: Bytes::new(name.as_bytes().to_vec(alloc)?),
            octets: Bytes::new(vec![in alloc; b'x'; 2500]?),
        })?;
    }
    Ok(MemKeeper::new(alloc, rows, Vec::new(alloc), Vec::new(alloc))?)
}

/// A keeper without files.
fn empty(alloc: Global) -> Result<MemKeeper, Fail> {
    Ok(MemKeeper::new(alloc, Vec::new(alloc), Vec::new(alloc), Vec::new(alloc))?)
}

/// The requests of 200 deliveries of 3000 octets into the first account's INBOX.
fn deliveries(alloc: Global) -> Result<Vec<u8>, Fail> {
    let mut requests = Vec::new(alloc);
    for _ in 0..200 {
        requests.extend_from_slice(b"request=quotad_deliver\naccount=u1\noctets=3000\n\n")?;
        for _ in 0..300 {
            requests.extend_from_slice(b"0123456789")?;
        }
    }
    Ok(requests)
}

/// The answers to them.
fn delivered(alloc: Global) -> Result<Vec<u8>, Fail> {
    let mut answers = Vec::new(alloc);
    for number in 1..=200 {
        let answer = format!(in alloc; "action=delivered 1700000000.{number}.quotad\n\n")?;
        answers.extend_from_slice(answer.as_bytes())?;
    }
    Ok(answers)
}

/// Runs a session over the desk as earlier sessions left it, and checks what it writes. It ends
/// where its input does.
#[tactic(auto, using(crate::proofs::OwnerLemmas::desk_stays))]
fn check_session(
    alloc: Global,
    front: Front,
    table: &HostTable,
    desk: &mut PlainDesk<MemKeeper>,
    input: Vec<u8>,
    expected: &[u8],
) -> Result<(), Fail>
    requires desk { IsDeskOf table.now (map share_of desk.old) }
    requires account { IsLogin table.now (start_of front) }
    ensures desk { IsDeskOf table.now (map share_of desk.new) }
{
    let mut source = MemSource::new(input, 4096, Vec::new(alloc));
    let mut sink = MemSink::new(alloc, 4096, 16384, Vec::new(alloc))?;
    let end = session_of_the_owner(alloc, front, table, desk, &mut source, &mut sink);
    if end != SessionEnd::Closed {
        return Err("another end".into());
    }
    if sink.as_slice() != expected {
        return Err("another text".into());
    }
    Ok(())
}

#[test]
fn a_working_day_is_served(rt: HostRuntime) -> Result<(), Fail> {
    let alloc = rt.alloc();
    let table = match read_accounts(alloc, ACCOUNTS.as_bytes(), 1700000000) {
        Ok(table) => table,
        Err(fault) => return Err(fault.into()),
    };
    let (first, second, third) = (with_old_mail(alloc)?, empty(alloc)?, empty(alloc)?);
    let mut desk = open_desk(alloc, &table, first, second, third)?;
    let answers = delivered(alloc)?;
    check_session(
        alloc,
        Front::Policy,
        &table,
        &mut desk,
        deliveries(alloc)?,
        &answers,
    )?;
    check_session(
        alloc,
        Front::Imap,
        &table,
        &mut desk,
        QUESTIONS.to_vec(alloc)?,
        ANSWERS,
    )
}
