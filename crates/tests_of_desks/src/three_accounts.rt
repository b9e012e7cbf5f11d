// Sessions over a desk of three accounts.
ghost use Rattle.std.specs.Prelude.{◌≡◌, ◌<◌, length, map, IfOk, IfSome};
ghost use Rattle.front_core.specs.Desks.{IsDeskOf};
ghost use Rattle.plain_desk.specs.Owning.{share_of};
ghost use Rattle.sessions.specs.Fronts.{start_of};

use crate::headline::session_of_the_owner;
use crate::opening::open_account;
use accounts_file::{HostTable, read_accounts};
use keeper::{FixedKeeper, Keeper};
use plain_desk::PlainDesk;
use sessions::Front;
use std::alloc::Global;
use std::test::Fail;
use wire_io::{MemSink, MemSource, SessionEnd};

/// Three accounts, of which the last may not set its limits.
const ACCOUNTS: &str = "[[account]]
name = \"ann\"
password = \"pw\"
token = \"t1\"
admin = true
[[account.root]]
storage = 1
[[account]]
name = \"bob\"
password = \"pw\"
token = \"t2\"
admin = true
[[account.root]]
storage = 2
[[account]]
name = \"cy\"
password = \"pw\"
token = \"t3\"
[[account.root]]
storage = 3
";

/// What is sent in each session.
const INPUT: &[u8] = b"a1 GETQUOTA \"\"\r\na2 SETQUOTA \"\" (STORAGE 7)\r\na3 LOGOUT\r\n";

/// The owner of the second account is logged in.
const AS_BOB: &[u8] = b"* PREAUTH quotad ready\r\n\
* QUOTA \"\" (STORAGE 0 2)\r\na1 OK GETQUOTA completed\r\n\
* QUOTA \"\" (STORAGE 0 7)\r\na2 OK SETQUOTA completed\r\n\
* BYE quotad closing\r\na3 OK LOGOUT completed\r\n";

/// The owner of the third account is logged in.
const AS_CY: &[u8] = b"* PREAUTH quotad ready\r\n\
* QUOTA \"\" (STORAGE 0 3)\r\na1 OK GETQUOTA completed\r\n\
a2 NO [NOPERM] Not permitted\r\n\
* BYE quotad closing\r\na3 OK LOGOUT completed\r\n";

/// Nobody is logged in.
const AS_NOBODY: &[u8] = b"* OK quotad ready\r\n\
a1 BAD Not authenticated\r\n\
a2 BAD Not authenticated\r\n\
* BYE quotad closing\r\na3 OK LOGOUT completed\r\n";

/// The desk of the table's three accounts, over these keepers.
pub(crate) fn open_desk<K: Keeper + Drop>(
    alloc: Global,
    table: &HostTable,
    first: K,
    second: K,
    third: K,
) -> Result<PlainDesk<K>, Fail>
    ensures desk { IfOk result (λ desk. IsDeskOf table.now (map share_of desk)) }
    ensures three { IfOk result (λ desk. length table.now.accounts ≡ 3) }
{
    if table.count() != 3 {
        return Err("not three accounts".into());
    }
    let mut states = Vec::new(alloc);
    states.push(open_account(alloc, table, 0, first)?)?;
    states.push(open_account(alloc, table, 1, second)?)?;
    states.push(open_account(alloc, table, 2, third)?)?;
    Ok(PlainDesk::new(states))
}

/// Runs a session of this front, checks what it writes, and gives each account's number of calls.
fn calls_of(alloc: Global, front: Front, expected: &[u8]) -> Result<[u32; 3], Fail>
    requires { IfSome (start_of front) (λ account. account < 3) }
{
    let table = match read_accounts(alloc, ACCOUNTS.as_bytes(), 1700000000) {
        Ok(table) => table,
        Err(fault) => return Err(fault.into()),
    };
    let (first, second) = (FixedKeeper::new(alloc)?, FixedKeeper::new(alloc)?);
    let mut desk = open_desk(alloc, &table, first, second, FixedKeeper::new(alloc)?)?;
    let mut source = MemSource::new(INPUT.to_vec(alloc)?, 7, Vec::new(alloc));
    let mut sink = MemSink::new(alloc, 5, 4096, Vec::new(alloc))?;
    let end = session_of_the_owner(alloc, front, &table, &mut desk, &mut source, &mut sink);
    if end != SessionEnd::Closed {
        return Err("the session did not close".into());
    }
    if sink.as_slice() != expected {
        return Err("another text".into());
    }
    match desk.into_states().as_slice() {
        [first, second, third] => Ok([first.calls(), second.calls(), third.calls()]),
        _ => Err("not three accounts".into()),
    }
}

#[test]
fn a_session_asks_its_own_account_alone(rt: HostRuntime) -> Result<(), Fail> {
    let alloc = rt.alloc();
    let calls = calls_of(alloc, Front::ImapAs(1), AS_BOB)?;
    assert_eq!(rt; calls, [0, 2, 0]);
    let calls = calls_of(alloc, Front::ImapAs(2), AS_CY)?;
    assert_eq!(rt; calls, [0, 0, 1]);
    let calls = calls_of(alloc, Front::Imap, AS_NOBODY)?;
    assert_eq!(rt; calls, [0, 0, 0]);
    Ok(())
}
