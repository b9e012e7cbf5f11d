// Sessions of IMAP over a desk of one account.
ghost use Rattle.std.specs.Prelude.{◌≡◌, ◌<◌, length, map, IfOk, IfSome};
ghost use Rattle.front_core.specs.Desks.{IsDeskOf};
ghost use Rattle.plain_desk.specs.Owning.{share_of};
ghost use Rattle.sessions.specs.Fronts.{start_of};

use crate::headline::session_of_the_owner;
use crate::opening::open_account;
use account_ledger::{AccountState, Standing};
use accounts_file::{HostTable, plain_table, read_accounts};
use keeper::{FixedKeeper, KeepCall, KeepFail, Keeper, MemKeeper};
use plain_desk::PlainDesk;
use quota_units::Limits;
use sessions::Front;
use std::alloc::Global;
use std::test::Fail;
use wire_io::{MemSink, MemSource, SessionEnd};

/// An account with 512 units of storage, three mailboxes, and a journal of 65536 entries.
const ANN: &str = "[[account]]
name = \"ann\"
password = \"pw\"
token = \"tok\"
admin = true
recipients = [\"ann@example.org\"]
mailboxes = [\"INBOX\", \"Lists\", \"Trash\"]
[[account.root]]
storage = 512
";

/// The same account with a journal of three entries, and no other mailbox than INBOX.
const SHORT_JOURNAL: &str = "[[account]]
name = \"ann\"
password = \"pw\"
token = \"tok\"
admin = true
journal = 3
[[account.root]]
storage = 512
";

/// A session: the account, whether its owner is logged in at the start, what is sent, what is
/// written, and the end.
pub(crate) type Row = (&'static str, bool, &'static [u8], &'static [u8], SessionEnd);

static SESSIONS: [Row; 8] = [
    // Commands before, during and after a login.
    (
        ANN,
        false,
        b"a1 GETQUOTA \"\"\r\na2 LOGIN ann no\r\na3 LOGIN ann pw\r\na4 LOGIN ann pw\r\n",
        b"* OK quotad ready\r\na1 BAD Not authenticated\r\na2 NO [AUTHENTICATIONFAILED] Login failed\r\na3 OK LOGIN completed\r\na4 BAD Already authenticated\r\n",
        SessionEnd::Closed,
    ),
    (
        ANN,
        false,
        b"a1 login {3}\r\nann {2}\npw\r\na2 GETQUOTA \"\"\r\na3 LOGOUT\r\na4 NOOP\r\n",
        b"* OK quotad ready\r\n+ Ready\r\n+ Ready\r\na1 OK LOGIN completed\r\n* QUOTA \"\" (STORAGE 0 512)\r\na2 OK GETQUOTA completed\r\n* BYE quotad closing\r\na3 OK LOGOUT completed\r\n",
        SessionEnd::Closed,
    ),
    (
        ANN,
        false,
        b"a1 LOGIN \"ann\" {2}\r\np",
        b"* OK quotad ready\r\n+ Ready\r\n",
        SessionEnd::Truncated { at: 0 },
    ),
    // Before the login the marker of a message asks for nothing, and the message is a request.
    (
        ANN,
        false,
        b"a1 APPEND INBOX {5}\r\nhello\r\na2 CAPABILITY\r\na3 STATUS INBOX (SIZE)\r\na4 STATUSES\r\n",
        b"* OK quotad ready\r\na1 BAD Not authenticated\r\n* BAD Invalid tag\r\n* CAPABILITY IMAP4rev1 QUOTA QUOTASET QUOTA=RES-STORAGE QUOTA=RES-MESSAGE STATUS=SIZE\r\na2 OK CAPABILITY completed\r\na3 BAD Not authenticated\r\na4 BAD Unknown command\r\n",
        SessionEnd::Closed,
    ),
    // Messages with flags and a date, and what STATUS tells of them.
    (
        ANN,
        true,
        b"a1 APPEND inbox (\\Seen \\Deleted $Work) \" 1-Jan-2026 00:00:00 +0000\" {4}\r\nabcd\r\na2 APPEND \"INBOX\" {2}\r\n\r\n\r\na3 APPEND {5}\r\nLists () {0}\r\n\r\na4 STATUS INBOX (size MESSAGES Unseen DELETED DELETED-STORAGE Size)\r\na5 STATUS Lists (MESSAGES)\r\n",
        b"* PREAUTH quotad ready\r\n+ Ready\r\na1 OK APPEND completed\r\n+ Ready\r\na2 OK APPEND completed\r\n+ Ready\r\n+ Ready\r\na3 OK APPEND completed\r\n* STATUS INBOX (SIZE 6 MESSAGES 2 UNSEEN 1 DELETED 1 DELETED-STORAGE 4 SIZE 6)\r\na4 OK STATUS completed\r\n* STATUS Lists (MESSAGES 1)\r\na5 OK STATUS completed\r\n",
        SessionEnd::Closed,
    ),
    // What is refused without a delivery.
    (
        ANN,
        true,
        b"a1 APPEND Nowhere {2}\r\nab\r\na2 APPEND INBOX {2}\r\nabc\r\na3 STATUS Nowhere (SIZE RECENT)\r\na4 STATUS Nowhere (SIZE)\r\na5 STATUS INBOX ()\r\na6 APPEND INBOX {67108865}\r\na7 STATUS INBOX (MESSAGES)\r\n",
        b"* PREAUTH quotad ready\r\n+ Ready\r\na1 NO [TRYCREATE] No such mailbox\r\n+ Ready\r\na2 BAD Syntax error at 21\r\na3 NO Status item not supported\r\na4 NO No such mailbox\r\na5 BAD Syntax error at 17\r\na6 NO [LIMIT] Message too large\r\n* STATUS INBOX (MESSAGES 0)\r\na7 OK STATUS completed\r\n",
        SessionEnd::Closed,
    ),
    // A message that is cut short is not delivered.
    (
        ANN,
        true,
        b"a1 NOOP\r\na2 APPEND INBOX {5}\r\nabc",
        b"* PREAUTH quotad ready\r\na1 OK NOOP completed\r\n+ Ready\r\n",
        SessionEnd::Truncated { at: 9 },
    ),
    // The history is full after three calls.
    (
        SHORT_JOURNAL,
        true,
        b"a1 GETQUOTA \"\"\r\na2 APPEND INBOX {1}\r\nx\r\na3 GETQUOTA \"\"\r\na4 GETQUOTA \"\"\r\na5 APPEND INBOX {1}\r\nx\r\n",
        b"* PREAUTH quotad ready\r\n* QUOTA \"\" (STORAGE 0 512)\r\na1 OK GETQUOTA completed\r\n+ Ready\r\na2 OK APPEND completed\r\n* QUOTA \"\" (STORAGE 1 512)\r\na3 OK GETQUOTA completed\r\na4 NO [LIMIT] Journal full\r\n+ Ready\r\na5 NO [LIMIT] Journal full\r\n",
        SessionEnd::Closed,
    ),
];

/// What the owner sends of a message of 100 octets.
const DELIVERY: &[u8] = b"a1 APPEND INBOX {100}\r\n\
0123456789012345678901234567890123456789012345678901234567890123456789012345678901234567890123456789\r\n";

/// The message is delivered.
const DELIVERED: &[u8] = b"* PREAUTH quotad ready\r\n+ Ready\r\na1 OK APPEND completed\r\n";

/// The store fails.
const REFUSED: &[u8] =
    b"* PREAUTH quotad ready\r\n+ Ready\r\na1 NO [UNAVAILABLE] Store unavailable\r\n";

/// What the owner sends of the same message, and then of a question about the quota.
const THEN_QUOTA: &[u8] = b"a1 APPEND INBOX {100}\r\n\
0123456789012345678901234567890123456789012345678901234567890123456789012345678901234567890123456789\r\n\
a2 GETQUOTA \"\"\r\n";

/// The message is delivered, and counts.
const THEN_TOLD: &[u8] = b"* PREAUTH quotad ready\r\n+ Ready\r\na1 OK APPEND completed\r\n\
* QUOTA \"\" (STORAGE 1 512)\r\na2 OK GETQUOTA completed\r\n";

/// The desk of the account of a table, over this keeper.
pub(crate) fn open_desk<K: Keeper + Drop>(
    alloc: Global,
    table: &HostTable,
    keeper: K,
) -> Result<PlainDesk<K>, Fail>
    ensures desk { IfOk result (λ desk. IsDeskOf table.now (map share_of desk)) }
    ensures one { IfOk result (λ desk. length table.now.accounts ≡ 1) }
{
    if table.count() != 1 {
        return Err("not one account".into());
    }
    let mut states = Vec::new(alloc);
    states.push(open_account(alloc, table, 0, keeper)?)?;
    Ok(PlainDesk::new(states))
}

/// Runs a session, of which the source gives at most `piece` bytes at a time, and checks what it
/// writes and how it ends. It gives the account.
pub(crate) fn account_after<K: Keeper + Drop>(
    alloc: Global,
    front: Front,
    table: &HostTable,
    keeper: K,
    row: &Row,
    piece: usize,
) -> Result<AccountState<K>, Fail>
    requires { IfSome (start_of front) (λ account. account < 1) }
{
    let (_, _, input, expected, end) = row;
    let piece = piece.max(1);
    let mut desk = open_desk(alloc, table, keeper)?;
    let mut source = MemSource::new(input.to_vec(alloc)?, piece, Vec::new(alloc));
    let mut sink = MemSink::new(alloc, piece, 4096, Vec::new(alloc))?;
    let ended = session_of_the_owner(alloc, front, table, &mut desk, &mut source, &mut sink);
    if ended != *end {
        return Err("another end".into());
    }
    if sink.as_slice() != *expected {
        return Err("another text".into());
    }
    match desk.into_states().pop() {
        Some(state) => Ok(state),
        None => Err("no account".into()),
    }
}

/// IMAP, with the owner of the one account logged in or with nobody logged in.
pub(crate) fn front_of(is_owner: bool) -> Front
    ensures { IfSome (start_of result) (λ account. account < 1) }
{
    if is_owner {
        Front::ImapAs(0)
    } else {
        Front::Imap
    }
}

/// Runs the session of a row, of which the source gives at most `piece` bytes at a time.
fn check_row(alloc: Global, row: &Row, piece: usize) -> Result<(), Fail> {
    let table = match read_accounts(alloc, row.0.as_bytes(), 1700000000) {
        Ok(table) => table,
        Err(fault) => return Err(fault.into()),
    };
    let keeper = FixedKeeper::new(alloc)?;
    account_after(alloc, front_of(row.1), &table, keeper, row, piece)?;
    Ok(())
}

#[test]
fn sessions_of_one_account_are_answered(rt: HostRuntime) -> Result<(), Fail> {
    for row in &SESSIONS {
        for piece in [1, 7, 4096] {
            check_row(rt.alloc(), row, piece)?;
        }
    }
    Ok(())
}

/// Runs a session of an account with 524288 octets over a keeper in memory, whose first call of this
/// kind fails. It gives the account.
fn account_of_failing(
    alloc: Global,
    kind: KeepCall,
    input: &'static [u8],
    expected: &'static [u8],
) -> Result<AccountState<MemKeeper>, Fail> {
    let limits = Limits::new(Some(524288), None).ok_or("limits in range")?;
    let table = plain_table(alloc, limits)?;
    let fails = vec![in alloc; KeepFail { kind, nth: 1 }]?;
    let keeper = MemKeeper::new(alloc, Vec::new(alloc), Vec::new(alloc), fails)?;
    let row = ("", true, input, expected, SessionEnd::Closed);
    account_after(alloc, front_of(true), &table, keeper, &row, 4096)
}

#[test]
fn a_failed_append_to_a_ledger_is_mended(rt: HostRuntime) -> Result<(), Fail> {
    let alloc = rt.alloc();
    let state = account_of_failing(alloc, KeepCall::AppendLedger, DELIVERY, DELIVERED)?;
    if state.root_count() == 0 || state.standing(0) != Standing::Doubt {
        return Err("a settled root".into());
    }
    let state = account_of_failing(alloc, KeepCall::AppendLedger, THEN_QUOTA, THEN_TOLD)?;
    match state.into_keeper().read_ledger(alloc, 0) {
        Ok(Some(ledger)) if ledger.as_slice() == b"524288S\n100 1\n".as_slice() => Ok(()),
        _ => Err("another ledger".into()),
    }
}

#[test]
fn a_failed_put_is_told(rt: HostRuntime) -> Result<(), Fail> {
    let alloc = rt.alloc();
    let state = account_of_failing(alloc, KeepCall::Put, DELIVERY, REFUSED)?;
    match state.into_keeper().list(alloc, b"INBOX") {
        Ok(files) if files.is_empty() => Ok(()),
        _ => Err("a message was kept".into()),
    }
}
