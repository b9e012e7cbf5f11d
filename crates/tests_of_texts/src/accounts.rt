// Accounts files that are accepted, and others that are refused.
ghost use Rattle.std.specs.Prelude.{◌<◌, length};

use accounts_file::{AccountEntry, AccountsError, HostTable, Key, plain_table, read_accounts};
use quota_roots::Roots;
use quota_units::Limits;
use std::alloc::Global;
use std::process::Abort;
use std::str;
use std::test::Fail;
use wire_io::Wire;

/// Files, each with the answer to it. A line that begins with `= ` is the frame of the rows below
/// it. The text of each row takes the place of the frame's `...`. A row is its text, an arrow `=>`
/// and the answer. In frames and rows `;` ends a line of the file, and `<N:TEXT>` stands for N
/// copies of TEXT. In each copy its number, from 0 on, takes the place of `#`.
const ANSWERS: &str = r#"= ...
[ => not TOML
 => missing account
[[account]];name = "ann";password = "pw";token = "tok";[[account]];name = "ann";password = "pw";token = "kot"; => double 'ann'
[[account]];name = "ann";password = "pw"; => missing token
account = 1 => bad account
= ...[[account]];name = "ann";password = "pw";token = "tok";
imap = 1;jmap = 65535;policy = 0x19;workers = 16; => accepted
imap = 1143;jmap = 1143; => accepted
colour = "red"; => accepted
imap = 0; => bad imap
imap = 65536; => bad imap
imap = -1; => bad imap
imap = "1143"; => bad imap
imap = 1143.0; => bad imap
imap = 01143; => not TOML
imap = 9223372036854775808; => not TOML
imap = 1;imap = 2; => not TOML
jmap = 0; => bad jmap
policy = 65536; => bad policy
workers = 0; => bad workers
workers = 17; => bad workers
workers = 0;policy = 0;jmap = 0;imap = 0; => bad imap
workers = 0;policy = 0;jmap = 0; => bad jmap
workers = 0;policy = 0; => bad policy
= [[account]];...
 => missing name
name = "ann"; => missing password
name = "ann";password = "pw"; => missing token
token = 1;password = 1;name = 1; => bad name
token = 1;password = 1;name = "ann"; => bad password
token = 1;password = "pw";name = "ann"; => bad token
root = 1;mailboxes = 1;recipients = 1;journal = 0;admin = 1;token = 1;password = "pw";name = "ann"; => bad token
= [[account]];name = "ann";password = "pw";token = "tok";...
root = 1;mailboxes = 1;recipients = 1;journal = 0;admin = 1; => bad admin
root = 1;mailboxes = 1;recipients = 1;journal = 0; => bad journal
root = 1;mailboxes = 1;recipients = 1; => bad recipients
root = 1;mailboxes = 1; => bad mailboxes
root = 1; => bad root
root = []; => bad root
root = [1]; => bad root
root = [{}, 1, {}, {}, {}]; => bad root
root = [{}, {}, {}, {}, {}]; => too many root
root = [{}]; => accepted
journal = 1; => accepted
journal = 524288; => accepted
journal = 524289; => bad journal
recipients = [];mailboxes = []; => accepted
recipients = [""]; => bad recipients
recipients = [1]; => bad recipients
recipients = ["<255:x>"]; => accepted
recipients = ["<256:x>"]; => bad recipients
mailboxes = ["a/b"]; => bad mailboxes
mailboxes = ["a."]; => bad mailboxes
mailboxes = [""]; => bad mailboxes
mailboxes = ["INBOX", "inbox"]; => double 'INBOX'
mailboxes = ["b", "a", "a", "b"]; => double 'a'
mailboxes = ["b", "Inbox", "b", "inbox"]; => double 'b'
= [[account]];name = "...";password = "pw";token = "tok";
<64:x> => accepted
<65:x> => bad name
 => bad name
a-b_C9 => accepted
-a => bad name
_a => accepted
a b => bad name
ä => bad name
= [[account]];name = "ann";password = "pw";token = "...";
<64:x> => accepted
<65:x> => bad token
 => bad token
!~ => accepted
a b => bad token
a\u007fb => bad token
= [[account]];name = "ann";password = "pw";token = "tok";root = [...];
{name = 1, prefix = 1, storage = 0, messages = 0} => bad name
{prefix = 1, storage = 0, messages = 0} => bad prefix
{prefix = "Lists"} => bad prefix
{storage = 0, messages = 0} => bad storage
{messages = 0} => bad messages
{storage = 1, messages = 8796093022207} => accepted
{storage = 8796093022207, messages = 1} => accepted
{storage = 8796093022208} => bad storage
{messages = 8796093022208} => bad messages
{name = "a\tb"} => bad name
{name = " ~"} => accepted
{}, {name = "l"} => bad prefix
{}, {name = "l", prefix = "Trash"} => bad prefix
{}, {name = "l", prefix = "trash"} => accepted
{}, {name = "l", prefix = "Trash.old"} => accepted
{}, {name = "l", prefix = "a..b"} => bad prefix
{}, {name = "l", prefix = "inbox"} => accepted
{storage = 0}, {name = 1} => bad storage
{}, {prefix = "Lists"} => double ''
{}, {name = "a", prefix = "b"}, {name = "a", prefix = "c"}, {prefix = "d"} => double 'a'
= [[account]];name = "ann";password = "pw";token = "tok";mailboxes = [...];root = 1;
<255:"m#", > => bad root
<255:"m#", >"inbox" => bad root
<256:"m#", > => too many mailboxes
<255:"m#", >"inbox", "INBOX" => too many mailboxes
<256:"m#", >"a/b" => bad mailboxes
= account = [...];
<31:{name = "u#", password = "p", token = "t#"},> => accepted
<31:{name = "u#", password = "p", token = "t#"},>{name = "x"}, => missing password
<32:{name = "u#", password = "p", token = "t#"},> => accepted
<33:{name = "u#", password = "p", token = "t#"},> => too many account
<33:{name = "u#", password = "p", token = "t#"},>{name = 1}, => too many account
<33:{name = "u#", password = "p", token = "t#"},>1, => bad account
 => bad account
<8:{name = "u#", password = "p", token = "t#", journal = 524288},> => accepted
<8:{name = "u#", password = "p", token = "t#", journal = 524288},>{name = "u8", password = "p", token = "t", journal = 1} => bad journal
<7:{name = "u#", password = "p", token = "t#", journal = 524288},>{name = "u8", password = "p", token = "t", journal = 524288} => accepted
<8:{name = "u#", password = "p", token = "t#", journal = 524288},>{name = "u0", password = "p", token = "t", journal = 1} => double 'u0'
= [[account]];password = "p";name = "ann";token = "tok";recipients = ["A@x", "b@x"];mailboxes = ["Lists", "Lists"];[[account]];password = "p";...
name = "ann";token = "tok";recipients = ["c@x", "a@X"];root = [{}, {prefix = "Lists"}]; => double 'ann'
name = "bob";token = "tok";recipients = ["c@x", "a@X"];root = [{}, {prefix = "Lists"}]; => double 'tok'
name = "bob";token = "kot";recipients = ["c@x", "a@X"];root = [{}, {prefix = "Lists"}]; => double 'a@X'
name = "bob";token = "kot";root = [{}, {prefix = "Lists"}]; => double 'Lists'
name = "ann";token = "tok";recipients = ["c@x", "a@X"];journal = 0; => bad journal
= [[account]];password = "p";name = "ann";token = "tok";recipients = ["A@x", "b@x"];...
root = [{}, {prefix = "Lists"}];[[account]];password = "p";name = "bob";token = "kot";mailboxes = ["Lists", "Lists"]; => double ''
[[account]];password = "p";name = "bob";token = "kot";mailboxes = ["Lists", "Lists"]; => double 'Lists'
= [[account]];password = "p";name = "ann";token = "tok";[[account]];password = "p";name = "bob";...
token = "TOK"; => accepted
"#;

/// What files hold: a file, written as in `ANSWERS`, and then rows. A row is a question to the
/// file's table, an arrow `=>` and the answer.
const READINGS: [(&str, &str); 5] = [
    (
        r#"[[account]];name = "ann";password = "pw";token = "tok";admin = true;recipients = ["ann@example.org"];mailboxes = ["INBOX", "Lists", "Trash"];[[account.root]];name = "";"#,
        "host => 1 accounts, epoch 1700000000, 2 workers, ports None None None
account 0 => ann, admin true, journal 65536, sound true, mailboxes INBOX Lists Trash, root '' None None of INBOX Lists",
    ),
    (
        r#"[[account]];name = "ann";password = "pw";token = "tok";recipients = ["ann@example.org"];[[account]];name = "bob";password = "PW";token = "TOK";recipients = ["bob@example.org", "Bob@example.net"];"#,
        "named ann => Some(0)
named bob => Some(1)
named Bob => None
named  => None
login ann pw => Some(0)
login bob PW => Some(1)
login bob pw => None
login bob  => None
token tok => Some(0)
token TOK => Some(1)
token  => None
recipient ANN@Example.org => Some(0)
recipient bob@EXAMPLE.net => Some(1)
recipient bob@example.com => None
recipient  => None",
    ),
    (
        r#"[[account]];name = "ann";password = "pw";token = "tok";root = [{storage = 512, messages = 10}, {name = "in", prefix = "Inbox", messages = 3}];"#,
        "account 0 => ann, admin false, journal 65536, sound true, mailboxes INBOX, root '' Some(524288) Some(10) of INBOX Lists, root 'in' None Some(3) of INBOX",
    ),
    (
        r#"[[account]];name = "ann";password = "pw";token = "tok";mailboxes = ["Lists", "Trash"];[[account]];name = "bob";password = "pw";token = "TOK";mailboxes = ["Lists", "inbox", "Trash"];"#,
        "account 0 => ann, admin false, journal 65536, sound true, mailboxes INBOX Lists Trash, root '' None None of INBOX Lists
account 1 => bob, admin false, journal 65536, sound true, mailboxes INBOX Lists Trash, root '' None None of INBOX Lists",
    ),
    (
        r#"[[account]];name = "ann";password = "pw";token = "tok";mailboxes = ["InBoX", "inbox.a", "trash"];"#,
        "account 0 => ann, admin false, journal 65536, sound true, mailboxes INBOX inbox.a trash, root '' None None of INBOX Lists",
    ),
];

/// What the table of one account without secrets holds. The account's limits are 524288 octets and
/// 500 messages.
const PLAIN: &str = "host => 1 accounts, epoch 0, 2 workers, ports None None None
account 0 => main, admin true, journal 65536, sound true, mailboxes INBOX Trash, root '' Some(524288) Some(500) of INBOX Lists
named main => Some(0)
login main  => None
token  => None
recipient  => None";

/// The file `accounts.toml` at the top of the repository.
const EXAMPLE: &str =
    "# The accounts of a mail host. The crate accounts_file reads this file (crates/accounts_file); the
# commands that will take it, `quotactl imap` and `quotad serve`, are not built yet. Each key's
# meaning and range stands beside it; unknown keys are ignored.

# The ports of the listeners, 1 to 65535. A listener without a port is not opened.
imap = 1143
jmap = 8080
policy = 10031

# The number of workers of each listener: 1 to 16; 2 if left out.
workers = 2

# One table for each account: 1 to 32. Name, password and token are required.
[[account]]
# 1 to 64 letters, digits, `_` and `-`; `-` is not the first. It is also the JMAP id.
name = \"ann\"
# 1 to 64 printable ASCII characters other than the space. The token is for JMAP.
password = \"change-this-password\"
token = \"change-this-token\"
# Whether the account may set its limits; false if left out.
admin = true
# The most entries of the account's history: 1 to 524288; 65536 if left out. All accounts together
# have at most 4194304.
journal = 65536
# The addresses whose mail the account gets, for the policy listener. Case is ignored.
recipients = [\"ann@example.org\", \"postmaster@example.org\"]
# The mailboxes. INBOX always exists and need not be listed.
mailboxes = [\"INBOX\", \"Lists\", \"Lists.work\", \"Trash\"]

# The account's quota roots, 1 to 4. The first has no prefix and governs every mailbox but Trash.
[[account.root]]
# At most 64 printable ASCII characters; the empty name if left out.
name = \"\"
# The limits: storage in units of 1024 octets, and messages; 1 to 8796093022207. A limit that is
# left out does not limit.
storage = 1048576
messages = 100000

# Each other root governs the mailbox of its prefix and those below it.
[[account.root]]
name = \"lists\"
prefix = \"Lists\"
messages = 5000

# The least that an account needs. It has INBOX, and one root without limits.
[[account]]
name = \"bob\"
password = \"another-password\"
token = \"another-token\"
";

/// What the file `accounts.toml` holds.
const IN_EXAMPLE: &str =
    "host => 2 accounts, epoch 1700000000, 2 workers, ports Some(1143) Some(8080) Some(10031)
account 0 => ann, admin true, journal 65536, sound true, mailboxes INBOX Lists Lists.work Trash, root '' Some(1073741824) Some(100000) of INBOX Lists, root 'lists' None Some(5000) of Lists
account 1 => bob, admin false, journal 65536, sound true, mailboxes INBOX, root '' None None of INBOX Lists
login ann change-this-password => Some(0)
recipient Postmaster@Example.org => Some(0)";

/// The file that a row of the tables, in its frame if it has one, stands for.
fn file(alloc: Global, row: &str) -> Result<String, Fail> {
    let mut text = String::new(alloc);
    for piece in row.split('<') {
        match piece.split_once('>') {
            None => text.push_str(piece)?,
            Some((copies, rest)) => {
                push_copies(alloc, &mut text, copies)?;
                text.push_str(rest)?;
            }
        }
    }
    Ok(text.replace(alloc, ";", "\n")?)
}

/// Writes the copies that `N:TEXT` stands for.
fn push_copies(alloc: Global, text: &mut String, copies: &str) -> Result<(), Fail> {
    let (count, copy) = copies.split_once(':').unwrap_or(("0", ""));
    for number in 0..count.parse::<u32>()? {
        let number = format!(in alloc; "{number}")?;
        let copy = copy.replace(alloc, "#", number.as_str())?;
        text.push_str(copy.as_str())?;
    }
    Ok(())
}

/// The answer to a file: `accepted`, or the words of its refusal.
fn answer(alloc: Global, text: &str) -> Result<String, Fail> {
    let reply = read_accounts(alloc, text.as_bytes(), 1700000000);
    let words = match &reply {
        Ok(_) => format!(in alloc; "accepted")?,
        Err(AccountsError::Double { name }) => {
            format!(in alloc; "double '{}'", str::from_utf8(name.as_slice())?)?
        }
        Err(refusal) => format!(in alloc; "{refusal}")?,
    };
    Ok(words)
}

#[test]
fn files_are_accepted_or_refused(rt: HostRuntime) -> Result<(), Fail> {
    let alloc = rt.alloc();
    let mut rows = 0;
    let mut frame = ("", "");
    for line in ANSWERS.lines() {
        if let Some(parts) = line.strip_prefix("= ") {
            frame = parts.split_once("...").unwrap_or((parts, ""));
        } else if let Some((row, expected)) = line.split_once(" => ") {
            let row = format!(in alloc; "{}{row}{}", frame.0, frame.1)?;
            let text = file(alloc, row.as_str())?;
            let words = answer(alloc, text.as_str())?;
            assert_eq!(rt; words.as_str(), expected, "{row}");
            rows = 1u32.wrapping_add(rows);
        }
    }
    assert_eq!(rt; rows, 112);
    Ok(())
}

/// The number of the account that a question finds.
fn found(table: &HostTable, word: &str, name: &str) -> Option<u32> {
    match word {
        "named" => table.named(name.as_bytes()),
        "token" => table.token(name.as_bytes()),
        "recipient" => table.recipient(name.as_bytes()),
        _ => {
            let (name, password) = name.split_once(' ').unwrap_or((name, ""));
            table.login(name.as_bytes(), password.as_bytes())
        }
    }
}

/// The settings of a host.
fn host(alloc: Global, table: &HostTable) -> Result<String, Fail> {
    Ok(format!(in alloc;
        "{} accounts, epoch {}, {} workers, ports {:?} {:?} {:?}",
        table.count(),
        table.epoch(),
        table.workers(),
        table.port(Wire::Imap),
        table.port(Wire::Jmap),
        table.port(Wire::Policy)
    )?)
}

/// Writes a root with its limits of octets and messages, and which of INBOX, Lists and Trash it
/// governs.
fn push_root(
    alloc: Global,
    text: &mut String,
    roots: &Roots,
    root: u32,
    limits: &Limits,
) -> Result<(), Fail>
    requires { root < length roots.now }
{
    let name = str::from_utf8(roots.name(root))?;
    let octets = limits.octets();
    let count = limits.count();
    text.push_str(format!(in alloc; ", root '{name}' {octets:?} {count:?} of")?.as_str())?;
    for mailbox in ["INBOX", "Lists", "Trash"] {
        if roots.governs(root, mailbox.as_bytes()) {
            text.push(' ')?;
            text.push_str(mailbox)?;
        }
    }
    Ok(())
}

/// An account with its mailboxes and its roots.
fn shown(alloc: Global, account: &AccountEntry) -> Result<String, Fail> {
    let setup = &account.setup;
    let name = str::from_utf8(account.name.as_slice())?;
    let mut text = format!(in alloc;
        "{name}, admin {}, journal {}, sound {}, mailboxes",
        account.admin,
        setup.journal,
        setup.is_sound()
    )?;
    for mailbox in setup.mailboxes.as_slice() {
        text.push(' ')?;
        text.push_str(str::from_utf8(mailbox.as_slice())?)?;
    }
    let roots = &setup.roots;
    for root in 0..roots.count() {
        if let Some(limits) = setup.limits.as_slice().get(root as usize) {
            push_root(alloc, &mut text, roots, root, limits)?;
        }
    }
    Ok(text)
}

/// The answer of a table to a question.
fn told(alloc: Global, table: &HostTable, question: &str) -> Result<String, Fail> {
    let (word, name) = question.split_once(' ').unwrap_or((question, ""));
    match word {
        "host" => host(alloc, table),
        "account" => match name.parse::<u32>() {
            Ok(number) if number < table.count() => shown(alloc, table.entry(number)),
            _ => Ok(String::new(alloc)),
        },
        _ => Ok(format!(in alloc; "{:?}", found(table, word, name))?),
    }
}

/// Checks the answers of a table to questions.
fn check_table(rt: &(impl Abort + AllocGlobal), table: &HostTable, rows: &str) -> Result<(), Fail> {
    for row in rows.lines() {
        let (question, expected) = row.split_once(" => ").unwrap_or((row, ""));
        let words = told(rt.alloc(), table, question)?;
        assert_eq!(rt; words.as_str(), expected, "{question}");
    }
    Ok(())
}

#[test]
fn tables_hold_what_their_files_say(rt: HostRuntime) -> Result<(), Fail> {
    for (text, rows) in READINGS {
        let text = file(rt.alloc(), text)?;
        let table = read_accounts(rt.alloc(), text.as_bytes(), 1700000000)?;
        check_table(&rt, &table, rows)?;
    }
    let table = read_accounts(rt.alloc(), EXAMPLE.as_bytes(), 1700000000)?;
    check_table(&rt, &table, IN_EXAMPLE)
}

#[test]
fn the_plain_table_has_one_account_without_secrets(rt: HostRuntime) -> Result<(), Fail> {
    let limits = Limits::new(Some(524288), Some(500));
    assert!(rt; limits.is_some());
    if let Some(limits) = limits {
        check_table(&rt, &plain_table(rt.alloc(), limits)?, PLAIN)?;
    }
    Ok(())
}

#[test]
fn keys_are_told_by_their_words(rt: HostRuntime) {
    for (key, word) in [
        (Key::AccountName, "name"),
        (Key::RootName, "name"),
        (Key::Messages, "messages"),
    ] {
        assert_eq!(rt; key.word(), word);
    }
}
