// Accounts in folders, closed and opened again.

use crate::calls::check_steps;
use account_ledger::{AccountState, OpenFault};
use keeper::Stores;
use keeper_fs::{FsKeeper, FsStores};
use quota_roots::{LimitsList, NameList, RootSpec, Roots, Setup};
use quota_units::{Limits, Name};
use std::alloc::Global;
use std::fs::Files;
use std::os::unix::fs::symlink;
use std::os::unix::io::AsRawFd;
use std::process::Abort;
use std::test::Fail;
use std::{fs, io};

// Each line is a step, which is a call. Its answer comes after an arrow. In a text `;` stands for a
// line feed and `_` for a space.

/// The steps after the account is opened for the first time.
const FIRST: &str = "standings => doubt;doubt;
deliver INBOX 400 - => Delivered { number: 1 }
deliver INBOX 300 S => Delivered { number: 2 }
deliver Lists 50 - => Delivered { number: 3 }
deliver Lists 60 T => Delivered { number: 4 }
deliver Trash 1000 - => Delivered { number: 5 }
mark INBOX 1700000000.1.quotad FS => Marked
move Lists 1700000000.3.quotad INBOX => Moved
move Lists 1700000000.3.quotad INBOX => NoMessage
remove INBOX 1700000000.2.quotad => Removed
limits lists - 7 => 60 1 of None Some(7)
deliver INBOX 99491 - => Over { root: 0, resource: Storage }
usage 0 => 510 3
usage 1 => 60 1
standings => settled;settled;";

/// The files that are left after these steps.
const FIRST_FILES: [(&str, &str); 4] = [
    ("ann/new", "1700000000.3.quotad,S=50;"),
    ("ann/cur", "1700000000.1.quotad,S=400:2,FS;"),
    ("ann/.Lists/cur", "1700000000.4.quotad,S=60:2,T;"),
    ("ann/.Trash/new", "1700000000.5.quotad,S=1000;"),
];

const FIRST_LEDGERS: [(&str, &str); 2] = [
    (
        "ann/maildirsize",
        "100000S,10C;0_0;400_1;300_1;50_1;60_1;-300_-1;",
    ),
    ("ann/maildirsize.1", "7C;60_1;"),
];

/// The steps after it is opened again, in the next second. The messages, the limits and the usages
/// are as they were.
const SECOND: &str = "standings => doubt;doubt;
usage 0 => 510 3
quota lists => 60 1 of None Some(7)
deliver INBOX 10 - => Delivered { number: 1 }
mark INBOX 1700000000.1.quotad - => Marked
move INBOX 1700000000.1.quotad Lists => Moved
quota - => 520 4 of Some(100000) Some(10)
usage 1 => 460 2";

const SECOND_FILES: [(&str, &str); 4] = [
    (
        "ann/new",
        "1700000000.3.quotad,S=50;1700000001.1.quotad,S=10;",
    ),
    ("ann/cur", ""),
    (
        "ann/.Lists/cur",
        "1700000000.1.quotad,S=400:2,;1700000000.4.quotad,S=60:2,T;",
    ),
    ("ann/.Trash/new", "1700000000.5.quotad,S=1000;"),
];

const SECOND_LEDGERS: [(&str, &str); 2] = [
    ("ann/maildirsize", "100000S,10C;510_3;10_1;"),
    ("ann/maildirsize.1", "7C;60_1;400_1;"),
];

type Account = AccountState<FsKeeper<HostRuntime>>;

fn limits(octets: Option<u64>, count: Option<u64>) -> Result<Limits, Fail> {
    Ok(Limits::new(octets, count).ok_or("limits in range")?)
}

/// The setup: INBOX, Lists and Trash; a root with limits of 100000 octets and 10 messages, and a
/// root of the lists with a limit of 5 messages.
fn setup(alloc: Global) -> Result<Setup, Fail> {
    let all = RootSpec {
        name: Name::of(alloc, b"")?,
        prefix: None,
    };
    let lists = RootSpec {
        name: Name::of(alloc, b"lists")?,
        prefix: Some(Name::of(alloc, b"Lists")?),
    };
    let mut mailboxes = Vec::new(alloc);
    for name in [b"INBOX".as_slice(), b"Lists", b"Trash"] {
        mailboxes.push(Name::of(alloc, name)?)?;
    }
    let limits = vec![in alloc; limits(Some(100000), Some(10))?, limits(None, Some(5))?]?;
    Ok(Setup {
        roots: Roots::new(vec![in alloc; all, lists]?)?,
        limits: LimitsList::new(limits),
        mailboxes: NameList::new(mailboxes),
        journal: 100,
    })
}

/// Opens the account `ann` at this second.
fn open(alloc: Global, stores: &mut FsStores<HostRuntime>, second: u64) -> Result<Account, Fail> {
    let setup = setup(alloc)?;
    if !setup.is_sound() {
        return Err("an unsound setup".into());
    }
    let keeper = stores.open(alloc, b"ann")?;
    match AccountState::open(alloc, keeper, setup, second) {
        Ok(account) => Ok(account),
        Err(fault) => {
            let OpenFault { cause, keeper } = fault;
            stores.close(b"ann", keeper);
            Err(cause.into())
        }
    }
}

/// Closes the account, and returns the keeper's two counts of faults. The second is that of
/// appends.
fn close(stores: &mut FsStores<HostRuntime>, account: Account) -> (u64, u64) {
    let keeper = account.into_keeper();
    let faults = (keeper.faults(), keeper.append_faults());
    stores.close(b"ann", keeper);
    faults
}

/// The names in a folder, in their order.
fn names_in(rt: &(impl Files + AllocGlobal + Clone + Drop), folder: &str) -> Result<String, Fail> {
    let alloc = rt.alloc();
    let mut names = Vec::new(alloc);
    for entry in fs::read_dir(rt, folder)? {
        let entry = entry?;
        names.push(format!(in alloc; "{};", entry.file_name())?)?;
    }
    names.sort()?;
    let mut shown = String::new(alloc);
    for name in names.iter() {
        shown.push_str(name.as_str())?;
    }
    Ok(shown)
}

/// Checks which names are in folders.
fn check_folders(
    rt: &(impl Abort + Files + AllocGlobal + Clone + Drop),
    folders: &[(&str, &str)],
) -> Result<(), Fail> {
    for (folder, expected) in folders {
        let path = format!(in rt.alloc(); "mail/{folder}")?;
        let names = names_in(rt, path.as_str())?;
        assert_eq!(rt; names.as_str(), *expected, "{folder}");
    }
    Ok(())
}

/// Checks the texts of files.
fn check_files(
    rt: &(impl Abort + Files + AllocGlobal),
    files: &[(&str, &str)],
) -> Result<(), Fail> {
    let alloc = rt.alloc();
    for (path, expected) in files {
        let text = fs::read_to_string(rt, format!(in alloc; "mail/{path}")?.as_str())?;
        let text = text.replace(alloc, "\n", ";")?.replace(alloc, " ", "_")?;
        assert_eq!(rt; text.as_str(), *expected, "{path}");
    }
    Ok(())
}

/// The stores in a new folder `mail`.
fn stores(rt: HostRuntime) -> Result<FsStores<HostRuntime>, Fail> {
    let _ = fs::remove_dir_all(&rt, "mail");
    fs::create_dir(&rt, "mail")?;
    Ok(FsStores::new(rt, b"mail".to_vec(rt.alloc())?))
}

#[test]
fn an_account_is_as_it_was_when_it_is_opened_again(rt: HostRuntime) -> Result<(), Fail> {
    let alloc = rt.alloc();
    let mut stores = stores(rt)?;
    for (second, steps, folders, ledgers) in [
        (1700000000, FIRST, FIRST_FILES, FIRST_LEDGERS),
        (1700000001, SECOND, SECOND_FILES, SECOND_LEDGERS),
    ] {
        let mut account = open(alloc, &mut stores, second)?;
        check_steps(alloc, &mut account, steps)?;
        assert_eq!(rt; close(&mut stores, account), (0, 0));
        check_folders(&rt, &folders)?;
        check_files(&rt, &ledgers)?;
    }
    assert_eq!(rt; stores.faults(), 0);
    fs::remove_dir_all(&rt, "mail")?;
    Ok(())
}

/// What is in the place of a ledger.
#[derive(Drop)]
enum Found {
    Text(&'static str),
    Folder,
    Link(&'static str),
    Pipe,
    Nothing,
}

/// Puts this in the place of the ledger of root 0. The value that it returns keeps a pipe open.
fn put_ledger(
    rt: &HostRuntime,
    found: &Found,
) -> Result<Option<(io::PipeReader, io::PipeWriter)>, Fail> {
    let alloc = rt.alloc();
    let path = "mail/ann/maildirsize";
    match found {
        Found::Text(text) => {
            let text = text.replace(alloc, "LONG", "1S,".repeat(alloc, 2000)?.as_str())?;
            fs::write(rt, path, text.as_str())?;
        }
        Found::Folder => fs::create_dir(rt, path)?,
        Found::Link(target) => symlink(rt, *target, path)?,
        Found::Pipe => {
            let (reader, writer) = io::pipe(rt)?;
            let pipe = format!(in alloc; "/proc/self/fd/{}", reader.as_raw_fd())?;
            symlink(rt, pipe.as_str(), path)?;
            return Ok(Some((reader, writer)));
        }
        Found::Nothing => {}
    }
    Ok(None)
}

/// The limits of the setup.
const OWN: &str = "quota - => 7 1 of Some(100000) Some(10)
standings => settled;doubt;";

/// Limits of a ledger.
const OTHER: &str = "quota - => 7 1 of Some(900) Some(9)
standings => settled;doubt;";

/// A folder stays in the place of the ledger.
const STUCK: &str = "quota - => Store
standings => doubt;doubt;";

#[test]
fn no_ledger_keeps_an_account_from_being_opened(rt: HostRuntime) -> Result<(), Fail> {
    let alloc = rt.alloc();
    for (found, steps, ledger, faults) in [
        (Found::Text("900S,9C\n12"), OTHER, "900S,9C;7_1;", 0),
        (Found::Text("900S,9C\n1 1\nLONG"), OTHER, "900S,9C;7_1;", 0),
        (Found::Text("\u{e9}\0garbage\n"), OWN, "100000S,10C;7_1;", 0),
        (Found::Text("1S,LONG1S"), OWN, "100000S,10C;7_1;", 0),
        (Found::Link("/dev/zero"), OWN, "100000S,10C;7_1;", 0),
        (Found::Link("maildirsize"), OWN, "100000S,10C;7_1;", 0),
        (Found::Pipe, OWN, "100000S,10C;7_1;", 0),
        (Found::Nothing, OWN, "100000S,10C;7_1;", 0),
        (Found::Folder, STUCK, "", 1),
    ] {
        let mut stores = stores(rt)?;
        fs::create_dir_all(&rt, "mail/ann/new")?;
        fs::write(&rt, "mail/ann/new/1.mx", "1234567")?;
        let _kept = put_ledger(&rt, &found)?;
        let mut account = open(alloc, &mut stores, 1700000000)?;
        check_steps(alloc, &mut account, steps)?;
        assert_eq!(rt; close(&mut stores, account), (faults, 0));
        if !ledger.is_empty() {
            check_files(&rt, &[("ann/maildirsize", ledger)])?;
        }
        fs::remove_dir_all(&rt, "mail")?;
    }
    Ok(())
}

#[test]
fn a_ledger_that_goes_away_is_written_anew_with_its_limits(rt: HostRuntime) -> Result<(), Fail> {
    let alloc = rt.alloc();
    let mut stores = stores(rt)?;
    let mut account = open(alloc, &mut stores, 1700000000)?;
    let before = "limits - 900 9 => 0 0 of Some(900) Some(9)
deliver INBOX 100 - => Delivered { number: 1 }
standings => settled;doubt;";
    check_steps(alloc, &mut account, before)?;
    fs::remove_file(&rt, "mail/ann/maildirsize")?;
    let after = "deliver INBOX 10 - => Delivered { number: 2 }
standings => doubt;doubt;
usage 0 => 110 2";
    check_steps(alloc, &mut account, after)?;
    assert_eq!(rt; close(&mut stores, account), (0, 1));
    assert_eq!(rt; stores.faults(), 0);
    check_files(&rt, &[("ann/maildirsize", "900S,9C;110_2;")])?;
    fs::remove_dir_all(&rt, "mail")?;
    Ok(())
}
