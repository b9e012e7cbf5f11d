// Openings of accounts over a keeper in memory, which tells its files.

use account_opening::{OpenError, admit_files};
use keeper::{Bytes, KeepCall, KeepFail, MemKeeper, StoreRow};
use quota_roots::{LimitsList, NameList, RootSpec, Roots, Setup};
use quota_units::{Limits, Name};
use std::alloc::Global;
use std::test::Fail;

/// A setup with the mailboxes INBOX and Lists, and one root of 1024 octets.
fn setup(alloc: Global) -> Result<Setup, Fail> {
    let root = RootSpec {
        name: Name::of(alloc, b"")?,
        prefix: None,
    };
    let limits = Limits::new(Some(1024), None).ok_or("limits in range")?;
    let inbox = Name::of(alloc, b"INBOX")?;
    let lists = Name::of(alloc, b"Lists")?;
    Ok(Setup {
        roots: Roots::new(vec![in alloc; root]?)?,
        limits: LimitsList::new(vec![in alloc; limits]?),
        mailboxes: NameList::new(vec![in alloc; inbox, lists]?),
        journal: 1,
    })
}

/// Opens an account of the epoch 1700000000 over a keeper that fails these calls. The keeper has
/// empty files in these mailboxes with these names, and this ledger.
fn open(
    alloc: Global,
    files: &[(&[u8], &[u8])],
    ledger: Option<&[u8]>,
    fails: &[KeepFail],
) -> Result<Result<Vec<Limits>, OpenError>, Fail> {
    let mut rows = Vec::new(alloc);
    for (mailbox, name) in files {
        rows.push(StoreRow {
            mailbox: Name::of(alloc, mailbox)?,
            name: Bytes::new(name.to_vec(alloc)?),
            octets: Bytes::new(Vec::new(alloc)),
        })?;
    }
    let ledger = match ledger {
        None => None,
        Some(bytes) => Some(bytes.to_vec(alloc)?),
    };
    let ledgers = vec![in alloc; ledger]?;
    let mut keeper = MemKeeper::new(alloc, rows, ledgers, fails.to_vec(alloc)?)?;
    let setup = setup(alloc)?;
    if setup.limits.as_slice().len() > 4 {
        return Err("limits of at most four roots".into());
    }
    Ok(admit_files(alloc, &mut keeper, &setup, 1700000000))
}

#[test]
fn limits_are_those_of_the_ledger_or_else_of_the_setup(rt: HostRuntime) -> Result<(), Fail> {
    let alloc = rt.alloc();
    let table: [(Option<&[u8]>, Option<u64>, Option<u64>); 7] = [
        (None, Some(1024), None),
        (Some(b""), Some(1024), None),
        (Some(b"1S;\n"), Some(1024), None),
        (Some(b"1500S\n"), Some(1500), None),
        (Some(b"0S\n5 1\n"), None, None),
        (Some(b"7C"), None, Some(7)),
        (
            Some(b"10000000S,1000C\n1234 1\n-1234 -1"),
            Some(10000000),
            Some(1000),
        ),
    ];
    for (ledger, octets, count) in table {
        let limits = Limits::new(octets, count).ok_or("limits in range")?;
        let files: [(&[u8], &[u8]); 2] = [(b"INBOX", b"a.mx"), (b"Lists", b"a.mx")];
        let found = open(alloc, &files, ledger, &[])?.map_err(|_| "an account that may be opened")?;
        assert_eq!(rt; found.as_slice(), [limits].as_slice());
    }
    Ok(())
}

#[test]
fn a_refusal_names_the_first_255_bytes_of_a_base(rt: HostRuntime) -> Result<(), Fail> {
    let alloc = rt.alloc();
    for length in [254usize, 255, 256, 300] {
        let base = vec![in alloc; b'x'; length]?;
        let mut marked = base.to_vec(alloc)?;
        marked.extend_from_slice(b",S=5:2,S")?;
        let files: [(&[u8], &[u8]); 2] = [(b"Lists", &base), (b"Lists", &marked)];
        let Err(OpenError::DoubleName { name }) = open(alloc, &files, None, &[])? else {
            return Err("a base that occurs twice".into());
        };
        let mut shown = base.to_vec(alloc)?;
        shown.truncate(255);
        assert_eq!(rt; name.as_slice(), shown.as_slice());

        let mut used = b"1700000000.".to_vec(alloc)?;
        used.extend_from_slice(&base)?;
        used.extend_from_slice(b".quotad")?;
        let files: [(&[u8], &[u8]); 1] = [(b"Lists", &used)];
        let Err(OpenError::EpochUsed { name }) = open(alloc, &files, None, &[])? else {
            return Err("a base of this epoch".into());
        };
        used.truncate(255);
        assert_eq!(rt; name.as_slice(), used.as_slice());
    }
    Ok(())
}

/// The kind of an answer.
fn kind_of(answer: &Result<Vec<Limits>, OpenError>) -> &'static str {
    match answer {
        Ok(_) => "opened",
        Err(OpenError::Store) => "store",
        Err(OpenError::TooManyMessages { .. }) => "too many",
        Err(OpenError::DoubleName { .. }) => "double",
        Err(OpenError::EpochUsed { .. }) => "used",
        Err(OpenError::NoMemory) => "no memory",
    }
}

#[test]
fn mailboxes_are_listed_before_files_are_judged_and_ledgers_read(
    rt: HostRuntime,
) -> Result<(), Fail> {
    let alloc = rt.alloc();
    let first = KeepFail {
        kind: KeepCall::List,
        nth: 1,
    };
    let second = KeepFail {
        kind: KeepCall::List,
        nth: 2,
    };
    let ledger = KeepFail {
        kind: KeepCall::ReadLedger,
        nth: 1,
    };
    let double: [(&[u8], &[u8]); 2] = [(b"INBOX", b"a.mx"), (b"INBOX", b"a.mx:2,S")];
    let used: [(&[u8], &[u8]); 1] = [(b"INBOX", b"1700000000.4.quotad,S=1")];
    let plain: [(&[u8], &[u8]); 2] = [(b"INBOX", b"a.mx"), (b"Lists", b"a.mx")];
    let table: [(&[(&[u8], &[u8])], KeepFail, &str); 9] = [
        (&double, first, "store"),
        (&double, second, "store"),
        (&double, ledger, "double"),
        (&used, first, "store"),
        (&used, second, "store"),
        (&used, ledger, "used"),
        (&plain, first, "store"),
        (&plain, second, "store"),
        (&plain, ledger, "store"),
    ];
    for (files, fail, expected) in table {
        let answer = open(alloc, files, Some(b"1500S\n"), &[fail])?;
        assert_eq!(rt; kind_of(&answer), expected);
    }
    Ok(())
}
