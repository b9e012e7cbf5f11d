ghost use Rattle.std.specs.Prelude.{◌<◌};

use keeper::{
    Bytes, FixedKeeper, KeepCall, KeepError, KeepFail, Keeper, MemKeeper, MemStores, StoreRow,
    Stores,
};
use quota_units::{Failed, Name};
use std::alloc::Global;
use std::process::Abort;
use std::test::Fail;

fn row(alloc: Global, mailbox: &[u8], name: &[u8], octets: &[u8]) -> Result<StoreRow, Fail> {
    Ok(StoreRow {
        mailbox: Name::of(alloc, mailbox)?,
        name: Bytes::new(name.to_vec(alloc)?),
        octets: Bytes::new(octets.to_vec(alloc)?),
    })
}

/// A keeper with the files `a` of 3 octets and `b` of 5 octets in INBOX, another file `a` in Lists,
/// and a ledger of root 0.
fn keeper(alloc: Global, fails: &[KeepFail]) -> Result<MemKeeper, Fail> {
    let rows = vec![in alloc;
        row(alloc, b"INBOX", b"a", b"123")?,
        row(alloc, b"Lists", b"a", b"1")?,
        row(alloc, b"INBOX", b"b", b"12345")?,
    ]?;
    let ledgers = vec![in alloc; Some(b"0S\n".to_vec(alloc)?)]?;
    Ok(MemKeeper::new(alloc, rows, ledgers, fails.to_vec(alloc)?)?)
}

/// Checks the names and the lengths of the files of a mailbox.
fn check_files<K: Keeper>(
    rt: &impl Abort,
    alloc: Global,
    keeper: &mut K,
    mailbox: &[u8],
    expected: &[(&[u8], u64)],
) -> Result<(), Fail> {
    let files = keeper.list(alloc, mailbox)?;
    assert_eq!(rt; files.len(), expected.len());
    for (file, (name, length)) in files.iter().zip(expected) {
        assert_eq!(rt; file.name.as_slice(), *name);
        assert_eq!(rt; file.length, *length);
    }
    Ok(())
}

/// Checks the bytes of a root's ledger.
fn check_ledger<K: Keeper>(
    rt: &impl Abort,
    alloc: Global,
    keeper: &mut K,
    root: u32,
    expected: Option<&[u8]>,
) -> Result<(), Fail>
    requires { root < 4 }
{
    let found = keeper.read_ledger(alloc, root)?;
    let found = found.as_ref().map(|bytes| bytes.as_slice());
    assert_eq!(rt; found, expected);
    Ok(())
}

/// Makes a call of this kind, and returns whether it succeeded.
fn call(alloc: Global, keeper: &mut MemKeeper, kind: KeepCall, at: usize) -> bool
    requires { at < 3 }
{
    let names: [&[u8]; 3] = [b"x", b"y", b"z"];
    let sources: [&[u8]; 3] = [b"a", b"b", b"b"];
    let texts: [&[u8]; 3] = [b"1S\n", b"2S\n", b"3S\n"];
    match kind {
        KeepCall::List => keeper.list(alloc, b"INBOX").is_ok(),
        KeepCall::Put => keeper.put(alloc, b"INBOX", names[at], b"1234").is_ok(),
        KeepCall::Rename => keeper
            .rename(alloc, b"INBOX", sources[at], b"INBOX", names[at])
            .is_ok(),
        KeepCall::Remove => keeper.remove(b"INBOX", sources[at]).is_ok(),
        KeepCall::ReadLedger => keeper.read_ledger(alloc, 0).is_ok(),
        KeepCall::AppendLedger => append(alloc, keeper, b"10 1\n"),
        KeepCall::InstallLedger => keeper.install_ledger(0, texts[at]).is_ok(),
    }
}

/// Appends a line to the ledger of root 0, if there is room.
fn append(alloc: Global, keeper: &mut MemKeeper, line: &[u8]) -> bool {
    let Ok(Some(bytes)) = keeper.read_ledger(alloc, 0) else {
        return false;
    };
    if bytes.len() >= 5120 || line.len() >= 5120 - bytes.len() {
        return false;
    }
    keeper.append_ledger(0, line).is_ok()
}

/// A kind of call; then the files of INBOX and the ledger of root 0 after the second call of the
/// kind failed.
type Row<'a> = (KeepCall, &'a [(&'a [u8], u64)], &'a [u8]);

#[test]
fn a_call_that_is_to_fail_fails_once_and_leaves_the_files(rt: HostRuntime) -> Result<(), Fail> {
    let alloc = rt.alloc();
    let table: [Row; 7] = [
        (KeepCall::List, &[(b"a", 3), (b"b", 5)], b"0S\n"),
        (KeepCall::Put, &[(b"a", 3), (b"b", 5), (b"x", 4)], b"0S\n"),
        (KeepCall::Rename, &[(b"x", 3), (b"b", 5)], b"0S\n"),
        (KeepCall::Remove, &[(b"b", 5)], b"0S\n"),
        (KeepCall::ReadLedger, &[(b"a", 3), (b"b", 5)], b"0S\n"),
        (
            KeepCall::AppendLedger,
            &[(b"a", 3), (b"b", 5)],
            b"0S\n10 1\n10",
        ),
        (KeepCall::InstallLedger, &[(b"a", 3), (b"b", 5)], b"1S\n"),
    ];
    for (kind, files, ledger) in table {
        let mut keeper = keeper(alloc, &[KeepFail { kind, nth: 2 }])?;
        assert!(rt; call(alloc, &mut keeper, kind, 0), "{kind:?}");
        assert!(rt; !call(alloc, &mut keeper, kind, 1), "{kind:?}");
        check_files(&rt, alloc, &mut keeper, b"INBOX", files)?;
        check_files(&rt, alloc, &mut keeper, b"Lists", &[(b"a", 1)])?;
        check_ledger(&rt, alloc, &mut keeper, 0, Some(ledger))?;
        check_ledger(&rt, alloc, &mut keeper, 1, None)?;
        assert!(rt; call(alloc, &mut keeper, kind, 2), "{kind:?}");
    }
    Ok(())
}

#[test]
fn two_equal_entries_fail_one_call(rt: HostRuntime) -> Result<(), Fail> {
    let alloc = rt.alloc();
    let fail = KeepFail {
        kind: KeepCall::InstallLedger,
        nth: 1,
    };
    let mut keeper = keeper(alloc, &[fail, fail])?;
    assert_eq!(rt; keeper.install_ledger(0, b"1S\n"), Err(Failed));
    assert_eq!(rt; keeper.install_ledger(0, b"2S\n"), Ok(()));
    check_ledger(&rt, alloc, &mut keeper, 0, Some(b"2S\n"))
}

#[test]
fn a_keeper_that_never_fails_keeps_what_it_is_given(rt: HostRuntime) -> Result<(), Fail> {
    let alloc = rt.alloc();
    let mut keeper = FixedKeeper::new(alloc)?;
    check_files(&rt, alloc, &mut keeper, b"INBOX", &[])?;
    keeper.put(alloc, b"INBOX", b"a", b"123")?;
    keeper.put(alloc, b"Lists", b"b", b"12345")?;
    keeper.rename(alloc, b"Lists", b"b", b"INBOX", b"c:2,S")?;
    check_files(
        &rt,
        alloc,
        &mut keeper,
        b"INBOX",
        &[(b"a", 3), (b"c:2,S", 5)],
    )?;
    check_files(&rt, alloc, &mut keeper, b"Lists", &[])?;
    keeper.remove(b"INBOX", b"a")?;
    check_files(&rt, alloc, &mut keeper, b"INBOX", &[(b"c:2,S", 5)])?;
    keeper.install_ledger(3, b"0S\n5 1\n")?;
    check_ledger(&rt, alloc, &mut keeper, 3, Some(b"0S\n5 1\n"))?;
    check_ledger(&rt, alloc, &mut keeper, 0, None)
}

#[test]
fn stores_give_each_keeper_out_once_and_forget_its_faults(rt: HostRuntime) -> Result<(), Fail> {
    let alloc = rt.alloc();
    let fail = KeepFail {
        kind: KeepCall::Remove,
        nth: 1,
    };
    let first = keeper(alloc, &[fail])?;
    let second = MemKeeper::new(alloc, Vec::new(alloc), Vec::new(alloc), Vec::new(alloc))?;
    let keepers = vec![in alloc;
        (Name::of(alloc, b"ann")?, Some(first)),
        (Name::of(alloc, b"ann")?, Some(second)),
        (Name::of(alloc, b"bob")?, None),
    ]?;
    let mut stores = MemStores::new(keepers);
    assert_eq!(rt; stores.open(alloc, b"bob").err(), Some(KeepError::Failed));
    assert_eq!(rt; stores.open(alloc, b"eve").err(), Some(KeepError::Failed));
    let mut ann = stores.open(alloc, b"ann")?;
    assert_eq!(rt; stores.open(alloc, b"ann").err(), Some(KeepError::Failed));
    assert_eq!(rt; ann.remove(b"INBOX", b"a"), Err(Failed));
    assert_eq!(rt; ann.faults(), 1);
    stores.close(b"ann", ann);
    let mut ann = stores.open(alloc, b"ann")?;
    assert_eq!(rt; ann.faults(), 0);
    check_files(&rt, alloc, &mut ann, b"INBOX", &[(b"a", 3), (b"b", 5)])?;
    stores.close(b"eve", ann);
    assert_eq!(rt; stores.open(alloc, b"eve").err(), Some(KeepError::Failed));
    Ok(())
}
