// The program over an accounts file, with the accounts' files in memory.
use crate::control::control;
use keeper::{Bytes, Keeper, MemKeeper, MemStores, StoreRow, Stores};
use quota_units::Name;
use std::alloc::Global;
use std::test::Fail;
use vectors::{Expected, Files, IMAP_RUNS, POLICY_RUNS, REFUSALS, Run, WORKLOAD_RUNS};
use wire_io::{MemSink, MemSource};

/// A message of one octet with this name.
fn row_of(alloc: Global, mailbox: &[u8], name: &str) -> Result<StoreRow, Fail> {
    Ok(StoreRow {
        mailbox: Name::of(alloc, mailbox)?,
        name: Bytes::new(name.as_bytes().to_vec(alloc)?),
        octets: Bytes::new(b"x".to_vec(alloc)?),
    })
}

/// The stores with the account `ann`, which has these files.
fn stores_of(alloc: Global, files: &Files) -> Result<MemStores, Fail> {
    let mut rows = Vec::new(alloc);
    for name in files.names {
        rows.push(row_of(alloc, b"INBOX", name)?)?;
    }
    for name in files.trash {
        rows.push(row_of(alloc, b"Trash", name)?)?;
    }
    let ledger = match files.ledger {
        None => None,
        Some(bytes) => Some(bytes.to_vec(alloc)?),
    };
    let mut fails = Vec::new(alloc);
    if let Some(fail) = files.fail {
        fails.push(fail)?;
    }
    let keeper = MemKeeper::new(alloc, rows, vec![in alloc; ledger]?, fails)?;
    let mut keepers = Vec::new(alloc);
    keepers.push((Name::of(alloc, b"ann")?, Some(keeper)))?;
    Ok(MemStores::new(keepers))
}

/// The status, and what was written.
fn outcome(alloc: Global, run: &Run, stores: &mut MemStores) -> Result<(u8, Vec<u8>), Fail> {
    let mut words = Vec::new(alloc);
    for word in run.words {
        words.push(word.to_string(alloc)?)?;
    }
    let mut source = MemSource::new(run.input.to_vec(alloc)?, 4096, Vec::new(alloc));
    let mut sink = MemSink::new(alloc, 4096, 65536, Vec::new(alloc))?;
    let status = control(
        alloc,
        words.as_slice(),
        run.file.as_bytes(),
        stores,
        1700000000,
        &mut source,
        &mut sink,
    );
    Ok((status, sink.as_slice().to_vec(alloc)?))
}

/// Opens the account `ann` again, which is closed, and gives the number of messages in INBOX and
/// the ledger.
fn files_after(alloc: Global, stores: &mut MemStores) -> Result<(usize, Option<Vec<u8>>), Fail> {
    let mut keeper = stores.open(alloc, b"ann")?;
    let files = keeper.list(alloc, b"INBOX")?;
    let ledger = keeper.read_ledger(alloc, 0)?;
    Ok((files.len(), ledger))
}

/// Makes a run, and checks what it writes and leaves.
fn check_run(alloc: Global, run: &Run, expected: &Expected) -> Result<(), Fail> {
    let mut stores = stores_of(alloc, &run.files)?;
    let (status, written) = outcome(alloc, run, &mut stores)?;
    if written.as_slice() != expected.output {
        return Err("another text".into());
    }
    if status != expected.status {
        return Err("another status".into());
    }
    let (messages, ledger) = files_after(alloc, &mut stores)?;
    if messages != expected.messages {
        return Err("other messages".into());
    }
    if ledger.as_deref() != expected.ledger {
        return Err("another ledger".into());
    }
    Ok(())
}

#[test]
fn sessions_are_served_over_an_accounts_file(rt: HostRuntime) -> Result<(), Fail> {
    let alloc = rt.alloc();
    for (run, expected) in &IMAP_RUNS {
        check_run(alloc, run, expected)?;
    }
    for (run, expected) in &POLICY_RUNS {
        check_run(alloc, run, expected)?;
    }
    Ok(())
}

#[test]
fn a_workload_is_summed_up(rt: HostRuntime) -> Result<(), Fail> {
    for (run, expected) in &WORKLOAD_RUNS {
        check_run(rt.alloc(), run, expected)?;
    }
    Ok(())
}

#[test]
fn the_first_refusal_is_told(rt: HostRuntime) -> Result<(), Fail> {
    let alloc = rt.alloc();
    for (words, file, files, line, due) in &REFUSALS {
        let run = Run {
            words,
            file,
            files: *files,
            input: b"a1 NOOP\r\n",
        };
        let mut stores = stores_of(alloc, files)?;
        let (status, written) = outcome(alloc, &run, &mut stores)?;
        assert_eq!(rt; written.as_slice(), *line, "{words:?} {file:?}");
        assert_eq!(rt; status, *due, "{words:?} {file:?}");
        let (messages, _ledger) = files_after(alloc, &mut stores)?;
        assert_eq!(rt; messages, files.names.len(), "{words:?} {file:?}");
    }
    Ok(())
}
