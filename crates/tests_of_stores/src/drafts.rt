// Which of the files that an earlier run left in `tmp` an opening removes.

use crate::folders::ann;
use keeper::Stores;
use keeper_fs::FsStores;
use std::fs;
use std::fs::OpenOptions;
use std::os::unix::fs::symlink;
use std::test::Fail;
use std::time::{Duration, SystemTime};

/// Files, how many hours ago they were written, and whether they are there after an opening.
const FILES: [(&str, u64, bool); 13] = [
    ("ann/tmp/1700000000.1.quotad,S=3", 37, false),
    ("ann/tmp/1700000000.2.quotad,S=3", 35, true),
    ("ann/tmp/1700000000.3.quotad:2,S", 100, false),
    ("ann/tmp/1700000000.4.quotad.mx,S=3", 100, true),
    ("ann/tmp/1700000000.M5P6.mx,S=3.quotad", 100, true),
    ("ann/tmp/maildirsize", 100, true),
    ("ann/new/1700000000.6.quotad,S=3", 100, true),
    ("ann/cur/1700000000.7.quotad:2,S", 100, true),
    ("ann/.Sent/tmp/1700000000.8.quotad", 100, false),
    ("ann/.Sent/new/1700000000.9.quotad", 100, true),
    ("ann/Other/tmp/1700000000.10.quotad", 100, true),
    ("bob/tmp/1700000000.11.quotad", 100, true),
    ("ann/.Taken/cur/1700000000.12.quotad:2,", 100, true),
];

/// Writes a file, and makes the folders that hold it. The file's time is this many hours ago.
fn write_aged(rt: &HostRuntime, path: &str, hours: u64) -> Result<(), Fail> {
    if let Some((folder, _)) = path.rsplit_once('/') {
        fs::create_dir_all(rt, folder)?;
    }
    fs::write(rt, path, "one")?;
    let age = Duration::from_secs(hours.wrapping_mul(3600));
    let written = SystemTime::now(rt)?
        .checked_sub(age)
        .ok_or("an early clock")?;
    let file = OpenOptions::new().write(true).open(rt, path)?;
    file.set_modified(written)?;
    Ok(())
}

#[test]
fn only_what_an_earlier_run_left_long_ago_is_removed(rt: HostRuntime) -> Result<(), Fail> {
    let alloc = rt.alloc();
    let _ = ann(rt)?;
    for (path, hours, _) in FILES {
        write_aged(&rt, format!(in alloc; "mail/{path}")?.as_str(), hours)?;
    }
    // No link leads the opening to another folder.
    symlink(&rt, "../bob", "mail/ann/.Linked")?;
    symlink(&rt, "cur", "mail/ann/.Taken/tmp")?;
    let mut stores = FsStores::new(rt, b"mail".to_vec(alloc)?);
    let keeper = stores.open(alloc, b"ann")?;
    for (path, _, stays) in FILES {
        let there = fs::exists(&rt, format!(in alloc; "mail/{path}")?.as_str())?;
        assert_eq!(rt; there, stays, "{path}");
    }
    stores.close(b"ann", keeper);
    assert_eq!(rt; stores.faults(), 0);
    fs::remove_dir_all(&rt, "mail")?;
    Ok(())
}
