ghost use Rattle.std.specs.Prelude.{◌≡◌};
ghost use Rattle.std.specs.Time.{system_time_nanos};
ghost use Rattle.keeper_fs.specs.Drafts.{is_delivery, was_left};

use message_names::base_of;
use std::alloc::Global;
use std::fs::{DirEntry, Files};
use std::time::{Clock, Duration, SystemTime};
use std::{fs, io};

/// A file in `tmp` counts as left behind after this many seconds: 36 hours.
const SECONDS_LEFT: u64 = 129600;

/// Removes the messages that an earlier run left in `tmp` of the account in this folder and of its
/// folders `.<mailbox>`. It follows no link inside the account's folder. What can't be removed
/// stays.
pub(crate) fn remove_left<R: Files + AllocGlobal + Clock + Clone + Drop>(rt: &R, account: &str) {
    if let Ok(now) = SystemTime::now(rt) {
        let _ = clear_mailbox(rt, account, now);
        let _ = clear_others(rt, account, now);
    }
}

/// Removes the messages that were left in the folders `.<mailbox>` of an account.
fn clear_others<R: Files + AllocGlobal + Clone + Drop>(
    rt: &R,
    account: &str,
    now: SystemTime,
) -> io::Result<()> {
    for entry in fs::read_dir(rt, account)? {
        if let Ok(entry) = entry {
            let _ = clear_other(rt, &entry, now);
        }
    }
    Ok(())
}

fn clear_other<R: Files + AllocGlobal + Clone + Drop>(
    rt: &R,
    entry: &DirEntry<R, Global>,
    now: SystemTime,
) -> io::Result<()> {
    if entry.file_name().starts_with('.') && entry.metadata()?.is_dir() {
        clear_mailbox(rt, entry.path().as_str(), now)?;
    }
    Ok(())
}

/// Removes the messages that were left in `tmp` of a mailbox's folder.
fn clear_mailbox<R: Files + AllocGlobal + Clone + Drop>(
    rt: &R,
    folder: &str,
    now: SystemTime,
) -> io::Result<()> {
    let tmp = format!(in rt.alloc(); "{folder}/tmp")?;
    if !fs::symlink_metadata(rt, tmp.as_str())?.is_dir() {
        return Ok(());
    }
    for entry in fs::read_dir(rt, tmp.as_str())? {
        if let Ok(entry) = entry {
            let _ = clear_draft(rt, &entry, now);
        }
    }
    Ok(())
}

/// Removes a file if it is a message that was left behind.
fn clear_draft<R: Files + AllocGlobal + Clone + Drop>(
    rt: &R,
    entry: &DirEntry<R, Global>,
    now: SystemTime,
) -> io::Result<()> {
    if !is_delivery(entry.file_name().as_bytes()) {
        return Ok(());
    }
    let metadata = entry.metadata()?;
    if metadata.is_file() && was_left(metadata.modified()?, now) {
        fs::remove_file(rt, entry.path())?;
    }
    Ok(())
}

/// Whether the service gives a name like this to a message that it is delivering.
fn is_delivery(name: &[u8]) -> bool
    ensures { result ≡ is_delivery name.now }
{
    base_of(name).ends_with(b".quotad")
}

/// Whether a file that was written at this time is older than 36 hours now.
fn was_left(written: SystemTime, now: SystemTime) -> bool
    ensures { result ≡ was_left (system_time_nanos written) (system_time_nanos now) }
{
    match now.duration_since(written) {
        Ok(age) => age > Duration::from_secs(SECONDS_LEFT),
        Err(_) => false,
    }
}
