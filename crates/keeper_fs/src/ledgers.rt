ghost use Rattle.std.specs.Prelude.{◌≡◌, ◌<◌, ◌≤◌, length, take, IfOk, IfSome, IsErr};
ghost use Rattle.std.specs.String.{string_bytes};
ghost use Rattle.keeper_fs.specs.Ledgers.{AreWholeLines};
ghost use Rattle.keeper_fs.specs.Paths.{ledger_name, path_in};

use crate::errors::{cause, fault};
use crate::folders::{Mailbox, path_in};
use crate::writing::replace_file;
use keeper::KeepError;
use memchr::memrchr;
use std::alloc::{AllocError, Global};
use std::fs::{Files, OpenFile, OpenOptions};
use std::io::{ErrorKind, Read, Write};
use std::{fs, io};

/// A ledger has fewer octets than this.
const LEDGER_ROOM: u64 = 5120;

/// The file name of a root's ledger: `maildirsize` for root 0, and `maildirsize.<k>` for root k.
fn ledger_name(alloc: Global, root: u32) -> Result<String, AllocError>
    ensures { IfOk result (λ name. string_bytes name ≡ ledger_name root) }
{
    if root == 0 {
        String::from_str(alloc, "maildirsize")
    } else {
        format!(in alloc; "maildirsize.{root}")
    }
}

/// The path of a root's ledger.
fn ledger_path(alloc: Global, account: &str, root: u32) -> Result<String, AllocError>
    ensures { IfOk result (λ path. string_bytes path ≡ path_in account.now (ledger_name root)) }
{
    let name = ledger_name(alloc, root)?;
    path_in(alloc, account, name.as_str())
}

/// The bytes of a root's ledger, or `None` if no regular file has its name. If the file has 5120
/// octets or more, these are only the whole lines among its first 5120.
pub(crate) fn read<R: Files>(
    rt: &R,
    alloc: Global,
    account: &str,
    root: u32,
) -> Result<Option<Vec<u8>>, KeepError>
    ensures { IfOk result (λ found. IfSome found (λ text. length text.items ≤ 5120)) }
{
    let path = ledger_path(alloc, account, root)?;
    let Some(file) = open_ledger(rt, path.as_str()).map_err(cause)? else {
        return Ok(None);
    };
    let mut text = Vec::new(alloc);
    file.take(LEDGER_ROOM)
        .read_to_end(&mut text)
        .map_err(cause)?;
    keep_whole_lines(&mut text);
    Ok(Some(text))
}

/// Opens a ledger, or gives `None` if there is no regular file at this path. It opens regular files
/// only.
fn open_ledger<R: Files>(rt: &R, path: &str) -> io::Result<Option<R::File>> {
    match open_regular(rt, path) {
        Err(error) if is_no_file(error.kind()) => Ok(None),
        opened => opened,
    }
}

/// Whether an error of this kind says that a path leads to no file: there is none, or the path's
/// links form a loop.
fn is_no_file(kind: ErrorKind) -> bool {
    kind == ErrorKind::NotFound || kind == ErrorKind::FilesystemLoop
}

fn open_regular<R: Files>(rt: &R, path: &str) -> io::Result<Option<R::File>> {
    if !fs::metadata(rt, path)?.is_file() {
        return Ok(None);
    }
    let file = fs::open(rt, path)?;
    // Another file may have taken the name after the check.
    if file.metadata()?.is_file() {
        Ok(Some(file))
    } else {
        Ok(None)
    }
}

/// Keeps a text of fewer than 5120 octets as it is, and cuts any other to the whole lines among its
/// first 5120.
fn keep_whole_lines(text: &mut Vec<u8>)
    ensures short { length text.old.items < 5120 → text.new.items ≡ text.old.items }
    ensures long { 5120 ≤ length text.old.items
        → AreWholeLines (take 5120 text.old.items) text.new.items }
    ensures bound { length text.new.items ≤ 5120 }
{
    if (text.len() as u64) < LEDGER_ROOM {
        return;
    }
    text.truncate(LEDGER_ROOM as usize);
    let end = end_of_lines(text.as_slice());
    text.truncate(end);
}

/// Where the last whole line of a text ends, or 0 if the text has no whole line.
#[tactic(auto, using(crate::proofs::LineLemmas::up_to_last))]
fn end_of_lines(text: &[u8]) -> usize
    ensures lines { AreWholeLines text.now (take result text.now) }
    ensures bound { result ≤ length text.now }
{
    match memrchr(b'\n', text) {
        Some(at) => at + 1,
        None => 0,
    }
}

/// Appends a line to a root's ledger. If no regular file has the ledger's name, or if the ledger
/// would not stay below 5120 octets, it fails and writes nothing.
pub(crate) fn append<R: Files>(
    rt: &R,
    alloc: Global,
    account: &str,
    root: u32,
    line: &[u8],
) -> Result<(), KeepError>
    ensures { 5120 ≤ length line.now → IsErr result }
{
    let path = ledger_path(alloc, account, root)?;
    if !fs::metadata(rt, path.as_str()).map_err(fault)?.is_file() {
        return Err(KeepError::Failed);
    }
    let mut options = OpenOptions::new();
    options.append(true);
    let mut file = options.open(rt, path.as_str()).map_err(fault)?;
    let metadata = file.metadata().map_err(fault)?;
    if !metadata.is_file() || metadata.len().saturating_add(line.len() as u64) >= LEDGER_ROOM {
        return Err(KeepError::Failed);
    }
    file.write_all(line).map_err(fault)
}

/// Puts a text in place of a root's ledger. If a folder is not there, it makes the missing folders
/// of the account and of its INBOX, and tries once more.
pub(crate) fn install<R: Files>(
    rt: &R,
    alloc: Global,
    account: &str,
    root: u32,
    text: &[u8],
) -> Result<(), KeepError> {
    let path = ledger_path(alloc, account, root)?;
    let inbox = Mailbox::within(alloc, account)?;
    let name = ledger_name(alloc, root)?;
    let draft = path_in(alloc, inbox.tmp.as_str(), name.as_str())?;
    match replace_file(rt, draft.as_str(), path.as_str(), text) {
        Err(error) if error.kind() == ErrorKind::NotFound => {
            inbox.make(rt, account).map_err(fault)?;
            replace_file(rt, draft.as_str(), path.as_str(), text).map_err(fault)
        }
        replaced => replaced.map_err(fault),
    }
}
