ghost use Rattle.std.specs.Prelude.{◌≡◌, false, length, IfOk, All};
ghost use Rattle.keeper_fs.specs.Names.{is_file_name};
ghost use Rattle.keeper_fs.specs.Rows.{IsMessageRow};

use crate::errors::cause;
use crate::folders::Mailbox;
use crate::names::file_name;
use keeper::{Bytes, FileRow, KeepError};
use memchr::memchr;
use message_names::parse_name;
use std::alloc::{AllocError, Global};
use std::fs;
use std::fs::Files;
use std::io::{ErrorKind, Read};

/// How many bytes of a folder's names are read at once.
const NAMES_AT_ONCE: usize = 32768;

/// The message files of a mailbox: those in `new`, then those in `cur`. A folder that is not there
/// has none.
pub(crate) fn list<R: Files>(
    rt: &R,
    alloc: Global,
    account: &str,
    mailbox: &[u8],
) -> Result<Vec<FileRow>, KeepError>
    ensures outside { is_file_name mailbox.now ≡ false → result ≡ Err KeepError.Failed }
    ensures rows { IfOk result (λ rows. All IsMessageRow rows.items) }
{
    let mailbox = file_name(mailbox)?;
    let folders = Mailbox::of(alloc, account, mailbox)?;
    let mut rows = Vec::new(alloc);
    add_folder(rt, alloc, folders.new.as_str(), &mut rows)?;
    add_folder(rt, alloc, folders.cur.as_str(), &mut rows)?;
    Ok(rows)
}

/// Adds the files of a folder, in the order in which the system names them.
fn add_folder<R: Files>(
    rt: &R,
    alloc: Global,
    folder: &str,
    rows: &mut Vec<FileRow>,
) -> Result<(), KeepError>
    requires { All IsMessageRow rows.old.items }
    ensures { All IsMessageRow rows.new.items }
{
    let folder = format!(in alloc; "{folder}/")?;
    let mut names = match rt.open_dir(folder.as_str()) {
        Ok(names) => names,
        Err(error) if error.kind() == ErrorKind::NotFound => return Ok(()),
        Err(error) => return Err(cause(error)),
    };
    let mut piece = piece_of_names(alloc)?;
    for _ in 0..u64::MAX {
        let count = names.read(piece.as_mut_slice()).map_err(cause)?;
        if count == 0 {
            return Ok(());
        }
        add_names(rt, alloc, folder.as_str(), &piece[..count], rows)?;
    }
    Err(KeepError::Failed)
}

/// A buffer for the names that are read at once.
fn piece_of_names(alloc: Global) -> Result<Vec<u8>, AllocError> {
    vec![in alloc; 0; NAMES_AT_ONCE]
}

/// Adds the files of these names, each of which ends with a byte 0. It leaves out names that begin
/// with `.`.
#[tactic(auto, using(crate::proofs::RowLemmas::one_more))]
fn add_names<R: Files>(
    rt: &R,
    alloc: Global,
    folder: &str,
    names: &[u8],
    rows: &mut Vec<FileRow>,
) -> Result<(), KeepError>
    requires { All IsMessageRow rows.old.items }
    ensures { All IsMessageRow rows.new.items }
{
    let mut rest = names;
    while let Some(end) = memchr(0, rest) {
        if !rest.starts_with(b".") {
            rows.push(row_of(rt, alloc, folder, &rest[..end])?)?;
        }
        rest = &rest[end + 1..];
    }
    if rest.is_empty() {
        Ok(())
    } else {
        Err(KeepError::Failed)
    }
}

/// The row of a file. Its length is the size that its name states, or the file's own length if the
/// name states none.
fn row_of<R: Files>(rt: &R, alloc: Global, folder: &str, name: &[u8]) -> Result<FileRow, KeepError>
    ensures { IfOk result IsMessageRow }
{
    let text = file_name(name)?;
    let length = match parse_name(name).size {
        Some(size) => size,
        None => file_length(rt, alloc, folder, text)?,
    };
    Ok(FileRow {
        name: Bytes::new(name.to_vec(alloc)?),
        length,
    })
}

/// The length of a file.
fn file_length<R: Files>(
    rt: &R,
    alloc: Global,
    folder: &str,
    name: &str,
) -> Result<u64, KeepError> {
    let path = format!(in alloc; "{folder}{name}")?;
    Ok(fs::metadata(rt, path.as_str()).map_err(cause)?.len())
}
