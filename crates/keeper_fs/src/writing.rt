use std::fs::{File, Files, OpenFile, OpenOptions};
use std::io::{ErrorKind, Write};
use std::os::unix::fs::OpenOptionsExt;
use std::{fs, io};

/// The permissions of a new file: its owner may read and write it.
const FILE_MODE: u32 = 0o600;

/// Adds a file with these bytes at `target` in `folder`. There must be no file at `target`. It
/// writes the bytes at `draft` and syncs them to disk, links `draft` to `target`, and syncs the
/// folder with the new name. If that sync fails, it removes the new name, and in each case it
/// removes the draft, if that can be done.
pub(crate) fn add_file<R: Files>(
    rt: &R,
    draft: &str,
    folder: &str,
    target: &str,
    bytes: &[u8],
) -> io::Result<()> {
    let added = write_and_link(rt, draft, folder, target, bytes);
    let _ = fs::remove_file(rt, draft);
    added
}

fn write_and_link<R: Files>(
    rt: &R,
    draft: &str,
    folder: &str,
    target: &str,
    bytes: &[u8],
) -> io::Result<()> {
    write_draft(rt, draft, bytes)?;
    fs::hard_link(rt, draft, target)?;
    let synced = sync_folder(rt, folder);
    if synced.is_err() {
        let _ = fs::remove_file(rt, target);
    }
    synced
}

/// Puts a file with these bytes at `target`, in place of any file there. The file at `target`
/// changes as a whole: the bytes are written at `draft`, synced to disk, and renamed. After an
/// error it removes the draft, if that can be done.
pub(crate) fn replace_file<R: Files>(
    rt: &R,
    draft: &str,
    target: &str,
    bytes: &[u8],
) -> io::Result<()> {
    let replaced = write_and_rename(rt, draft, target, bytes);
    if replaced.is_err() {
        let _ = fs::remove_file(rt, draft);
    }
    replaced
}

fn write_and_rename<R: Files>(rt: &R, draft: &str, target: &str, bytes: &[u8]) -> io::Result<()> {
    write_draft(rt, draft, bytes)?;
    fs::rename(rt, draft, target)
}

/// Writes a new file and syncs it to disk.
fn write_draft<R: Files>(rt: &R, draft: &str, bytes: &[u8]) -> io::Result<()> {
    let mut file = new_file(rt, draft)?;
    file.write_all(bytes)?;
    file.sync_all()
}

/// A new file, in place of one that an earlier run may have left.
fn new_file<R: Files>(rt: &R, path: &str) -> io::Result<R::File> {
    match create_new(rt, path) {
        Err(error) if error.kind() == ErrorKind::AlreadyExists => {
            fs::remove_file(rt, path)?;
            create_new(rt, path)
        }
        opened => opened,
    }
}

fn create_new<R: Files>(rt: &R, path: &str) -> io::Result<R::File> {
    let mut options = OpenOptions::new();
    options.write(true).create_new(true).mode(FILE_MODE);
    options.open(rt, path)
}

/// Syncs the names in a folder to disk.
pub(crate) fn sync_folder<R: Files>(rt: &R, folder: &str) -> io::Result<()> {
    let folder = File::open(rt, folder)?;
    folder.sync_all()
}
