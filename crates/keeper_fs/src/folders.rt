ghost use Rattle.std.specs.Prelude.{◌≡◌, codes, IfOk};
ghost use Rattle.std.specs.String.{string_bytes};
ghost use Rattle.std.specs.Str.Iter.{HasSubslice};
ghost use Rattle.keeper_fs.specs.Paths.{IsMailbox, mailbox_folder, path_in};

use crate::names::has_flags;
use crate::writing::sync_folder;
use std::alloc::{AllocError, Global};
use std::fs::{DirBuilder, Files};
use std::io;
use std::io::ErrorKind;
use std::os::unix::fs::DirBuilderExt;

/// The permissions of a new folder: all for its owner, none for others.
const FOLDER_MODE: u32 = 0o700;

/// The folder of a mailbox and the three in it (Maildir): a file is written in `tmp`, and is a
/// message once it is in `new` or `cur`.
#[derive(Drop)]
pub(crate) struct Mailbox {
    pub(crate) folder: String,
    pub(crate) tmp: String,
    pub(crate) new: String,
    pub(crate) cur: String,
}

impl Mailbox {
    /// The folders of a mailbox of the account in this folder. Those of INBOX are in this folder
    /// itself, and those of another mailbox in its folder `.<mailbox>` (Maildir++).
    pub(crate) fn of(alloc: Global, account: &str, mailbox: &str) -> Result<Mailbox, AllocError>
        ensures { IfOk result (IsMailbox (mailbox_folder account.now mailbox.now)) }
    {
        if mailbox == "INBOX" {
            return Mailbox::within(alloc, account);
        }
        let folder = format!(in alloc; "{account}/.{mailbox}")?;
        Mailbox::within(alloc, folder.as_str())
    }

    /// The folders of the mailbox whose folder this is.
    pub(crate) fn within(alloc: Global, folder: &str) -> Result<Mailbox, AllocError>
        ensures { IfOk result (IsMailbox folder.now) }
    {
        Ok(Mailbox {
            folder: String::from_str(alloc, folder)?,
            tmp: path_in(alloc, folder, "tmp")?,
            new: path_in(alloc, folder, "new")?,
            cur: path_in(alloc, folder, "cur")?,
        })
    }

    /// The folder for a file of this name: `cur` if the name has flags, and `new` if not.
    pub(crate) fn home(&self, name: &str) -> &str
        ensures cur { HasSubslice name.now (codes ":2,") → result.now ≡ string_bytes self.now.cur }
        ensures new { ¬ HasSubslice name.now (codes ":2,")
            → result.now ≡ string_bytes self.now.new }
    {
        if has_flags(name) {
            self.cur.as_str()
        } else {
            self.new.as_str()
        }
    }

    /// Makes those of the folders that are missing, and the folder of the account if it is missing.
    pub(crate) fn make<R: Files>(&self, rt: &R, account: &str) -> io::Result<()> {
        make_folder(rt, account)?;
        for path in [&self.folder, &self.tmp, &self.new, &self.cur] {
            make_folder(rt, path.as_str())?;
        }
        Ok(())
    }
}

/// Makes a folder if its name is free, and syncs the folder above it to disk.
fn make_folder<R: Files>(rt: &R, path: &str) -> io::Result<()> {
    match create_folder(rt, path, false) {
        Ok(()) => sync_folder(rt, parent_of(path)),
        Err(error) if error.kind() == ErrorKind::AlreadyExists => Ok(()),
        Err(error) if error.kind() == ErrorKind::NotFound => {
            create_folder(rt, path, true)?;
            sync_folder(rt, parent_of(path))
        }
        failed => failed,
    }
}

/// Makes a folder, and the missing folders above it if `above` is true.
fn create_folder<R: Files>(rt: &R, path: &str, above: bool) -> io::Result<()> {
    let mut builder = DirBuilder::new();
    builder.recursive(above).mode(FOLDER_MODE);
    builder.create(rt, path)
}

/// The folder that the last name of a path is in.
fn parent_of(path: &str) -> &str {
    match path.rsplit_once('/') {
        Some((parent, _)) => parent,
        None => ".",
    }
}

/// The path of a file in a folder.
pub(crate) fn path_in(alloc: Global, folder: &str, name: &str) -> Result<String, AllocError>
    ensures { IfOk result (λ path. string_bytes path ≡ path_in folder.now name.now) }
{
    format!(in alloc; "{folder}/{name}")
}
