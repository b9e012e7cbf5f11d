ghost use Rattle.std.specs.Prelude.{◌≡◌, ◌&&◌, false, IfOk};
ghost use Rattle.std.specs.String.{string_bytes};
ghost use Rattle.keeper_fs.specs.Names.{is_file_name};
ghost use Rattle.keeper_fs.specs.Paths.{path_in};

use crate::errors::fault;
use crate::folders::{Mailbox, path_in};
use crate::names::file_name;
use crate::writing::add_file;
use keeper::KeepError;
use std::alloc::{AllocError, Global};
use std::fs::Files;
use std::io::ErrorKind;
use std::{fs, io};

/// The two paths of a message file: one in `new`, one in `cur`.
#[derive(Drop)]
struct Places {
    new: String,
    cur: String,
}

impl Places {
    fn of(alloc: Global, mailbox: &Mailbox, name: &str) -> Result<Places, AllocError>
        ensures new { let folder = string_bytes mailbox.now.new in
            IfOk result (λ places. string_bytes places.new ≡ path_in folder name.now) }
        ensures cur { let folder = string_bytes mailbox.now.cur in
            IfOk result (λ places. string_bytes places.cur ≡ path_in folder name.now) }
    {
        Ok(Places {
            new: path_in(alloc, mailbox.new.as_str(), name)?,
            cur: path_in(alloc, mailbox.cur.as_str(), name)?,
        })
    }

    /// Fails if one of the paths has a file.
    fn require_free<R: Files>(&self, rt: &R) -> io::Result<()> {
        require_none(rt, self.new.as_str())?;
        require_none(rt, self.cur.as_str())
    }
}

/// Fails if a file has this path.
fn require_none<R: Files>(rt: &R, path: &str) -> io::Result<()> {
    let Err(error) = fs::symlink_metadata(rt, path) else {
        return Err(io::Error::from(ErrorKind::AlreadyExists));
    };
    if error.kind() == ErrorKind::NotFound {
        return Ok(());
    }
    Err(error)
}

/// Where a message file arrives: the paths that must be free, and the path that the file gets.
#[derive(Drop)]
struct Arrival {
    taken: Places,
    target: String,
}

impl Arrival {
    fn of(alloc: Global, mailbox: &Mailbox, home: &str, name: &str) -> Result<Arrival, AllocError>
        ensures { IfOk result (λ arrival. string_bytes arrival.target ≡ path_in home.now name.now) }
    {
        Ok(Arrival {
            taken: Places::of(alloc, mailbox, name)?,
            target: path_in(alloc, home, name)?,
        })
    }
}

/// Adds a message file to a mailbox. If a folder is not there, it makes the missing folders and
/// tries once more.
pub(crate) fn put<R: Files>(
    rt: &R,
    alloc: Global,
    account: &str,
    mailbox: &[u8],
    name: &[u8],
    octets: &[u8],
) -> Result<(), KeepError>
    ensures { (is_file_name mailbox.now && is_file_name name.now) ≡ false
        → result ≡ Err KeepError.Failed }
{
    let mailbox = file_name(mailbox)?;
    let name = file_name(name)?;
    let folders = Mailbox::of(alloc, account, mailbox)?;
    let draft = path_in(alloc, folders.tmp.as_str(), name)?;
    let home = folders.home(name);
    let arrival = Arrival::of(alloc, &folders, home, name)?;
    match add(rt, draft.as_str(), home, &arrival, octets) {
        Err(error) if error.kind() == ErrorKind::NotFound => {
            folders.make(rt, account).map_err(fault)?;
            add(rt, draft.as_str(), home, &arrival, octets).map_err(fault)
        }
        added => added.map_err(fault),
    }
}

fn add<R: Files>(
    rt: &R,
    draft: &str,
    home: &str,
    arrival: &Arrival,
    octets: &[u8],
) -> io::Result<()> {
    arrival.taken.require_free(rt)?;
    add_file(rt, draft, home, arrival.target.as_str(), octets)
}

/// Gives a message file another mailbox and name. If the file or a folder is not there, it makes
/// the missing folders of the new mailbox and tries once more.
pub(crate) fn rename<R: Files>(
    rt: &R,
    alloc: Global,
    account: &str,
    from: &[u8],
    name: &[u8],
    to: &[u8],
    new_name: &[u8],
) -> Result<(), KeepError>
    ensures { (is_file_name from.now && (is_file_name name.now
        && (is_file_name to.now && is_file_name new_name.now))) ≡ false
        → result ≡ Err KeepError.Failed }
{
    let from = file_name(from)?;
    let name = file_name(name)?;
    let to = file_name(to)?;
    let new_name = file_name(new_name)?;
    let old = Places::of(alloc, &Mailbox::of(alloc, account, from)?, name)?;
    let folders = Mailbox::of(alloc, account, to)?;
    let arrival = Arrival::of(alloc, &folders, folders.home(new_name), new_name)?;
    match move_file(rt, &old, &arrival) {
        Err(error) if error.kind() == ErrorKind::NotFound => {
            folders.make(rt, account).map_err(fault)?;
            move_file(rt, &old, &arrival).map_err(fault)
        }
        moved => moved.map_err(fault),
    }
}

/// Renames the file at one of the old paths, unless its new name is taken.
fn move_file<R: Files>(rt: &R, old: &Places, arrival: &Arrival) -> io::Result<()> {
    arrival.taken.require_free(rt)?;
    let target = arrival.target.as_str();
    match fs::rename(rt, old.new.as_str(), target) {
        Err(error) if error.kind() == ErrorKind::NotFound => {
            fs::rename(rt, old.cur.as_str(), target)
        }
        renamed => renamed,
    }
}

/// Removes a message file.
pub(crate) fn remove<R: Files>(
    rt: &R,
    alloc: Global,
    account: &str,
    mailbox: &[u8],
    name: &[u8],
) -> Result<(), KeepError>
    ensures { (is_file_name mailbox.now && is_file_name name.now) ≡ false
        → result ≡ Err KeepError.Failed }
{
    let mailbox = file_name(mailbox)?;
    let name = file_name(name)?;
    let places = Places::of(alloc, &Mailbox::of(alloc, account, mailbox)?, name)?;
    match fs::remove_file(rt, places.new.as_str()) {
        Err(error) if error.kind() == ErrorKind::NotFound => {
            fs::remove_file(rt, places.cur.as_str()).map_err(fault)
        }
        removed => removed.map_err(fault),
    }
}
