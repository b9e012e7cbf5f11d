// What the calls of a keeper do to the disk, and in which order. The system under the keeper
// records this, and one thing in the system may be broken.

use crate::folders::check_steps;
use keeper::Stores;
use keeper_fs::FsStores;
use std::alloc::{Allocator, Global};
use std::cell::Cell;
use std::fs::{File, Files, Metadata, OpenFile, OpenOptions};
use std::io::{ErrorKind, Read, Seek, SeekFrom, Write};
use std::test::Fail;
use std::time::{Clock, Duration};
use std::{fs, io};

/// What a system did, one digit each.
const MADE_FILE: u64 = 1;

const WROTE: u64 = 2;

const SYNCED_FILE: u64 = 3;

const LINKED: u64 = 4;

const SYNCED_FOLDER: u64 = 5;

const UNLINKED: u64 = 6;

const RENAMED: u64 = 7;

const MADE_FOLDER: u64 = 8;

const OPENED: u64 = 9;

/// What is broken in a system.
#[derive(Clone, Copy)]
enum Broken {
    Nothing,
    /// No file is seen by its name.
    Sight,
    /// A folder `new` can't be opened, and so it can't be synced to the disk.
    Sync,
    /// No file can be removed from `tmp`.
    Removal,
    /// No file is linked.
    Link,
}

/// A system that records what it has done, and fails in what is broken in it.
#[derive(Clone, Copy)]
struct Watched<'a> {
    rt: HostRuntime,
    broken: Broken,
    done: &'a Cell<u64>,
}

/// A file of such a system, or a folder that was opened to be read.
#[derive(Drop)]
struct WatchedFile<'a> {
    file: File,
    is_new: bool,
    done: &'a Cell<u64>,
}

fn refused<T>() -> io::Result<T> {
    Err(io::Error::from(ErrorKind::PermissionDenied))
}

fn write_down(done: &Cell<u64>, digit: u64) {
    done.set(done.get().wrapping_mul(10).wrapping_add(digit));
}

impl Alloc for Watched<'_> {
    type A = Global;

    fn alloc(&self) -> Global {
        self.rt.alloc()
    }
}

impl Clock for Watched<'_> {
    fn monotonic(&self) -> io::Result<Duration> {
        self.rt.monotonic()
    }

    fn since_1970(&self) -> io::Result<Duration> {
        self.rt.since_1970()
    }
}

impl Read for WatchedFile<'_> {
    fn read(&mut self, buf: &mut [u8]) -> io::Result<usize> {
        self.file.read(buf)
    }
}

impl Write for WatchedFile<'_> {
    fn write(&mut self, buf: &[u8]) -> io::Result<usize> {
        write_down(self.done, WROTE);
        self.file.write(buf)
    }

    fn flush(&mut self) -> io::Result<()> {
        self.file.flush()
    }
}

impl Seek for WatchedFile<'_> {
    fn seek(&mut self, to: SeekFrom) -> io::Result<u64> {
        self.file.seek(to)
    }
}

impl OpenFile for WatchedFile<'_> {
    fn metadata(&self) -> io::Result<Metadata> {
        self.file.metadata()
    }

    fn set_len(&self, size: u64) -> io::Result<()> {
        self.file.set_len(size)
    }

    fn sync_all(&self) -> io::Result<()> {
        write_down(
            self.done,
            if self.is_new {
                SYNCED_FILE
            } else {
                SYNCED_FOLDER
            },
        );
        self.file.sync_all()
    }

    fn sync_data(&self) -> io::Result<()> {
        self.file.sync_data()
    }
}

impl<'a> Files for Watched<'a> {
    type File = WatchedFile<'a>;

    type Dir = <HostRuntime as Files>::Dir;

    fn open_file(&self, how: &OpenOptions, path: &str) -> io::Result<WatchedFile<'a>> {
        if matches!(self.broken, Broken::Sync) && path.ends_with("/new") {
            return refused();
        }
        let file = self.rt.open_file(how, path)?;
        let is_new = how.asks_create_new();
        write_down(self.done, if is_new { MADE_FILE } else { OPENED });
        Ok(WatchedFile {
            file,
            is_new,
            done: self.done,
        })
    }

    fn open_dir(&self, path: &str) -> io::Result<Self::Dir> {
        self.rt.open_dir(path)
    }

    fn metadata(&self, path: &str) -> io::Result<Metadata> {
        self.rt.metadata(path)
    }

    fn symlink_metadata(&self, path: &str) -> io::Result<Metadata> {
        if matches!(self.broken, Broken::Sight) {
            return Err(io::Error::from(ErrorKind::NotFound));
        }
        self.rt.symlink_metadata(path)
    }

    fn copy(&self, from: &str, to: &str) -> io::Result<u64> {
        self.rt.copy(from, to)
    }

    fn rename(&self, from: &str, to: &str) -> io::Result<()> {
        self.rt.rename(from, to)?;
        write_down(self.done, RENAMED);
        Ok(())
    }

    fn remove_file(&self, path: &str) -> io::Result<()> {
        if matches!(self.broken, Broken::Removal) && path.contains("/tmp/") {
            return refused();
        }
        self.rt.remove_file(path)?;
        write_down(self.done, UNLINKED);
        Ok(())
    }

    fn create_dir(&self, path: &str) -> io::Result<()> {
        self.rt.create_dir(path)
    }

    fn remove_dir(&self, path: &str) -> io::Result<()> {
        self.rt.remove_dir(path)
    }

    fn remove_dir_all<B: Allocator>(&self, alloc: B, path: &str) -> io::Result<()> {
        self.rt.remove_dir_all(alloc, path)
    }

    fn hard_link(&self, original: &str, link: &str) -> io::Result<()> {
        if matches!(self.broken, Broken::Link) {
            return refused();
        }
        self.rt.hard_link(original, link)?;
        write_down(self.done, LINKED);
        Ok(())
    }

    fn create_dir_with_mode(&self, path: &str, mode: u32) -> io::Result<()> {
        self.rt.create_dir_with_mode(path, mode)?;
        write_down(self.done, MADE_FOLDER);
        Ok(())
    }
}

#[test]
fn what_is_answered_ok_was_handed_to_the_disk_before_and_no_device_is_opened(
    rt: HostRuntime,
) -> Result<(), Fail> {
    let alloc = rt.alloc();
    let _ = fs::remove_dir_all(&rt, "mail");
    fs::create_dir(&rt, "mail")?;
    let done = Cell::new(0);
    let watched = Watched {
        rt,
        broken: Broken::Nothing,
        done: &done,
    };
    let mut stores = FsStores::new(watched, b"mail".to_vec(alloc)?);
    let mut keeper = stores.open(alloc, b"ann")?;
    for (step, expected) in [
        // The account's folder, `tmp`, `new` and `cur` are made first, each with its name synced.
        ("put INBOX 1.mx one", 8958958958951234956),
        ("put INBOX 2.mx one", 1234956),
        ("put INBOX 2.mx one => failed", 0),
        // The mailbox's folder is made, and the account's folder is already there.
        ("put Sent 3.mx one", 8958958958951234956),
        // No message file is opened.
        ("list Sent => 3.mx 3;", 0),
        ("install 0 5C;", 1237),
        ("append 0 1_1;", 92),
        ("read 0 => 5C;1_1;", 9),
        // What is not a regular file is not opened.
        ("link ann/maildirsize.1 /dev/zero", 0),
        ("read 1 => none", 0),
        ("append 1 1_1; => failed", 0),
        ("rename INBOX 1.mx Sent 1.mx:2,S", 7),
        ("remove INBOX 2.mx", 6),
    ] {
        done.set(0);
        check_steps(&rt, &mut keeper, step)?;
        assert_eq!(rt; done.get(), expected, "{step}");
    }
    fs::remove_dir_all(&rt, "mail")?;
    Ok(())
}

#[test]
fn a_message_is_put_whole_or_not_at_all(rt: HostRuntime) -> Result<(), Fail> {
    let alloc = rt.alloc();
    let done = Cell::new(0);
    for (broken, steps) in [
        // The name is taken, and the file that has it stays.
        (
            Broken::Sight,
            "put INBOX 1.mx two => failed
file ann/new/1.mx => one
count ann/tmp => 0
faults => 1 0",
        ),
        // The new name is taken back.
        (
            Broken::Sync,
            "put INBOX 2.mx two => failed
count ann/new => 1
count ann/tmp => 0
put INBOX 2.mx:2, two
faults => 1 0",
        ),
        // The draft is left, and the message is there.
        (
            Broken::Removal,
            "put INBOX 2.mx two
file ann/new/2.mx => two
count ann/tmp => 1
faults => 0 0",
        ),
        (
            Broken::Link,
            "put INBOX 2.mx two => failed
count ann/new => 1
count ann/tmp => 0
faults => 1 0",
        ),
    ] {
        let _ = fs::remove_dir_all(&rt, "mail");
        let mut sound = FsStores::new(rt, b"mail".to_vec(alloc)?);
        let mut keeper = sound.open(alloc, b"ann")?;
        check_steps(
            &rt,
            &mut keeper,
            "put INBOX 1.mx one\nmode ann => 700\nfaults => 0 0",
        )?;
        let watched = Watched {
            rt,
            broken,
            done: &done,
        };
        let mut stores = FsStores::new(watched, b"mail".to_vec(alloc)?);
        let mut keeper = stores.open(alloc, b"ann")?;
        check_steps(&rt, &mut keeper, steps)?;
        fs::remove_dir_all(&rt, "mail")?;
    }
    Ok(())
}
