ghost use Rattle.std.specs.Prelude.{◌<◌};

use keeper::{FileRow, KeepError, Keeper, Stores};
use keeper_fs::{FsKeeper, FsStores};
use quota_units::Failed;
use std::alloc::{Allocator, Global};
use std::fs::{File, Files, Metadata, OpenOptions};
use std::io::ErrorKind;
use std::os::unix::fs::{PermissionsExt, symlink};
use std::os::unix::io::AsRawFd;
use std::process::Abort;
use std::test::Fail;
use std::time::{Clock, Duration};
use std::{fs, io};

// Steps in a tree `mail`, one on each line. A step is a call of the keeper of the account `ann`, or
// something that another program does with the files. The answer comes after an arrow. If a step
// has no arrow, its answer is `ok`. In a text `;` stands for a line feed and `_` for a space.

/// A store is made where there was none, and its calls do what they say.
const STORE: &str = "list INBOX => 
list Sent => 
read 0 => none
there ann => false
put INBOX 1.mx,S=3 one
put INBOX 2.mx:2,S four
file ann/new/1.mx,S=3 => one
file ann/cur/2.mx:2,S => four
count ann/tmp => 0
list INBOX => 1.mx,S=3 3;2.mx:2,S 4;
rename INBOX 1.mx,S=3 INBOX 1.mx,S=3:2,S
file ann/cur/1.mx,S=3:2,S => one
rename INBOX 1.mx,S=3:2,S Sent.2026 1.mx,S=3:2,S
file ann/.Sent.2026/cur/1.mx,S=3:2,S => one
mode ann => 700
mode ann/.Sent.2026 => 700
mode ann/.Sent.2026/tmp => 700
mode ann/.Sent.2026/cur/1.mx,S=3:2,S => 600
list INBOX => 2.mx:2,S 4;
list Sent.2026 => 1.mx,S=3:2,S 3;
remove INBOX 2.mx:2,S
list INBOX => 
faults => 0 0";

/// Ledgers are replaced whole and appended to. An append makes no ledger.
const LEDGERS: &str = "append 0 7_1; => failed
there ann => false
install 0 0S;10_1;
append 0 -10_-1;
install 3 5C;
append 1 7_1; => failed
there ann/maildirsize.1 => false
file ann/maildirsize => 0S;10_1;-10_-1;
file ann/maildirsize.3 => 5C;
mode ann/maildirsize => 600
read 0 => 0S;10_1;-10_-1;
read 1 => none
read 2 => none
install 0 0S;
file ann/maildirsize => 0S;
count ann/tmp => 0
faults => 0 2";

/// A ledger stays below 5120 octets; FULL stands for 5112 octets. If another program writes a
/// longer ledger, only whole lines of it are read.
const ROOM: &str = "install 0 FULL
append 0 1234_1;
append 0 ; => failed
faults => 0 1
file ann/maildirsize => FULL1234_1;
write ann/maildirsize FULL1234_1;FULL1234_1;
append 0 1_1; => failed
faults => 0 2
file ann/maildirsize => FULL1234_1;FULL1234_1;
read 0 => FULL1234_1;
write ann/maildirsize FULL123456_1
read 0 => 
write ann/maildirsize FULL12345_1
read 0 => FULL12345_1
write ann/maildirsize 5C;FULLFULLFULLFULL
read 0 => 5C;
install 0 0S;
append 0 1_1;
file ann/maildirsize => 0S;1_1;";

/// A ledger that is not a regular file counts as no ledger, and no line is written to it. A link to
/// a file counts as that file.
const SPECIAL: &str = "folder ann/maildirsize.1
link ann/maildirsize /dev/zero
link ann/maildirsize.2 nowhere
link ann/maildirsize.3 maildirsize.3
read 0 => none
read 1 => none
read 2 => none
read 3 => none
append 0 1_1; => failed
append 1 1_1; => failed
append 2 1_1; => failed
append 3 1_1; => failed
there ann/nowhere => false
faults => 0 4
install 0 5C;
install 2 6C;
install 3 7C;
file ann/maildirsize => 5C;
there ann/nowhere => false
append 0 1_1;
read 0 => 5C;1_1;
write ann/elsewhere 8C;
link ann/other elsewhere
move ann/other ann/maildirsize.2
read 2 => 8C;
append 2 1_1;
file ann/elsewhere => 8C;1_1;
faults => 0 4";

/// Links to folders are followed.
const LINKED: &str = "folder mails/sent
folder ann
link ann/.Sent ../mails/sent
link ann/new ../mails
put Sent 1.mx one
put INBOX 2.mx two
file mails/sent/new/1.mx => one
file mails/2.mx => two
list Sent => 1.mx 3;
faults => 0 0";

/// A tree that other programs wrote is read. A file without flags in `cur` is found.
const OTHERS: &str = "folder ann/new
folder ann/cur
folder ann/tmp
folder ann/.Sent/cur
folder ann/.Sent/new
folder ann/.Trash.Old
write ann/new/1700000001.M1P2.mx 12345
write ann/new/1700000002.M1P2.mx,S=700,W=720 12
write ann/cur/1700000003.M1P2.mx,S=40:2,FS 123
write ann/cur/1700000004.M1P2.mx,W=9,S=8:2,
write ann/cur/1700000005.M1P2.mx:2,RT 1234567
write ann/cur/1700000006.M1P2.mx,S=:2,S 1
write ann/cur/.nfs000001 12
write ann/tmp/1700000007.M1P2.mx 12
write ann/dovecot-uidlist 3
write ann/subscriptions Sent
write ann/maildirsize 1000S,10C;1234_6;
write ann/.Sent/maildirfolder
write ann/.Sent/cur/1700000008.M1P2.mx,S=5:2,S 12345
write ann/.Trash.Old/maildirfolder
list INBOX => 1700000001.M1P2.mx 5;1700000002.M1P2.mx,S=700,W=720 700;1700000003.M1P2.mx,S=40:2,FS 40;1700000004.M1P2.mx,W=9,S=8:2, 8;1700000005.M1P2.mx:2,RT 7;1700000006.M1P2.mx,S=:2,S 1;
list Sent => 1700000008.M1P2.mx,S=5:2,S 5;
list Trash.Old => 
read 0 => 1000S,10C;1234_6;
write ann/cur/9.mx nine
rename INBOX 9.mx Trash.Old 9.mx
file ann/.Trash.Old/new/9.mx => nine
faults => 0 0";

/// Files of `new` are listed before those of `cur`.
const ORDER: &str = "put INBOX 1.mx,S=3:2,S one
put INBOX 2.mx,S=3 two
first INBOX => 2.mx,S=3";

/// A name that is in `new` or `cur` is taken. A call is a fault if the file that it names is not
/// there, or if a file is where a folder should be. Nothing half-written is left.
const TAKEN: &str = "put INBOX 1.mx one
put INBOX 2.mx two
move ann/new/2.mx ann/cur/2.mx
put INBOX 1.mx x => failed
put INBOX 2.mx x => failed
rename INBOX 1.mx INBOX 2.mx => failed
rename INBOX 1.mx INBOX 1.mx => failed
rename INBOX 3.mx INBOX 4.mx => failed
remove INBOX 3.mx => failed
faults => 6 0
list INBOX => 1.mx 3;2.mx 3;
file ann/cur/2.mx => two
write ann/.Lists
list Lists => failed
put Lists 1.mx x => failed
folder ann/maildirsize
read 0 => none
install 0 0S; => failed
faults => 9 0
append 0 1_1; => failed
faults => 9 1
count ann/tmp => 0";

/// A draft that an earlier run left is replaced.
const DRAFT: &str = "folder ann/tmp
write ann/tmp/1.mx half_of_a_longer_one
write ann/tmp/maildirsize 1000S;
put INBOX 1.mx one
install 0 0S;
file ann/new/1.mx => one
file ann/maildirsize => 0S;";

/// Each call over a system that refuses everything; `ANSWER` stands for the answer to its kind of
/// refusal.
const REFUSED: &str = "list INBOX => ANSWER
read 0 => ANSWER
put INBOX 1.mx x => failed
rename INBOX 1.mx INBOX 2.mx => failed
remove INBOX 1.mx => failed
install 0 0S; => failed";

/// The keeper of the account `ann` in a new folder `mail`.
pub(crate) fn ann(rt: HostRuntime) -> Result<FsKeeper<HostRuntime>, Fail> {
    let alloc = rt.alloc();
    let _ = fs::remove_dir_all(&rt, "mail");
    fs::create_dir(&rt, "mail")?;
    let mut stores = FsStores::new(rt, b"mail".to_vec(alloc)?);
    Ok(stores.open(alloc, b"ann")?)
}

/// Returns this value, which may be handed to another thread.
fn handed_over<T: Send>(value: T) -> T {
    value
}

/// Names with their lengths, in the order of the names.
fn shown(alloc: Global, rows: &[FileRow]) -> Result<String, Fail> {
    let mut lines = Vec::new(alloc);
    for row in rows {
        let name = str::from_utf8(row.name.as_slice())?;
        lines.push(format!(in alloc; "{name} {};", row.length)?)?;
    }
    lines.sort()?;
    let mut text = String::new(alloc);
    for line in lines.iter() {
        text.push_str(line.as_str())?;
    }
    Ok(text)
}

/// The text that a word of a step stands for.
fn text_of(alloc: Global, word: &str) -> Result<String, Fail> {
    Ok(word.replace(alloc, ";", "\n")?.replace(alloc, "_", " ")?)
}

/// The word that stands for a text.
fn word_of(alloc: Global, text: &[u8]) -> Result<String, Fail> {
    let text = str::from_utf8(text)?;
    Ok(text.replace(alloc, "\n", ";")?.replace(alloc, " ", "_")?)
}

/// Why a call failed, if it did.
fn told<T: Drop>(done: Result<T, KeepError>) -> &'static str {
    match done {
        Ok(_) => "ok",
        Err(KeepError::Failed) => "failed",
        Err(KeepError::NoMemory) => "no memory",
    }
}

/// Whether a call failed.
fn told_plainly(done: Result<(), Failed>) -> &'static str {
    match done {
        Ok(()) => "ok",
        Err(Failed) => "failed",
    }
}

/// The words of a step, up to five of them.
fn words_of(step: &str) -> [&str; 5] {
    let mut words = step.split(' ');
    let verb = words.next().unwrap_or("");
    let first = words.next().unwrap_or("");
    let second = words.next().unwrap_or("");
    let third = words.next().unwrap_or("");
    let fourth = words.next().unwrap_or("");
    [verb, first, second, third, fourth]
}

/// A step that makes a file, a folder or a new name without a keeper.
fn make(
    rt: &(impl Files + AllocGlobal + Clone + Drop),
    words: [&str; 5],
) -> Result<&'static str, Fail> {
    let [verb, path, other, _, _] = words;
    let path = format!(in rt.alloc(); "mail/{path}")?;
    match verb {
        "folder" => fs::create_dir_all(rt, path.as_str())?,
        "link" => symlink(rt, other, path.as_str())?,
        "move" => fs::rename(
            rt,
            path.as_str(),
            format!(in rt.alloc(); "mail/{other}")?.as_str(),
        )?,
        _ => fs::write(rt, path.as_str(), text_of(rt.alloc(), other)?.as_str())?,
    }
    Ok("ok")
}

/// A step that looks at what is there without a keeper.
fn look(
    rt: &(impl Files + AllocGlobal + Clone + Drop),
    verb: &str,
    path: &str,
) -> Result<String, Fail> {
    let alloc = rt.alloc();
    let path = format!(in alloc; "mail/{path}")?;
    match verb {
        "file" => word_of(alloc, fs::read_to_string(rt, path.as_str())?.as_bytes()),
        "count" => Ok(format!(in alloc; "{}", fs::read_dir(rt, path.as_str())?.count())?),
        "mode" => {
            let permissions = fs::metadata(rt, path.as_str())?.permissions();
            Ok(format!(in alloc; "{:o}", permissions.mode() & 0o777)?)
        }
        _ => Ok(format!(in alloc; "{}", fs::exists(rt, path.as_str())?)?),
    }
}

/// A step that lists a mailbox.
fn list<R: Files + AllocGlobal + Clone + Drop>(
    alloc: Global,
    keeper: &mut FsKeeper<R>,
    verb: &str,
    mailbox: &str,
) -> Result<String, Fail> {
    match keeper.list(alloc, mailbox.as_bytes()) {
        Ok(rows) if verb == "list" => shown(alloc, rows.as_slice()),
        Ok(rows) => match rows.as_slice() {
            [row, ..] => word_of(alloc, row.name.as_slice()),
            [] => Ok(String::new(alloc)),
        },
        Err(fault) => Ok(format!(in alloc; "{}", told::<()>(Err(fault)))?),
    }
}

/// A step that changes message files.
fn change<R: Files + AllocGlobal + Clone + Drop>(
    alloc: Global,
    keeper: &mut FsKeeper<R>,
    words: [&str; 5],
) -> &'static str {
    let [verb, mailbox, name, third, fourth] = words;
    let (mailbox, name, third) = (mailbox.as_bytes(), name.as_bytes(), third.as_bytes());
    match verb {
        "put" => told(keeper.put(alloc, mailbox, name, third)),
        "rename" => told(keeper.rename(alloc, mailbox, name, third, fourth.as_bytes())),
        _ => told_plainly(keeper.remove(mailbox, name)),
    }
}

/// A step that writes a ledger.
fn write_ledger<R: Files + AllocGlobal + Clone + Drop>(
    keeper: &mut FsKeeper<R>,
    verb: &str,
    root: u32,
    text: &[u8],
) -> &'static str
    requires { root < 4 }
{
    if verb == "append" {
        return told_plainly(keeper.append_ledger(root, text));
    }
    if text.len() < 5120 {
        return told_plainly(keeper.install_ledger(root, text));
    }
    "too long"
}

/// A step that reads a ledger.
fn read_ledger<R: Files + AllocGlobal + Clone + Drop>(
    alloc: Global,
    keeper: &mut FsKeeper<R>,
    root: u32,
) -> Result<String, Fail>
    requires { root < 4 }
{
    match keeper.read_ledger(alloc, root) {
        Ok(Some(text)) => word_of(alloc, text.as_slice()),
        Ok(None) => Ok(format!(in alloc; "none")?),
        Err(fault) => Ok(format!(in alloc; "{}", told::<()>(Err(fault)))?),
    }
}

/// Does a step and returns its answer.
fn answer<R: Files + AllocGlobal + Clone + Drop>(
    rt: &(impl Files + AllocGlobal + Clone + Drop),
    keeper: &mut FsKeeper<R>,
    words: [&str; 5],
) -> Result<String, Fail> {
    let alloc = rt.alloc();
    let plain = match words[0] {
        "file" | "count" | "mode" | "there" => return look(rt, words[0], words[1]),
        "list" | "first" => return list(alloc, keeper, words[0], words[1]),
        "read" => return read_ledger(alloc, keeper, words[1].parse::<u32>()? % 4),
        "install" | "append" => {
            let text = text_of(alloc, words[2])?;
            write_ledger(
                keeper,
                words[0],
                words[1].parse::<u32>()? % 4,
                text.as_bytes(),
            )
        }
        "folder" | "link" | "move" | "write" => make(rt, words)?,
        "faults" => {
            let faults = keeper.faults();
            let appends = keeper.append_faults();
            return Ok(format!(in alloc; "{faults} {appends}")?);
        }
        _ => change(alloc, keeper, words),
    };
    Ok(format!(in alloc; "{plain}")?)
}

/// Does steps and checks their answers.
pub(crate) fn check_steps<R: Files + AllocGlobal + Clone + Drop>(
    rt: &(impl Abort + Files + AllocGlobal + Clone + Drop),
    keeper: &mut FsKeeper<R>,
    steps: &str,
) -> Result<(), Fail> {
    for row in steps.lines() {
        let (step, expected) = row.split_once(" => ").unwrap_or((row, "ok"));
        let words = answer(rt, keeper, words_of(step))?;
        assert_eq!(rt; words.as_str(), expected, "{step}");
    }
    Ok(())
}

#[test]
fn trees_are_written_and_read_as_the_steps_say(rt: HostRuntime) -> Result<(), Fail> {
    let full = "x".repeat(rt.alloc(), 5112)?;
    for steps in [
        STORE, LEDGERS, ROOM, SPECIAL, LINKED, OTHERS, ORDER, TAKEN, DRAFT,
    ] {
        let mut keeper = handed_over(ann(rt)?);
        let steps = steps.replace(rt.alloc(), "FULL", full.as_str())?;
        check_steps(&rt, &mut keeper, steps.as_str())?;
        fs::remove_dir_all(&rt, "mail")?;
    }
    Ok(())
}

#[test]
fn a_pipe_in_the_place_of_a_ledger_or_a_folder_is_not_opened(rt: HostRuntime) -> Result<(), Fail> {
    let mut keeper = ann(rt)?;
    fs::create_dir(&rt, "mail/ann")?;
    let (reader, _writer) = io::pipe(&rt)?;
    let pipe = format!(in rt.alloc(); "/proc/self/fd/{}", reader.as_raw_fd())?;
    symlink(&rt, pipe.as_str(), "mail/ann/maildirsize")?;
    symlink(&rt, pipe.as_str(), "mail/ann/new")?;
    let steps = "read 0 => none
append 0 1_1; => failed
install 0 5C;
read 0 => 5C;
list INBOX => failed
faults => 1 1";
    check_steps(&rt, &mut keeper, steps)?;
    fs::remove_dir_all(&rt, "mail")?;
    Ok(())
}

/// Makes one of seven calls of the keeper, with this name in it.
fn call<R: Files + AllocGlobal + Clone + Drop>(
    alloc: Global,
    keeper: &mut FsKeeper<R>,
    number: u64,
    name: &[u8],
) -> &'static str {
    match number {
        0 => told(keeper.list(alloc, name)),
        1 => told(keeper.put(alloc, name, b"1.mx", b"x")),
        2 => told(keeper.put(alloc, b"INBOX", name, b"x")),
        3 => told(keeper.rename(alloc, b"INBOX", name, b"INBOX", b"1.mx")),
        4 => told(keeper.rename(alloc, b"INBOX", b"1.mx", name, b"1.mx")),
        5 => told_plainly(keeper.remove(b"INBOX", name)),
        _ => told_plainly(keeper.remove(name, b"1.mx")),
    }
}

/// Checks that each call with this name is a fault.
fn check_astray(
    rt: &(impl Abort + AllocGlobal),
    keeper: &mut FsKeeper<HostRuntime>,
    name: &[u8],
) -> Result<(), Fail> {
    for number in 0..7 {
        let faults = keeper.faults();
        assert_eq!(rt;
            call(rt.alloc(), keeper, number, name),
            "failed",
            "call {number}"
        );
        assert_eq!(rt; keeper.faults().wrapping_sub(faults), 1, "call {number}");
    }
    Ok(())
}

#[test]
fn a_name_that_leads_elsewhere_is_a_fault_and_touches_nothing(rt: HostRuntime) -> Result<(), Fail> {
    let mut keeper = ann(rt)?;
    for name in [
        b"".as_slice(),
        b".",
        b"..",
        b".hidden",
        b"a/b",
        b"../bob",
        b"/tmp",
        b"a\0b",
        b"a\xff",
    ] {
        check_astray(&rt, &mut keeper, name)?;
    }
    let mut stores = FsStores::new(rt, b"mail".to_vec(rt.alloc())?);
    for account in [b"../mail".as_slice(), b""] {
        assert_eq!(rt; told(stores.open(rt.alloc(), account)), "failed");
    }
    assert_eq!(rt; stores.faults(), 2);
    assert_eq!(rt; fs::read_dir(&rt, "mail")?.count(), 0);
    fs::remove_dir_all(&rt, "mail")?;
    Ok(())
}

/// A system in which every call fails in one way. But if `names` are given, each folder opens and
/// has these names, each ended by a byte 0.
#[derive(Clone, Copy)]
struct Refusing {
    rt: HostRuntime,
    kind: ErrorKind,
    names: &'static [u8],
}

impl Alloc for Refusing {
    type A = Global;

    fn alloc(&self) -> Global {
        self.rt.alloc()
    }
}

impl Clock for Refusing {
    fn monotonic(&self) -> io::Result<Duration> {
        Err(io::Error::from(self.kind))
    }

    fn since_1970(&self) -> io::Result<Duration> {
        Err(io::Error::from(self.kind))
    }
}

impl Files for Refusing {
    type File = File;

    type Dir = &'static [u8];

    fn open_file(&self, _how: &OpenOptions, _path: &str) -> io::Result<File> {
        Err(io::Error::from(self.kind))
    }

    fn open_dir(&self, _path: &str) -> io::Result<&'static [u8]> {
        if self.names.is_empty() {
            return Err(io::Error::from(self.kind));
        }
        Ok(self.names)
    }

    fn metadata(&self, _path: &str) -> io::Result<Metadata> {
        Err(io::Error::from(self.kind))
    }

    fn symlink_metadata(&self, _path: &str) -> io::Result<Metadata> {
        Err(io::Error::from(self.kind))
    }

    fn copy(&self, _from: &str, _to: &str) -> io::Result<u64> {
        Err(io::Error::from(self.kind))
    }

    fn rename(&self, _from: &str, _to: &str) -> io::Result<()> {
        Err(io::Error::from(self.kind))
    }

    fn remove_file(&self, _path: &str) -> io::Result<()> {
        Err(io::Error::from(self.kind))
    }

    fn create_dir(&self, _path: &str) -> io::Result<()> {
        Err(io::Error::from(self.kind))
    }

    fn remove_dir(&self, _path: &str) -> io::Result<()> {
        Err(io::Error::from(self.kind))
    }

    fn remove_dir_all<B: Allocator>(&self, _alloc: B, _path: &str) -> io::Result<()> {
        Err(io::Error::from(self.kind))
    }
}

/// Checks the steps over such a system, and the number of faults that its stores have counted after
/// the keeper is closed.
fn check_refused(
    rt: &(impl Abort + Files + AllocGlobal + Clone + Drop),
    refusing: Refusing,
    steps: &str,
    closed: u64,
) -> Result<(), Fail> {
    let alloc = rt.alloc();
    let mut stores = FsStores::new(refusing, b"mail".to_vec(alloc)?);
    let mut keeper = stores.open(alloc, b"ann")?;
    check_steps(rt, &mut keeper, steps)?;
    stores.close(b"ann", keeper);
    assert_eq!(rt; stores.faults(), closed);
    Ok(())
}

#[test]
fn running_out_of_memory_is_a_counted_failure_if_a_call_has_no_answer_for_it(
    rt: HostRuntime,
) -> Result<(), Fail> {
    for (kind, answer, faults) in [
        (
            ErrorKind::PermissionDenied,
            "failed",
            "faults => 6 0\nappend 0 1_1; => failed\nfaults => 6 1",
        ),
        (
            ErrorKind::OutOfMemory,
            "no memory",
            "faults => 4 0\nappend 0 1_1; => failed\nfaults => 4 1",
        ),
    ] {
        let steps = REFUSED.replace(rt.alloc(), "ANSWER", answer)?;
        let steps = format!(in rt.alloc(); "{steps}\n{faults}")?;
        let refusing = Refusing {
            rt,
            kind,
            names: b"",
        };
        check_refused(&rt, refusing, steps.as_str(), 1)?;
    }
    Ok(())
}

#[test]
fn a_name_that_is_not_utf8_or_a_length_that_is_not_known_fails_the_listing(
    rt: HostRuntime,
) -> Result<(), Fail> {
    for (names, steps, closed) in [
        (
            b"1.mx,S=3\0\xff,S=3\0".as_slice(),
            "list INBOX => failed\nfaults => 1 0",
            1,
        ),
        (
            b"1.mx,S=3\x002.mx\0",
            "list INBOX => failed\nfaults => 1 0",
            1,
        ),
        // If a file's name states its length, the system is not asked for it. Each name is in `new`
        // and in `cur`.
        (
            b".\0..\x001.mx,S=3\x002.mx,S=4:2,S\0.\xff\0",
            "list INBOX => 1.mx,S=3 3;1.mx,S=3 3;2.mx,S=4:2,S 4;2.mx,S=4:2,S 4;\nfaults => 0 0",
            0,
        ),
    ] {
        let kind = ErrorKind::PermissionDenied;
        check_refused(&rt, Refusing { rt, kind, names }, steps, closed)?;
    }
    Ok(())
}
