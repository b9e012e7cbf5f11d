//! Works accounts over keepers in memory, line by line: each line of the input is done, and printed
//! with its outcome.
//!
//! An empty line, and one that begins with `#`, is printed as it is. Words are separated by one
//! space. The word `-` is the empty name, no prefix, no limit or no flags.
//!
//! Lines that describe a store, before `open`:
//!
//! - `store`: an empty store, with the mailboxes INBOX, Lists and Trash and a journal of 1000
//!   entries
//! - `root NAME PREFIX OCTETS MESSAGES`: one more quota root with these limits; without such a line
//!   the account has one root of the empty name without limits
//! - `file MAILBOX NAME`: a message file without octets
//! - `ledger TEXT`: the ledger of root 0, with `|` for each LF and `_` for each space
//! - `fail CALL N`: the keeper's Nth `list`, `put`, `rename`, `remove`, `read_ledger`,
//!   `append_ledger` or `install_ledger` fails
//! - `journal N`: how many entries the account's history may have
//!
//! `open` opens the account over that store, as of second 1700000000. Lines that ask the account:
//!
//! - `deliver MAILBOX OCTETS [FLAGS]`, `check OCTETS`, `remove MAILBOX BASE`,
//!   `mark MAILBOX BASE FLAGS`, `move FROM BASE TO`, `limits ROOT OCTETS MESSAGES`, `quota ROOT`,
//!   `roots MAILBOX`, `status MAILBOX`, `begin` (of a scan), `part N`: one call of the account
//! - `fill N MAILBOX OCTETS`: N such deliveries (at least one); the answer to the last is printed
//! - `usage N`: the usage of root N, without an entry; `standings`: whether each root is settled
//! - `close`: the number of calls, each ledger, and the files of each mailbox,
//!   or their number if there are more than 8
#![tactic(auto)]

mod account;
mod answers;
mod lines;
mod store;
mod trouble;

use account::{close, serve_line};
use account_ledger::AccountState;
use keeper::MemKeeper;
use lines::{text_of, words_of};
use std::alloc::Global;
use std::io::{self, Read};
use store::Store;
use trouble::Trouble;

/// What is kept between two lines: the store that is being described, and the account if one is
/// open.
#[derive(Drop)]
struct Workbench {
    store: Store,
    account: Option<AccountState<MemKeeper>>,
}

impl Workbench {
    fn new(alloc: Global) -> Workbench {
        Workbench {
            store: Store::new(alloc),
            account: None,
        }
    }

    /// Does a line, and returns its result.
    fn take(&mut self, alloc: Global, words: &[&[u8]]) -> Result<String, Trouble> {
        match words {
            [b"store"] => {
                *self = Workbench::new(alloc);
                text_of(alloc, "empty")
            }
            [b"open"] => {
                let store = std::mem::replace(&mut self.store, Store::new(alloc));
                self.account = Some(store.open(alloc)?);
                text_of(alloc, "opened")
            }
            [b"close"] => match self.account.take() {
                Some(account) => close(alloc, account),
                None => Err(Trouble::NoAccount),
            },
            _ => match &mut self.account {
                Some(account) => serve_line(alloc, account, words),
                None => self.store.take(alloc, words),
            },
        }
    }
}

/// The line with its result. A line that begins with `#`, or is empty, is returned as it is.
fn worked(alloc: Global, bench: &mut Workbench, line: &str) -> Result<String, Trouble> {
    if line.is_empty() || line.starts_with("#") {
        return text_of(alloc, line);
    }
    let words = words_of(alloc, line.as_bytes())?;
    match bench.take(alloc, words.as_slice()) {
        Ok(answer) => Ok(format!(in alloc; "{line} -> {answer}")?),
        Err(Trouble::NoMemory) => Err(Trouble::NoMemory),
        Err(trouble) => Ok(format!(in alloc; "{line} -> {trouble}")?),
    }
}

fn main(rt: HostRuntime) -> io::Result<()> {
    let alloc = rt.alloc();
    let mut input = Vec::new(alloc);
    rt.stdin().read_to_end(&mut input)?;
    let lines = match input.as_slice() {
        [lines @ .., b'\n'] => lines,
        lines => lines,
    };
    let mut bench = Workbench::new(alloc);
    for line in lines.split(|b| *b == b'\n') {
        let Ok(line) = str::from_utf8(line) else {
            return println!(rt; "a line that is no text");
        };
        match worked(alloc, &mut bench, line) {
            Ok(text) => println!(rt; "{text}")?,
            Err(trouble) => return println!(rt; "{trouble}"),
        }
    }
    Ok(())
}
