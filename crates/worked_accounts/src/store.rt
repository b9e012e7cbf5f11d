// A store that is described line by line, and the account that is opened over it.
use crate::lines::{ledger_of, limits_of, name_of, number_of, text_of};
use crate::trouble::Trouble;
use account_ledger::{AccountState, OpenFault};
use keeper::{Bytes, KeepCall, KeepFail, MemKeeper, StoreRow};
use quota_roots::{LimitsList, NameList, RootSpec, Roots, Setup};
use quota_units::{Limits, Name};
use std::alloc::Global;

/// The second at which accounts are opened.
const EPOCH: u64 = 1700000000;

/// The files of a store, the ledger of root 0, the calls that fail, and what the account is opened
/// with.
#[derive(Drop)]
pub struct Store {
    rows: Vec<StoreRow>,
    ledger: Option<Vec<u8>>,
    fails: Vec<KeepFail>,
    roots: Vec<RootSpec>,
    limits: Vec<Limits>,
    journal: u32,
}

/// The kind of keeper call that has this name.
fn call_named(word: &[u8]) -> Result<KeepCall, Trouble> {
    match word {
        b"list" => Ok(KeepCall::List),
        b"put" => Ok(KeepCall::Put),
        b"rename" => Ok(KeepCall::Rename),
        b"remove" => Ok(KeepCall::Remove),
        b"read_ledger" => Ok(KeepCall::ReadLedger),
        b"append_ledger" => Ok(KeepCall::AppendLedger),
        b"install_ledger" => Ok(KeepCall::InstallLedger),
        _ => Err(Trouble::NoForm),
    }
}

/// INBOX, Lists and Trash.
fn mailboxes(alloc: Global) -> Result<NameList, Trouble> {
    let mut names = Vec::new(alloc);
    for name in [b"INBOX".as_slice(), b"Lists", b"Trash"] {
        names.push(Name::of(alloc, name)?)?;
    }
    Ok(NameList::new(names))
}

impl Store {
    /// A store with no file, no ledger, no root and a journal of 1000 entries.
    pub fn new(alloc: Global) -> Store {
        Store {
            rows: Vec::new(alloc),
            ledger: None,
            fails: Vec::new(alloc),
            roots: Vec::new(alloc),
            limits: Vec::new(alloc),
            journal: 1000,
        }
    }

    /// Adds what a line describes.
    pub fn take(&mut self, alloc: Global, words: &[&[u8]]) -> Result<String, Trouble> {
        match words {
            [b"file", mailbox, name] => self.add_file(alloc, mailbox, name)?,
            [b"ledger", text] => self.ledger = Some(ledger_of(alloc, text)?),
            [b"fail", call, nth] => self.add_fail(call, nth)?,
            [b"root", name, prefix, octets, count] => {
                let limits = limits_of(octets, count)?;
                self.add_root(alloc, name, prefix, limits)?;
            }
            [b"journal", number] => {
                let number = number_of(number)?;
                self.journal = u32::try_from(number).map_err(|_| Trouble::NoForm)?;
            }
            _ => return Err(Trouble::NoForm),
        }
        text_of(alloc, "ok")
    }

    /// Adds a file without octets.
    fn add_file(&mut self, alloc: Global, mailbox: &[u8], name: &[u8]) -> Result<(), Trouble> {
        self.rows.push(StoreRow {
            mailbox: name_of(alloc, mailbox)?,
            name: Bytes::new(name.to_vec(alloc)?),
            octets: Bytes::new(Vec::new(alloc)),
        })?;
        Ok(())
    }

    fn add_fail(&mut self, call: &[u8], nth: &[u8]) -> Result<(), Trouble> {
        let kind = call_named(call)?;
        let nth = number_of(nth)?;
        self.fails.push(KeepFail { kind, nth })?;
        Ok(())
    }

    fn add_root(
        &mut self,
        alloc: Global,
        name: &[u8],
        prefix: &[u8],
        limits: Limits,
    ) -> Result<(), Trouble> {
        let name = name_of(alloc, name)?;
        let prefix = if prefix == b"-".as_slice() {
            None
        } else {
            Some(Name::of(alloc, prefix)?)
        };
        self.roots.push(RootSpec { name, prefix })?;
        self.limits.push(limits)?;
        Ok(())
    }

    /// Opens the account over this store. If no root was described, the account has one of the
    /// empty name, without limits.
    pub fn open(mut self, alloc: Global) -> Result<AccountState<MemKeeper>, Trouble> {
        if self.roots.is_empty() {
            let limits = limits_of(b"-", b"-")?;
            self.add_root(alloc, b"-", b"-", limits)?;
        }
        let Store {
            rows,
            ledger,
            fails,
            roots,
            limits,
            journal,
        } = self;
        let setup = Setup {
            roots: roots_of(roots)?,
            limits: LimitsList::new(limits),
            mailboxes: mailboxes(alloc)?,
            journal,
        };
        let keeper = MemKeeper::new(alloc, rows, vec![in alloc; ledger]?, fails)?;
        if !setup.is_sound() {
            return Err(Trouble::Unsound);
        }
        AccountState::open(alloc, keeper, setup, EPOCH).map_err(|fault| {
            let OpenFault { cause, keeper: _ } = fault;
            Trouble::Refused(cause)
        })
    }
}

fn roots_of(roots: Vec<RootSpec>) -> Result<Roots, Trouble> {
    if roots.is_empty() {
        return Err(Trouble::Unsound);
    }
    Ok(Roots::new(roots)?)
}
