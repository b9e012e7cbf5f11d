ghost use Rattle.std.specs.Prelude.{◌≡◌, ◌<◌, ◌≤◌, ◌+◌, ◌-◌, ◌++◌, replicate, [], ◌∷◌, map, length, vec_len, IfOk, OnOk, OnErr};
ghost use Rattle.std.specs.Option.{option_map};
ghost use Rattle.keeper.specs.Files.{Files, listed, removed, renamed, ledger_at, ledger_bytes, four_ledgers};
ghost use Rattle.keeper.specs.Calls.{Writes};

use crate::kept::{KeptRow, kept_rows, list, put, remove, rename};
use crate::ledger::Ledger;
use crate::{FileRow, StoreRow};
use std::alloc::{AllocError, Global};
use std::marker::Model;

/// The files of an account, in memory.
#[derive(Debug, Drop)]
pub(crate) struct MemFiles {
    rows: Vec<KeptRow>,
    ledgers: Vec<Ledger>,
}

impl Model for MemFiles {
    ghost use Rattle.std.specs.Prelude.{◌≡◌, length};
    ghost use Rattle.keeper.specs.Files.{Files};

    ghost Value = { Files };

    ghost view = { λ f. record { rows = f.rows.items; ledgers = f.ledgers.items } };

    ghost invariant = { λ f. length f.ledgers.items ≡ 4 };
}

impl MemFiles {
    /// Files with these rows and these ledgers, at most four. Each root after the last of them has
    /// no ledger.
    pub(crate) fn new(
        alloc: Global,
        rows: Vec<StoreRow>,
        ledgers: Vec<Option<Vec<u8>>>,
    ) -> Result<MemFiles, AllocError>
        requires { vec_len ledgers ≤ 4 }
        ensures { IfOk result
            (λ files. files ≡ record { rows = rows.items; ledgers = four_ledgers ledgers.items }) }
    {
        Ok(MemFiles {
            rows: kept_rows(alloc, rows)?,
            ledgers: filled(alloc, kept_ledgers(alloc, ledgers)?)?,
        })
    }

    /// The files of a mailbox.
    pub(crate) fn list(&self, alloc: Global, mailbox: &[u8]) -> Result<Vec<FileRow>, AllocError>
        ensures { IfOk result (λ files. files.items ≡ listed mailbox.now self.now.rows) }
    {
        list(alloc, &self.rows, mailbox)
    }

    /// Adds a row at the end.
    pub(crate) fn put(
        &mut self,
        alloc: Global,
        mailbox: &[u8],
        name: &[u8],
        octets: &[u8],
    ) -> Result<(), AllocError>
        ensures ok { OnOk result (self.new ≡ record self.old {
          rows = self.old.rows
              ++ record { mailbox = mailbox.now; name = name.now; octets = octets.now } ∷ [];
        }) }
        ensures err { OnErr result (self.new ≡ self.old) }
    {
        put(alloc, &mut self.rows, mailbox, name, octets)
    }

    /// Gives the first row of this mailbox and name another mailbox and name.
    pub(crate) fn rename(
        &mut self,
        alloc: Global,
        from: &[u8],
        name: &[u8],
        to: &[u8],
        new_name: &[u8],
    ) -> Result<(), AllocError>
        ensures ok { OnOk result (self.new ≡ record self.old {
          rows =
              renamed from.now name.now to.now new_name.now self.old.rows;
        }) }
        ensures err { OnErr result (self.new ≡ self.old) }
    {
        rename(alloc, &mut self.rows, from, name, to, new_name)
    }

    /// Removes the first row of this mailbox and name.
    pub(crate) fn remove(&mut self, mailbox: &[u8], name: &[u8])
        ensures { self.new ≡ record self.old { rows = removed mailbox.now name.now self.old.rows } }
    {
        remove(&mut self.rows, mailbox, name);
    }

    /// A copy of a ledger's bytes, or `None` if there is no such ledger.
    pub(crate) fn read_ledger(
        &self,
        alloc: Global,
        root: u32,
    ) -> Result<Option<Vec<u8>>, AllocError>
        requires { root < 4 }
        ensures { IfOk result
            (λ found. option_map (λ bytes. bytes.items) found ≡ ledger_at self.now root) }
    {
        self.ledgers[root as usize].read(alloc)
    }

    /// Appends a line to a ledger. It allocates no memory.
    pub(crate) fn append_ledger(&mut self, root: u32, line: &[u8])
        requires root { root < 4 }
        requires room { length (ledger_bytes self.old root) + length line.now < 5120 }
        ensures { Writes root (ledger_bytes self.old root ++ line.now) self.old self.new }
    {
        self.ledgers[root as usize].append(line);
    }

    /// Writes a text in place of a ledger. It allocates no memory.
    pub(crate) fn install_ledger(&mut self, root: u32, text: &[u8])
        requires root { root < 4 }
        requires short { length text.now < 5120 }
        ensures { Writes root text.now self.old self.new }
    {
        self.ledgers[root as usize].install(text);
    }
}

/// Makes the ledgers in memory from this list.
fn kept_ledgers(alloc: Global, given: Vec<Option<Vec<u8>>>) -> Result<Vec<Ledger>, AllocError>
    ensures { IfOk result
        (λ ledgers. ledgers.items ≡ map (option_map (λ bytes. bytes.items)) given.items) }
{
    let mut ledgers = Vec::new(alloc);
    for ledger in given {
        ledgers.push(Ledger::new(alloc, ledger)?)?;
    }
    Ok(ledgers)
}

/// Adds ledgers that do not exist yet until there are four.
#[tactic(auto, using(std::proofs::lemmas::Grind::replicate_next, std::proofs::lemmas::List::append_assoc))]
fn filled(alloc: Global, mut ledgers: Vec<Ledger>) -> Result<Vec<Ledger>, AllocError>
    ensures { IfOk result
        (λ four. four.items ≡ ledgers.items ++ replicate (4 - length ledgers.items) None) }
{
    let missing = 4usize.saturating_sub(ledgers.len());
    for _ in 0..missing {
        ledgers.push(Ledger::new(alloc, None)?)?;
    }
    Ok(ledgers)
}
