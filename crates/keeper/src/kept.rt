ghost use Rattle.std.specs.Prelude.{◌≡◌, ◌++◌, [], ◌∷◌, ◌<◌, length, position, IfOk, IfSome, OnOk, OnErr};
ghost use Rattle.keeper.specs.Files.{Row, is_in, is_named, file_of, listed, removed, renamed};

use crate::{Bytes, FileRow, StoreRow};
use std::alloc::{AllocError, Global};
use std::marker::Model;

/// A message file that is kept in memory.
#[derive(Debug, Drop)]
pub(crate) struct KeptRow {
    mailbox: Vec<u8>,
    name: Bytes,
    octets: Bytes,
}

impl Model for KeptRow {
    ghost use Rattle.keeper.specs.Files.{Row};

    ghost Value = { Row };

    ghost view = { λ r. record { mailbox = r.mailbox.items; name = r.name; octets = r.octets } };
}

impl KeptRow {
    fn new(alloc: Global, mailbox: &[u8], name: &[u8], octets: &[u8]) -> Result<KeptRow, AllocError>
        ensures { IfOk result
            (λ row. row ≡ record { mailbox = mailbox.now; name = name.now; octets = octets.now }) }
    {
        Ok(KeptRow {
            mailbox: mailbox.to_vec(alloc)?,
            name: Bytes::new(name.to_vec(alloc)?),
            octets: Bytes::new(octets.to_vec(alloc)?),
        })
    }

    fn of(alloc: Global, row: StoreRow) -> Result<KeptRow, AllocError>
        ensures { IfOk result (λ kept. kept ≡ row) }
    {
        let StoreRow {
            mailbox,
            name,
            octets,
        } = row;
        Ok(KeptRow {
            mailbox: mailbox.as_slice().to_vec(alloc)?,
            name,
            octets,
        })
    }

    fn is_in(&self, mailbox: &[u8]) -> bool
        ensures { result ≡ is_in mailbox.now self.now }
    {
        self.mailbox.as_slice() == mailbox
    }

    fn is_named(&self, mailbox: &[u8], name: &[u8]) -> bool
        ensures { result ≡ is_named mailbox.now name.now self.now }
    {
        self.mailbox.as_slice() == mailbox && self.name.as_slice() == name
    }

    fn file(&self, alloc: Global) -> Result<FileRow, AllocError>
        ensures { IfOk result (λ file. file ≡ file_of self.now) }
    {
        let name = Bytes::new(self.name.as_slice().to_vec(alloc)?);
        let length = self.octets.as_slice().len() as u64;
        Ok(FileRow { name, length })
    }

    fn rename(&mut self, mailbox: Vec<u8>, name: Bytes)
        ensures { self.new ≡ record self.old { mailbox = mailbox.items; name = name } }
    {
        self.mailbox = mailbox;
        self.name = name;
    }
}

/// Makes the rows in memory from this list.
pub(crate) fn kept_rows(alloc: Global, rows: Vec<StoreRow>) -> Result<Vec<KeptRow>, AllocError>
    ensures { IfOk result (λ kept. kept.items ≡ rows.items) }
{
    let mut kept = Vec::new(alloc);
    for row in rows {
        kept.push(KeptRow::of(alloc, row)?)?;
    }
    Ok(kept)
}

/// The files of a mailbox.
pub(crate) fn list(
    alloc: Global,
    rows: &[KeptRow],
    mailbox: &[u8],
) -> Result<Vec<FileRow>, AllocError>
    ensures { IfOk result (λ files. files.items ≡ listed mailbox.now rows.now) }
{
    let mut files = Vec::new(alloc);
    for row in rows {
        if row.is_in(mailbox) {
            files.push(row.file(alloc)?)?;
        }
    }
    Ok(files)
}

/// Adds a row at the end.
pub(crate) fn put(
    alloc: Global,
    rows: &mut Vec<KeptRow>,
    mailbox: &[u8],
    name: &[u8],
    octets: &[u8],
) -> Result<(), AllocError>
    ensures ok { OnOk result (rows.new.items ≡ rows.old.items
        ++ record { mailbox = mailbox.now; name = name.now; octets = octets.now } ∷ []) }
    ensures err { OnErr result (rows.new.items ≡ rows.old.items) }
{
    rows.push(KeptRow::new(alloc, mailbox, name, octets)?)?;
    Ok(())
}

/// The place of the first row of this mailbox and name.
fn index_of(rows: &[KeptRow], mailbox: &[u8], name: &[u8]) -> Option<usize>
    ensures value { result ≡ position (is_named mailbox.now name.now) rows.now }
    ensures within { IfSome result (λ at. at < length rows.now) }
{
    rows.iter().position(|row| row.is_named(mailbox, name))
}

/// Removes the first row of this mailbox and name.
#[tactic(auto, using(crate::proofs::RowLemmas::removed_at, crate::proofs::RowLemmas::removed_nowhere))]
pub(crate) fn remove(rows: &mut Vec<KeptRow>, mailbox: &[u8], name: &[u8])
    ensures { rows.new.items ≡ removed mailbox.now name.now rows.old.items }
{
    if let Some(at) = index_of(rows, mailbox, name) {
        let _row = rows.remove(at);
    }
}

/// Gives the first row of this mailbox and name another mailbox and name.
#[tactic(auto, using(crate::proofs::RowLemmas::renamed_at, crate::proofs::RowLemmas::renamed_nowhere))]
pub(crate) fn rename(
    alloc: Global,
    rows: &mut Vec<KeptRow>,
    from: &[u8],
    name: &[u8],
    to: &[u8],
    new_name: &[u8],
) -> Result<(), AllocError>
    ensures ok { OnOk result
        (rows.new.items ≡ renamed from.now name.now to.now new_name.now rows.old.items) }
    ensures err { OnErr result (rows.new.items ≡ rows.old.items) }
{
    let mailbox = to.to_vec(alloc)?;
    let new_name = Bytes::new(new_name.to_vec(alloc)?);
    if let Some(at) = index_of(rows, from, name) {
        rows[at].rename(mailbox, new_name);
    }
    Ok(())
}
