ghost use Rattle.std.specs.Prelude.{◌≡◌, IfOk};
ghost use Rattle.quota_roots.specs.Copies.{GivesCopy};

use quota_units::{Limits, Name, NoMemory};
use std::alloc::Global;
use std::marker::Model;

/// A list of limits.
#[derive(Debug, Drop)]
pub struct LimitsList {
    limits: Vec<Limits>,
}

impl Model for LimitsList {
    ghost use Rattle.std.specs.Prelude.{List};
    ghost use Rattle.quota_units.specs.Limiting.{LimitNumbers};

    ghost Value = { List LimitNumbers };

    ghost view = { λ l. l.limits.items };
}

impl LimitsList {
    /// The list of these limits. This allocates no memory.
    pub fn new(limits: Vec<Limits>) -> LimitsList
        ensures { result ≡ limits.items }
    {
        LimitsList { limits }
    }

    /// The limits, in order.
    pub fn as_slice(&self) -> &[Limits]
        ensures { result.now ≡ self.now }
    {
        self.limits.as_slice()
    }

    /// An equal list.
    ///
    /// # Errors
    ///
    /// `NoMemory` if memory runs out.
    pub fn copy(&self, alloc: Global) -> Result<LimitsList, NoMemory>
        ensures { GivesCopy self.now result }
    {
        Ok(LimitsList {
            limits: self.limits.to_vec(alloc)?,
        })
    }
}

/// A list of names.
#[derive(Debug, Drop)]
pub struct NameList {
    names: Vec<Name>,
}

impl Model for NameList {
    ghost use Rattle.std.specs.Prelude.{ℕ, List};

    ghost Value = { List (List ℕ) };

    ghost view = { λ l. l.names.items };
}

impl NameList {
    /// The list of these names. This allocates no memory.
    pub fn new(names: Vec<Name>) -> NameList
        ensures { result ≡ names.items }
    {
        NameList { names }
    }

    /// The names, in order.
    pub fn as_slice(&self) -> &[Name]
        ensures { result.now ≡ self.now }
    {
        self.names.as_slice()
    }

    /// An equal list.
    ///
    /// # Errors
    ///
    /// `NoMemory` if memory runs out.
    pub fn copy(&self, alloc: Global) -> Result<NameList, NoMemory>
        ensures { GivesCopy self.now result }
    {
        Ok(NameList {
            names: copy_names(alloc, &self.names)?,
        })
    }
}

fn copy_names(alloc: Global, names: &[Name]) -> Result<Vec<Name>, NoMemory>
    ensures { IfOk result (λ copy. copy.items ≡ names.now) }
{
    let mut copy = Vec::new(alloc);
    for name in names {
        copy.push(copy_name(alloc, name)?)?;
    }
    Ok(copy)
}

/// An equal name.
pub(crate) fn copy_name(alloc: Global, name: &Name) -> Result<Name, NoMemory>
    ensures { GivesCopy name.now result }
{
    Name::of_short(alloc, name.as_slice())
}
