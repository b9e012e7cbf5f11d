ghost use Rattle.std.specs.Prelude.{◌≡◌, ◌++◌, [], ◌∷◌, OnOk, OnErr};

use quota_roots::RootSet;
use quota_units::Totals;
use std::alloc::{AllocError, Global};
use std::marker::Model;

/// The sets of roots that govern mailboxes, one for each mailbox, in order. Contracts see the roots
/// of each mailbox by their numbers.
#[derive(Debug, Drop)]
pub struct RootSets {
    sets: Vec<RootSet>,
}

impl Model for RootSets {
    ghost use Rattle.std.specs.Prelude.{ℕ, List};

    ghost Value = { List (List ℕ) };

    ghost view = { λ a. a.sets.items };
}

impl RootSets {
    /// No mailbox.
    pub fn new(alloc: Global) -> RootSets
        ensures { result ≡ [] }
    {
        RootSets {
            sets: Vec::new(alloc),
        }
    }

    /// Appends the set of one mailbox.
    ///
    /// # Errors
    ///
    /// Memory ran out. The sets are as before.
    pub fn push(&mut self, set: RootSet) -> Result<(), AllocError>
        ensures ok { OnOk result (self.new ≡ self.old ++ set ∷ []) }
        ensures err { OnErr result (self.new ≡ self.old) }
    {
        Ok(self.sets.push(set)?)
    }

    /// The sets, in the order of the mailboxes.
    pub fn as_slice(&self) -> &[RootSet]
        ensures { result.now ≡ self.now }
    {
        self.sets.as_slice()
    }
}

/// Octets and numbers of messages: one pair for each root, in order.
#[derive(Debug, Drop)]
pub struct TotalsList {
    totals: Vec<Totals>,
}

impl Model for TotalsList {
    ghost use Rattle.std.specs.Prelude.{List};
    ghost use Rattle.quota_units.specs.declared.totals.Totals.{Totals};

    ghost Value = { List Totals };

    ghost view = { λ a. a.totals.items };
}

impl TotalsList {
    /// No root.
    pub fn new(alloc: Global) -> TotalsList
        ensures { result ≡ [] }
    {
        TotalsList {
            totals: Vec::new(alloc),
        }
    }

    /// Appends the totals of one root.
    ///
    /// # Errors
    ///
    /// Memory ran out. The totals are as before.
    pub fn push(&mut self, totals: Totals) -> Result<(), AllocError>
        ensures ok { OnOk result (self.new ≡ self.old ++ totals ∷ []) }
        ensures err { OnErr result (self.new ≡ self.old) }
    {
        Ok(self.totals.push(totals)?)
    }

    /// The totals, in the order of the roots.
    pub fn as_slice(&self) -> &[Totals]
        ensures { result.now ≡ self.now }
    {
        self.totals.as_slice()
    }
}
