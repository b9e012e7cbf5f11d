ghost use Rattle.std.specs.Prelude.{◌≡◌};

use crate::RootRow;
use std::marker::Model;

/// Rows of roots, in the order of the roots.
#[derive(Debug, Drop)]
pub struct RootRows {
    rows: Vec<RootRow>,
}

impl Model for RootRows {
    ghost use Rattle.std.specs.Prelude.{List};
    ghost use Rattle.account_core.specs.declared.calls.RootRow.{RootRow};

    ghost Value = { List RootRow };

    ghost view = { λ a. a.rows.items };
}

impl RootRows {
    /// The rows of this list. It allocates no memory.
    pub fn of(rows: Vec<RootRow>) -> RootRows
        ensures { result ≡ rows.items }
    {
        RootRows { rows }
    }

    /// The rows.
    pub fn as_slice(&self) -> &[RootRow]
        ensures { result.now ≡ self.now }
    {
        self.rows.as_slice()
    }
}
