// A folded text takes the place of a ledger.
ghost use Rattle.std.specs.Prelude.{◌≡◌, ◌<◌, length, IfOk, IsErr};
ghost use Rattle.quota_units.specs.Causes.{HasCause};
ghost use Rattle.quota_units.specs.Sums.{AreSmall};
ghost use Rattle.keeper.specs.Calls.{Changes, Installs, SpendsDue, both};
ghost use Rattle.root_ledgers.specs.Ledgers.{folded};
ghost use Rattle.root_ledgers.specs.Settling.{folded_book};

use crate::book::{Book, Standing};
use keeper::Keeper;
use maildirsize::{Text, print_folded};
use quota_units::{Failed, Limits, Totals};

/// Installs the folded text of these limits and totals as the ledger of a root, and gives the
/// root's new book.
///
/// # Errors
///
/// The store failed. The ledger is as it was.
pub(crate) fn install_folded<K: Keeper>(
    keeper: &mut K,
    root: u32,
    limits: &Limits,
    totals: Totals,
) -> Result<Book, Failed>
    requires root { root < 4 }
    requires totals { AreSmall totals }
    ensures files { Changes (Installs root (folded limits.now totals) result) (K.told keeper.old)
        (K.told keeper.new) }
    ensures book { IfOk result (λ book. book ≡ folded_book limits.now totals) }
    ensures short { length (folded limits.now totals) < 5120 }
    ensures cause { HasCause (IsErr result) (K.faults keeper.old) (K.faults keeper.new) }
    ensures due { SpendsDue K.told (both K.faults K.append_faults) (IsErr result) keeper.old
        keeper.new }
    ensures appends { K.append_faults keeper.new ≡ K.append_faults keeper.old }
{
    let mut text = Text::new();
    print_folded(limits, &totals, &mut text);
    let length = text.as_slice().len();
    keeper.install_ledger(root, text.as_slice())?;
    Ok(Book {
        totals,
        standing: Standing::Settled,
        length,
    })
}
