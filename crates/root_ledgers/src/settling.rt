// Settling roots in doubt.
ghost use Rattle.std.specs.Prelude.{◌≡◌, ◌<◌, ◌≤◌, ℕ, true, false, length, nat_eq, IfSome, OnOk, OnErr, IsErr, IsErrOf, All};
ghost use Rattle.quota_units.specs.Causes.{HasCause};
ghost use Rattle.quota_units.specs.Sums.{AreSmall};
ghost use Rattle.quota_roots.specs.RootSets.{has_root};
ghost use Rattle.keeper.specs.Calls.{Changes, OnFiles, SpendsDue, both};
ghost use Rattle.root_ledgers.specs.declared.book.Standing.TheVariants.{Settled, Doubt};
ghost use Rattle.root_ledgers.specs.Scans.{scan};
ghost use Rattle.root_ledgers.specs.Settling.{Settling, Marks, Spared, StaysInDoubt, book_at, kept_of, AreSmallBooks};

use crate::book::{Book, Standing};
use crate::folding::install_folded;
use crate::scans::scan_each;
use keeper::{KeepError, Keeper};
use quota_roots::{RootSet, Roots};
use quota_units::{Failed, Limits, Name, Totals};
use std::alloc::Global;

/// Settles a root in doubt: installs the folded text of its limits and of a fresh scan as its
/// ledger.
///
/// # Errors
///
/// The store failed. The root is still in doubt, and its ledger is as before.
fn settle_by<K: Keeper>(
    keeper: &mut K,
    roots: &Roots,
    mailboxes: &[Name],
    limits: &[Limits],
    books: &mut Vec<Book>,
    root: u32,
    totals: Totals,
) -> Result<(), Failed>
    requires root { root < length roots.now }
    requires limits { length limits.now ≡ length roots.now }
    requires books { length books.old.items ≡ length roots.now }
    requires small { AreSmallBooks books.old.items }
    requires doubt { (book_at books.old.items root).standing ≡ Doubt }
    requires totals { AreSmall totals }
    requires fresh { IfSome (K.told keeper.old)
        (λ t. totals ≡ scan roots.now root mailboxes.now t.files.rows) }
    ensures files { Changes (OnFiles (Settling (nat_eq root) roots.now mailboxes.now
        (kept_of limits.now books.old.items) (kept_of limits.now books.new.items)))
        (K.told keeper.old) (K.told keeper.new) }
    ensures marks { Marks (nat_eq root) books.old.items books.new.items }
    ensures small { AreSmallBooks books.new.items }
    ensures settled { OnOk result ((book_at books.new.items root).standing ≡ Settled) }
    ensures stays { OnErr result (books.new.items ≡ books.old.items) }
    ensures cause { HasCause (IsErr result) (K.faults keeper.old) (K.faults keeper.new) }
    ensures due { SpendsDue K.told (both K.faults K.append_faults) (IsErr result) keeper.old
        keeper.new }
    ensures appends { K.append_faults keeper.new ≡ K.append_faults keeper.old }
{
    // The account has at most four roots.
    let _count = roots.count();
    let book = install_folded(keeper, root, &limits[root as usize], totals)?;
    books[root as usize] = book;
    Ok(())
}

/// Whether a root of the set is in doubt.
fn has_doubt(roots: &Roots, books: &[Book], set: RootSet) -> bool
    requires { length books.now ≡ length roots.now }
    ensures none { result ≡ false → (root : ℕ) → root < length roots.now
        → has_root set root ≡ true → (book_at books.now root).standing ≡ Settled }
{
    for root in 0..roots.count() {
        if set.has(root) && books[root as usize].standing == Standing::Doubt {
            return true;
        }
    }
    false
}

/// Settles, by a fresh scan, each root of the set that is in doubt. All memory is taken before a
/// ledger is changed.
///
/// # Errors
///
/// `Failed` if the store failed. One of these roots is still in doubt then, with its ledger as it
/// was, and others may be settled. `NoMemory` if memory runs out. All roots and files are as before
/// then.
pub(crate) fn settle<K: Keeper>(
    alloc: Global,
    keeper: &mut K,
    roots: &Roots,
    mailboxes: &[Name],
    limits: &[Limits],
    books: &mut Vec<Book>,
    set: RootSet,
) -> Result<(), KeepError>
    requires limits { length limits.now ≡ length roots.now }
    requires books { length books.old.items ≡ length roots.now }
    requires small { AreSmallBooks books.old.items }
    ensures files { Changes (OnFiles (Settling (has_root set) roots.now mailboxes.now
        (kept_of limits.now books.old.items) (kept_of limits.now books.new.items)))
        (K.told keeper.old) (K.told keeper.new) }
    ensures marks { Marks (has_root set) books.old.items books.new.items }
    ensures small { AreSmallBooks books.new.items }
    ensures settled { OnOk result ((root : ℕ) → root < length roots.now → has_root set root ≡ true
        → (book_at books.new.items root).standing ≡ Settled) }
    ensures failed { IsErrOf result KeepError.Failed → StaysInDoubt (has_root set) books.new.items }
    ensures spared { IsErrOf result KeepError.NoMemory → Spared (kept_of limits.now books.old.items)
        (kept_of limits.now books.new.items) (K.told keeper.old) (K.told keeper.new) }
    ensures cause { HasCause (IsErrOf result KeepError.Failed) (K.faults keeper.old)
        (K.faults keeper.new) }
    ensures due { SpendsDue K.told (both K.faults K.append_faults) (IsErrOf result KeepError.Failed)
        keeper.old keeper.new }
    ensures appends { K.append_faults keeper.new ≡ K.append_faults keeper.old }
{
    if !has_doubt(roots, books, set) {
        return Ok(());
    }
    let scans = scan_each(alloc, keeper, roots, mailboxes, books, set)?;
    for root in 0..roots.count() {
        if let Some(totals) = scans[root as usize] {
            settle_by(keeper, roots, mailboxes, limits, books, root, totals)?;
        }
    }
    Ok(())
}
