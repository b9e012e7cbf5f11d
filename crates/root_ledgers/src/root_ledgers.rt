ghost use Rattle.std.specs.Prelude.{◌≡◌, ◌<◌, ◌≤◌, ℕ, true, false, set, length, All, IfOk, OnOk, OnErr, IsErr, IsErrOf};
ghost use Rattle.std.specs.Option.{option_map};
ghost use Rattle.quota_units.specs.Causes.{HasCause};
ghost use Rattle.quota_units.specs.Limiting.{AreLimits};
ghost use Rattle.quota_units.specs.Sums.{AreSmall};
ghost use Rattle.quota_roots.specs.RootSets.{has_root};
ghost use Rattle.keeper.specs.Calls.{Changes, Installs, OnFiles, AddsNoDue, SpendsDue, both};
ghost use Rattle.keeper.specs.Files.{ledger_bytes};
ghost use Rattle.admission.specs.Fitting.{limits_at};
ghost use Rattle.root_ledgers.specs.declared.book.Standing.TheVariants.{Settled, Doubt};
ghost use Rattle.root_ledgers.specs.Ledgers.{folded};
ghost use Rattle.root_ledgers.specs.Lines.{AreLong, BooksLined, HasCauses, LedgersLined, change_at, fell_below};
ghost use Rattle.root_ledgers.specs.Settling.{AreKept, Marks, Settling, Spared, StaysInDoubt, book_at, with_folded, AreSmallBooks};

use crate::book::{Book, Standing};
use crate::folding::install_folded;
use crate::lines::write_lines;
use crate::settling::settle;
use keeper::{KeepError, Keeper};
use quota_roots::{RootSet, Roots};
use quota_units::{Failed, Limits, Name, Totals};
use std::alloc::{AllocError, Global};
use std::marker::Model;

/// What is kept in memory of an account's quota roots: the limits and the book of each root.
///
/// Contracts see the limits and the books, in the order of the roots.
#[derive(Drop)]
pub struct RootLedgers {
    limits: Vec<Limits>,
    books: Vec<Book>,
}

impl Model for RootLedgers {
    ghost use Rattle.root_ledgers.specs.Settling.{Kept, AreKept};

    ghost Value = { Kept };

    ghost view = { λ a. record { limits = a.limits.items; books = a.books.items } };

    ghost invariant = { λ a. AreKept (record { limits = a.limits.items; books = a.books.items }) };
}

impl RootLedgers {
    /// Roots with these limits. Each root is in doubt.
    ///
    /// # Errors
    ///
    /// Memory ran out.
    pub fn in_doubt(alloc: Global, limits: Vec<Limits>) -> Result<RootLedgers, AllocError>
        requires { length limits.items ≤ 4 }
        ensures limits { IfOk result (λ kept. kept.limits ≡ limits.items) }
        ensures doubt { IfOk result (λ kept. (root : ℕ)
            → (book_at kept.books root).standing ≡ Doubt) }
    {
        let books = books_in_doubt(alloc, limits.len())?;
        Ok(RootLedgers { limits, books })
    }

    /// Shows contracts that there is a book for each root's limits, that there are at most four
    /// roots, and that each total is below 2^62.
    ///
    /// It exists for proofs alone.
    pub fn show_kept(&self)
        ensures { AreKept self.now }
    {
        let _ = &self.limits;
    }

    /// The limits of each root.
    pub fn limits(&self) -> &[Limits]
        ensures { result.now ≡ self.now.limits }
    {
        &self.limits
    }

    /// The book of each root.
    pub fn books(&self) -> &[Book]
        ensures { result.now ≡ self.now.books }
    {
        &self.books
    }

    /// Settles each root of the set that is in doubt. Each mailbox that such a root governs is
    /// listed once. Then each such root gets a new ledger: the folded text of its limits and of
    /// what the files of its mailboxes add up to. All memory is taken before a ledger is changed.
    ///
    /// # Errors
    ///
    /// `Failed` if the store failed. One of these roots is still in doubt then, with its ledger as
    /// it was, and others may be settled. `NoMemory` if memory runs out. All roots and files are as
    /// before then.
    pub fn settle<K: Keeper>(
        &mut self,
        alloc: Global,
        keeper: &mut K,
        roots: &Roots,
        mailboxes: &[Name],
        set: RootSet,
    ) -> Result<(), KeepError>
        requires { length self.old.limits ≡ length roots.now }
        ensures limits { self.new.limits ≡ self.old.limits }
        ensures files { Changes (OnFiles (Settling (has_root set) roots.now mailboxes.now self.old
            self.new)) (K.told keeper.old) (K.told keeper.new) }
        ensures marks { Marks (has_root set) self.old.books self.new.books }
        ensures settled { OnOk result ((root : ℕ) → root < length roots.now
            → has_root set root ≡ true → (book_at self.new.books root).standing ≡ Settled) }
        ensures failed { IsErrOf result KeepError.Failed
            → StaysInDoubt (has_root set) self.new.books }
        ensures spared { IsErrOf result KeepError.NoMemory
            → Spared self.old self.new (K.told keeper.old) (K.told keeper.new) }
        ensures cause { HasCause (IsErrOf result KeepError.Failed) (K.faults keeper.old)
            (K.faults keeper.new) }
        ensures due { SpendsDue K.told (both K.faults K.append_faults)
            (IsErrOf result KeepError.Failed) keeper.old keeper.new }
        ensures appends { K.append_faults keeper.new ≡ K.append_faults keeper.old }
    {
        settle(
            alloc,
            keeper,
            roots,
            mailboxes,
            &self.limits,
            &mut self.books,
            set,
        )
    }

    /// Gives a root these limits and totals: installs their folded text as the root's ledger. The
    /// root is settled then.
    ///
    /// # Errors
    ///
    /// The store failed. The limits, the books and all files are as before then.
    pub fn fold<K: Keeper>(
        &mut self,
        keeper: &mut K,
        root: u32,
        limits: Limits,
        totals: Totals,
    ) -> Result<(), Failed>
        requires root { root < length self.old.limits }
        requires totals { AreSmall totals }
        ensures files { Changes (Installs root (folded limits totals) result) (K.told keeper.old)
            (K.told keeper.new) }
        ensures ok { OnOk result (self.new ≡ with_folded self.old root limits totals) }
        ensures err { OnErr result (self.new ≡ self.old) }
        ensures short { length (folded limits totals) < 5120 }
        ensures cause { HasCause (IsErr result) (K.faults keeper.old) (K.faults keeper.new) }
        ensures due { SpendsDue K.told (both K.faults K.append_faults) (IsErr result) keeper.old
            keeper.new }
        ensures appends { K.append_faults keeper.new ≡ K.append_faults keeper.old }
    {
        // There are at most four roots.
        self.show_kept();
        let book = install_folded(keeper, root, &limits, totals)?;
        self.limits[root as usize] = limits;
        self.books[root as usize] = book;
        Ok(())
    }

    /// Writes the lines of a message of `octets` octets, below 10^18, that goes from one mailbox to
    /// another. The ledger of each settled root whose usage changes gets one line, or is replaced
    /// by the folded text if it has no room for the line. If the line or the folded text can't be
    /// written, the root is in doubt then. A delivered message comes from no mailbox, and a removed
    /// message goes to none.
    pub fn write_lines<K: Keeper>(
        &mut self,
        keeper: &mut K,
        roots: &Roots,
        from: Option<&[u8]>,
        to: Option<&[u8]>,
        octets: u64,
    )
        requires roots { length self.old.limits ≡ length roots.now }
        requires octets { octets < 1000000000000000000 }
        requires long { AreLong self.old.books (K.told keeper.old) }
        ensures limits { self.new.limits ≡ self.old.limits }
        ensures books { BooksLined (length roots.now) (change_at roots.now
            (option_map (λ m. m.now) from.entry) (option_map (λ m. m.now) to.entry)) octets
            self.old.limits self.old.books self.new.books }
        ensures files { Changes (OnFiles (LedgersLined (length roots.now) (change_at roots.now
            (option_map (λ m. m.now) from.entry) (option_map (λ m. m.now) to.entry))
            octets self.old.limits self.old.books self.new.books)) (K.told keeper.old)
            (K.told keeper.new) }
        ensures faults { HasCauses (fell_below (length roots.now) false (change_at roots.now
            (option_map (λ m. m.now) from.entry) (option_map (λ m. m.now) to.entry)) octets
            self.old.books self.new.books) (K.faults keeper.old) (K.faults keeper.new) }
        ensures appends { HasCauses (fell_below (length roots.now) true
            (change_at roots.now (option_map (λ m. m.now) from.entry)
            (option_map (λ m. m.now) to.entry)) octets self.old.books self.new.books)
            (K.append_faults keeper.old) (K.append_faults keeper.new) }
        ensures due { AddsNoDue K.told (both K.faults K.append_faults) keeper.old keeper.new }
    {
        write_lines(
            keeper,
            roots,
            &self.limits,
            &mut self.books,
            from,
            to,
            octets,
        );
    }
}

/// The books of this many roots in doubt.
///
/// # Errors
///
/// Memory ran out.
fn books_in_doubt(alloc: Global, count: usize) -> Result<Vec<Book>, AllocError>
    ensures count { IfOk result (λ books. length books.items ≡ count) }
    ensures doubt { IfOk result (λ books. (root : ℕ)
        → (book_at books.items root).standing ≡ Doubt) }
    ensures small { IfOk result (λ books. AreSmallBooks books.items) }
{
    let mut books = Vec::new(alloc);
    for _root in 0..count {
        books.push(Book {
            totals: Totals {
                octets: 0,
                count: 0,
            },
            standing: Standing::Doubt,
            length: 0,
        })?;
    }
    Ok(books)
}
