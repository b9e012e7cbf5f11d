// The lines that a change of usage appends to ledgers.
ghost use Rattle.std.specs.Prelude.{◌≡◌, ◌≢◌, ◌<◌, ◌≤◌, ℕ, true, false, List, length, Some, IfSome};
ghost use Rattle.std.specs.Option.{option_map};
ghost use Rattle.admission.specs.Fitting.{limits_at};
ghost use Rattle.keeper.specs.Files.{ledger_at, ledger_bytes};
ghost use Rattle.keeper.specs.Calls.{Changes, OnFiles, OneLedger, AddsNoDue, both};
ghost use Rattle.root_ledgers.specs.declared.book.Standing.TheVariants.{Settled};
ghost use Rattle.root_ledgers.specs.Ledgers.{folded};
ghost use Rattle.root_ledgers.specs.Lines.{AreLong, HasCauses, FoldsShort, BookLined, BooksLined, LedgerLined, LedgersLined, fell_below, change_at, LineLedger, ChangedLedger, changed_book, fallen_by, fallen_at, has_room, line_by, lined_book};
ghost use Rattle.quota_units.specs.Sums.{AreSmall};
ghost use Rattle.root_ledgers.specs.Settling.{book_at, AreSmallBooks};

use crate::book::{Book, Standing};
use crate::change::{Change, change_at, print_change, totals_by};
use crate::folding::install_folded;
use keeper::Keeper;
use maildirsize::Text;
use quota_roots::Roots;
use quota_units::{Limits, Totals};

/// A ledger has fewer bytes than this.
const LEDGER_ROOM: usize = 5120;

/// Appends a line to the ledger of a settled root and gives the root's new book. The ledger has
/// room for the line. If the write failed, the root is in doubt.
fn append<K: Keeper>(keeper: &mut K, book: Book, root: u32, line: &[u8], totals: Totals) -> Book
    requires root { root < 4 }
    requires settled { book.standing ≡ Settled }
    requires small { AreSmall totals }
    requires room { has_room book.length line.now ≡ true }
    requires long { IfSome (K.told keeper.old)
        (λ t. length (ledger_bytes t.files root) ≡ book.length) }
    ensures book { (text : List ℕ) → result ≡ lined_book line.now text totals book result.standing }
    ensures small { AreSmall result.totals }
    ensures files { (text : List ℕ) → Changes (OnFiles (λ files files'. OneLedger root files files'
        × LineLedger true line.now text (ledger_at files root) result.standing
        (ledger_at files' root))) (K.told keeper.old) (K.told keeper.new) }
    ensures faults { K.faults keeper.new ≡ K.faults keeper.old }
    ensures due { AddsNoDue K.told (both K.faults K.append_faults) keeper.old keeper.new }
    ensures appends { HasCauses (fallen_by true true result.standing) (K.append_faults keeper.old)
        (K.append_faults keeper.new) }
{
    match keeper.append_ledger(root, line) {
        Ok(()) => Book {
            totals,
            standing: Standing::Settled,
            length: book.length + line.len(),
        },
        Err(_) => Book {
            totals,
            standing: Standing::Doubt,
            ..book
        },
    }
}

/// Writes a folded text in place of the ledger of a settled root, because the ledger has no room
/// for a line. Gives the root's new book. If the write failed, the root is in doubt.
fn fold<K: Keeper>(keeper: &mut K, limits: &Limits, book: Book, root: u32, totals: Totals) -> Book
    requires root { root < 4 }
    requires settled { book.standing ≡ Settled }
    requires small { AreSmall totals }
    ensures small { AreSmall result.totals }
    ensures short { length (folded limits.now totals) < 5120 }
    ensures book { (line : List ℕ) → has_room book.length line ≡ false
        → result ≡ lined_book line (folded limits.now totals) totals book result.standing }
    ensures files { (line : List ℕ) → Changes (OnFiles (λ files files'. OneLedger root files files'
        × LineLedger false line (folded limits.now totals) (ledger_at files root) result.standing
        (ledger_at files' root))) (K.told keeper.old) (K.told keeper.new) }
    ensures faults { HasCauses (fallen_by false false result.standing) (K.faults keeper.old)
        (K.faults keeper.new) }
    ensures due { AddsNoDue K.told (both K.faults K.append_faults) keeper.old keeper.new }
    ensures appends { K.append_faults keeper.new ≡ K.append_faults keeper.old }
{
    match install_folded(keeper, root, limits, totals) {
        Ok(folded) => folded,
        Err(_) => Book {
            totals,
            standing: Standing::Doubt,
            ..book
        },
    }
}

/// Appends the line of a change to the ledger of a settled root, or writes the folded text in place
/// of the ledger if it has no room for the line. Gives the root's new book. If the write failed,
/// the root is in doubt.
fn post<K: Keeper>(
    keeper: &mut K,
    limits: &Limits,
    book: Book,
    root: u32,
    change: Change,
    octets: u64,
) -> Book
    requires root { root < 4 }
    requires settled { book.standing ≡ Settled }
    requires small { AreSmall book.totals }
    requires octets { octets < 1000000000000000000 }
    requires long { IfSome (K.told keeper.old)
        (λ t. length (ledger_bytes t.files root) ≡ book.length) }
    ensures book { result ≡ changed_book change octets limits.now book result.standing }
    ensures short { FoldsShort change octets limits.now book }
    ensures small { AreSmall result.totals }
    ensures files { Changes (OnFiles (λ files files'. OneLedger root files files'
        × ChangedLedger change octets limits.now book (ledger_at files root) result.standing
        (ledger_at files' root))) (K.told keeper.old) (K.told keeper.new) }
    ensures faults { HasCauses (fallen_by false (has_room book.length (line_by change octets))
        result.standing) (K.faults keeper.old) (K.faults keeper.new) }
    ensures due { AddsNoDue K.told (both K.faults K.append_faults) keeper.old keeper.new }
    ensures appends { HasCauses (fallen_by true (has_room book.length (line_by change octets))
        result.standing) (K.append_faults keeper.old) (K.append_faults keeper.new) }
{
    let mut line = Text::new();
    print_change(change, octets, &mut line);
    let totals = totals_by(change, octets, book.totals);
    if line.as_slice().len() < LEDGER_ROOM.saturating_sub(book.length) {
        append(keeper, book, root, line.as_slice(), totals)
    } else {
        fold(keeper, limits, book, root, totals)
    }
}

/// Writes the line of one root, if the root is settled and its usage changes.
fn post_at<K: Keeper>(
    keeper: &mut K,
    roots: &Roots,
    limits: &[Limits],
    books: &mut Vec<Book>,
    root: u32,
    from: Option<&[u8]>,
    to: Option<&[u8]>,
    octets: u64,
)
    requires root { root < length roots.now }
    requires four { length roots.now ≤ 4 }
    requires limits { length limits.now ≡ length roots.now }
    requires books { length books.old.items ≡ length roots.now }
    requires small { AreSmallBooks books.old.items }
    requires octets { octets < 1000000000000000000 }
    requires long { (book_at books.old.items root).standing ≡ Settled → IfSome (K.told keeper.old)
        (λ t. length (ledger_bytes t.files root) ≡ (book_at books.old.items root).length) }
    ensures count { length books.new.items ≡ length books.old.items }
    ensures small { AreSmallBooks books.new.items }
    ensures book { BookLined (change_at roots.now (option_map (λ m. m.now) from.entry)
        (option_map (λ m. m.now) to.entry) root) octets (limits_at limits.now root)
        (book_at books.old.items root) (book_at books.new.items root) }
    ensures others { (other : ℕ) → other ≢ root
        → book_at books.new.items other ≡ book_at books.old.items other }
    ensures files { Changes (OnFiles (λ files files'. OneLedger root files files'
        × LedgerLined (change_at roots.now (option_map (λ m. m.now) from.entry) (option_map (λ m.
        m.now) to.entry) root) octets (limits_at limits.now root) (book_at books.old.items root)
        (book_at books.new.items root).standing (ledger_at files root) (ledger_at files' root)))
        (K.told keeper.old) (K.told keeper.new) }
    ensures faults { HasCauses (fallen_at false (change_at roots.now
        (option_map (λ m. m.now) from.entry) (option_map (λ m. m.now) to.entry) root) octets
        (book_at books.old.items root).standing (book_at books.old.items root).length
        (book_at books.new.items root).standing) (K.faults keeper.old) (K.faults keeper.new) }
    ensures due { AddsNoDue K.told (both K.faults K.append_faults) keeper.old keeper.new }
    ensures appends { HasCauses (fallen_at true (change_at roots.now
        (option_map (λ m. m.now) from.entry) (option_map (λ m. m.now) to.entry) root) octets
        (book_at books.old.items root).standing (book_at books.old.items root).length (book_at
        books.new.items root).standing) (K.append_faults keeper.old) (K.append_faults keeper.new) }
{
    let book = books[root as usize];
    let Some(change) = change_at(roots, root, from, to) else {
        return;
    };
    if let Standing::Settled = book.standing {
        let limits = &limits[root as usize];
        books[root as usize] = post(keeper, limits, book, root, change, octets);
    }
}

/// Writes the lines of a message of `octets` octets that goes from one mailbox to another. The
/// ledger of each settled root whose usage changes gets one line, or is replaced by the folded text
/// if it has no room for the line. If the line or the folded text can't be written, the root is in
/// doubt then.
pub(crate) fn write_lines<K: Keeper>(
    keeper: &mut K,
    roots: &Roots,
    limits: &[Limits],
    books: &mut Vec<Book>,
    from: Option<&[u8]>,
    to: Option<&[u8]>,
    octets: u64,
)
    requires four { length roots.now ≤ 4 }
    requires limits { length limits.now ≡ length roots.now }
    requires books { length books.old.items ≡ length roots.now }
    requires small { AreSmallBooks books.old.items }
    requires octets { octets < 1000000000000000000 }
    requires long { AreLong books.old.items (K.told keeper.old) }
    ensures books { BooksLined (length roots.now)
        (change_at roots.now (option_map (λ m. m.now) from.entry)
        (option_map (λ m. m.now) to.entry)) octets limits.now books.old.items books.new.items }
    ensures small { AreSmallBooks books.new.items }
    ensures files { Changes (OnFiles (LedgersLined (length roots.now) (change_at roots.now
        (option_map (λ m. m.now) from.entry) (option_map (λ m. m.now) to.entry)) octets limits.now
        books.old.items books.new.items)) (K.told keeper.old) (K.told keeper.new) }
    ensures faults { HasCauses (fell_below (length roots.now) false (change_at roots.now
        (option_map (λ m. m.now) from.entry) (option_map (λ m. m.now) to.entry)) octets
        books.old.items books.new.items) (K.faults keeper.old) (K.faults keeper.new) }
    ensures due { AddsNoDue K.told (both K.faults K.append_faults) keeper.old keeper.new }
    ensures appends { HasCauses (fell_below (length roots.now) true (change_at roots.now
        (option_map (λ m. m.now) from.entry) (option_map (λ m. m.now) to.entry)) octets
        books.old.items books.new.items) (K.append_faults keeper.old) (K.append_faults keeper.new) }
{
    for root in 0..roots.count() {
        post_at(keeper, roots, limits, books, root, from, to, octets);
    }
}
