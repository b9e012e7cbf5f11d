// The rows and the totals of roots, by their limits and books.
ghost use Rattle.std.specs.Prelude.{◌≡◌, ◌<◌, ◌≤◌, [], take, length, vec_capacity, All};
ghost use Rattle.quota_units.specs.Limiting.{AreLimits};
ghost use Rattle.quota_units.specs.Sums.{AreSmall};
ghost use Rattle.account_ledger.specs.Rows.{kept_row, kept_rows, totals_of};
ghost use Rattle.root_ledgers.specs.Settling.{AreSmallBooks};

use account_core::{RootRow, RootRows};
use quota_roots::Roots;
use quota_units::{Limits, Totals};
use root_ledgers::Book;

fn row(limits: &[Limits], books: &[Book], root: u32) -> RootRow
    requires limits { root < length limits.now }
    requires books { root < length books.now }
    ensures { result ≡ kept_row limits.now books.now root }
{
    let book = &books[root as usize];
    RootRow {
        root,
        octets: book.totals.octets,
        count: book.totals.count,
        limits: limits[root as usize],
    }
}

/// The rows of the roots that govern the mailbox, in order. They are put into `rows`, which is
/// empty and has memory for four.
pub(crate) fn rows_of(
    rows: Vec<RootRow>,
    roots: &Roots,
    limits: &[Limits],
    books: &[Book],
    mailbox: &[u8],
) -> RootRows
    requires limits { length limits.now ≡ length roots.now }
    requires books { length books.now ≡ length roots.now }
    requires empty { rows.items ≡ [] }
    requires capacity { 4 ≤ vec_capacity rows }
    ensures { result ≡ kept_rows roots.now limits.now books.now mailbox.now }
{
    let mut rows = rows;
    for root in 0..roots.count() {
        if roots.governs(root, mailbox) {
            rows.push_reserved(row(limits, books, root));
        }
    }
    RootRows::of(rows)
}

/// The totals of each root, and zeros after the last root.
pub(crate) fn totals_of(books: &[Book]) -> [Totals; 4]
    requires few { length books.now ≤ 4 }
    requires small { AreSmallBooks books.now }
    ensures value { take (length books.now) result ≡ totals_of books.now }
    ensures small { All AreSmall result }
{
    let none = Totals {
        octets: 0,
        count: 0,
    };
    let mut totals = [none; 4];
    for (root, book) in books.iter().enumerate() {
        totals[root] = book.totals;
    }
    totals
}

/// Shows contracts that each limit that is set is in its range.
///
/// It exists for proofs alone.
pub(crate) fn show_limits(limits: &[Limits])
    ensures { All AreLimits limits.now }
{
    for own in limits {
        show_in_range(own);
    }
}

/// It exists for proofs alone.
fn show_in_range(limits: &Limits)
    ensures { AreLimits limits.now }
{
    let _octets = limits.octets();
    let _count = limits.count();
}
