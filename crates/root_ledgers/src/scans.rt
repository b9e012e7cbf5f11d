// Fresh scans of roots. Each mailbox is listed at most once for all of them.
ghost use Rattle.std.specs.Prelude.{◌≡◌, ◌<◌, ◌^◌, ℕ, true, false, is_some, length, IfOk, IfSome, IsErrOf};
ghost use Rattle.quota_units.specs.Causes.{HasCause};
ghost use Rattle.quota_units.specs.Sums.{AreSmall, cut_totals};
ghost use Rattle.quota_roots.specs.Governing.{governs_at};
ghost use Rattle.quota_roots.specs.RootSets.{has_root};
ghost use Rattle.keeper.specs.Calls.{Changes, SpendsDue, both};
ghost use Rattle.root_ledgers.specs.Scans.{size_of_file, sizes_of};
ghost use Rattle.root_ledgers.specs.Scanning.{AreScans, IsScan, ScansEach, SomeScanned, with_files, empty_scan, is_wanted, scan_at};
ghost use Rattle.root_ledgers.specs.Settling.{StaysInDoubt, book_at};

use crate::book::{Book, Standing};
use keeper::{FileRow, KeepError, Keeper};
use message_names::{parse_name, size_of};
use quota_roots::{RootSet, Roots};
use quota_units::{Name, Totals, cut_sum};
use std::alloc::{AllocError, Global};

/// The octets of the message in a file: the size that the file's name states, or else the file's
/// length. A size is cut at 2^40 - 1.
pub fn size_of_file(file: &FileRow) -> u64
    ensures value { result ≡ size_of_file file.now }
    ensures cut { result < 1000000000000000000 }
    ensures small { result < 2 ^ 62 }
{
    size_of(&parse_name(file.name.as_slice()), file.length)
}

/// What the files add up to, in octets and messages. Each sum is cut at 2^62 - 1.
pub fn totals_of_files(files: &[FileRow]) -> Totals
    ensures value { result ≡ cut_totals (sizes_of files.now) (length files.now) }
    ensures small { AreSmall result }
{
    let mut totals = Totals {
        octets: 0,
        count: 0,
    };
    for file in files {
        let one = Totals {
            octets: size_of_file(file),
            count: 1,
        };
        totals = cut_sum(totals, one);
    }
    totals
}

/// A scan that has counted nothing yet, if the root is in doubt and may be settled, or else none.
fn empty_scan(may: bool, standing: Standing) -> Option<Totals>
    ensures value { result ≡ empty_scan (is_wanted may standing) }
    ensures scan { IsScan (is_wanted may standing) result }
{
    match standing {
        Standing::Doubt if may => Some(Totals {
            octets: 0,
            count: 0,
        }),
        _ => None,
    }
}

/// A scan that has counted nothing yet for each root of the set that is in doubt, and none for each
/// other root.
fn empty_scans(
    alloc: Global,
    roots: &Roots,
    books: &[Book],
    set: RootSet,
) -> Result<Vec<Option<Totals>>, AllocError>
    requires { length books.now ≡ length roots.now }
    ensures scans { IfOk result (λ scans. AreScans (length roots.now)
        (λ root. is_wanted (has_root set root) (book_at books.now root).standing) scans.items) }
    ensures empty { IfOk result (λ scans. (root : ℕ) → root < length roots.now → scan_at scans.items
        root ≡ empty_scan (is_wanted (has_root set root) (book_at books.now root).standing)) }
{
    let mut scans = Vec::new(alloc);
    for root in 0..roots.count() {
        let may = set.has(root);
        scans.push(empty_scan(may, books[root as usize].standing))?;
    }
    Ok(scans)
}

/// Whether a root that is scanned governs the mailbox.
fn is_counted(scans: &[Option<Totals>], roots: &Roots, mailbox: &[u8]) -> bool
    requires { length scans.now ≡ length roots.now }
    ensures some { result ≡ true → SomeScanned scans.now }
    ensures none { result ≡ false → (root : ℕ) → is_some (scan_at scans.now root) ≡ true
        → governs_at roots.now root mailbox.now ≡ false }
{
    for root in 0..roots.count() {
        if scans[root as usize].is_some() && roots.governs(root, mailbox) {
            return true;
        }
    }
    false
}

/// What was counted of a root, with the files of one more mailbox if the root governs it.
fn with_files(found: Option<Totals>, governs: bool, files: Totals) -> Option<Totals>
    requires found { IfSome found AreSmall }
    requires files { AreSmall files }
    ensures value { result ≡ with_files governs files found }
    ensures small { IfSome result AreSmall }
    ensures same { is_some result ≡ is_some found }
{
    match found {
        Some(totals) if governs => Some(cut_sum(totals, files)),
        _ => found,
    }
}

/// Counts the files of a mailbox for each root that is scanned and governs it.
fn count_files(scans: &mut Vec<Option<Totals>>, roots: &Roots, mailbox: &[u8], files: Totals)
    requires count { length scans.old.items ≡ length roots.now }
    requires scans { (root : ℕ) → IfSome (scan_at scans.old.items root) AreSmall }
    requires files { AreSmall files }
    ensures count { length scans.new.items ≡ length scans.old.items }
    ensures counted { (root : ℕ) → root < length roots.now → scan_at scans.new.items root
        ≡ with_files (governs_at roots.now root mailbox.now) files (scan_at scans.old.items root) }
    ensures small { (root : ℕ) → IfSome (scan_at scans.new.items root) AreSmall }
    ensures same { (root : ℕ)
        → is_some (scan_at scans.new.items root) ≡ is_some (scan_at scans.old.items root) }
{
    for root in 0..roots.count() {
        let governs = roots.governs(root, mailbox);
        scans[root as usize] = with_files(scans[root as usize], governs, files);
    }
}

/// A fresh scan of each root of the set that is in doubt. Each mailbox that such a root governs is
/// listed once.
///
/// # Errors
///
/// `Failed` if the store failed, and `NoMemory` if memory runs out.
pub(crate) fn scan_each<K: Keeper>(
    alloc: Global,
    keeper: &mut K,
    roots: &Roots,
    mailboxes: &[Name],
    books: &[Book],
    set: RootSet,
) -> Result<Vec<Option<Totals>>, KeepError>
    requires { length books.now ≡ length roots.now }
    ensures files { Changes (ScansEach roots.now mailboxes.now result) (K.told keeper.old)
        (K.told keeper.new) }
    ensures scans { IfOk result (λ scans. AreScans (length roots.now)
        (λ root. is_wanted (has_root set root) (book_at books.now root).standing) scans.items) }
    ensures wanted { IsErrOf result KeepError.Failed → StaysInDoubt (has_root set) books.now }
    ensures cause { HasCause (IsErrOf result KeepError.Failed) (K.faults keeper.old)
        (K.faults keeper.new) }
    ensures due { SpendsDue K.told (both K.faults K.append_faults) (IsErrOf result KeepError.Failed)
        keeper.old keeper.new }
    ensures appends { K.append_faults keeper.new ≡ K.append_faults keeper.old }
{
    let mut scans = empty_scans(alloc, roots, books, set)?;
    for mailbox in mailboxes {
        if is_counted(&scans, roots, mailbox.as_slice()) {
            let files = keeper.list(alloc, mailbox.as_slice())?;
            let totals = totals_of_files(&files);
            count_files(&mut scans, roots, mailbox.as_slice(), totals);
        }
    }
    Ok(scans)
}
