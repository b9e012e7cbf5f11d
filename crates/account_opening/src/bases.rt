// The bases of a mailbox's files: a base that occurs twice, and a base that a delivery could have.
ghost use Rattle.std.specs.Prelude.{◌≡◌, ◌++◌, ℕ, List, Some, is_some, unwrap_or, nat_lt, bytes_eq, codes, decimal, if◌then◌else◌, IfOk, MatchOption};
ghost use Rattle.std.specs.Option.{option_map};
ghost use Rattle.account_opening.specs.Bases.{AreApart, AreCounted, base_in, double_in, noted, shown, used_in};

use keeper::FileRow;
use message_names::base_of;
use quota_units::Name;
use std::alloc::{AllocError, Global};
use std::collections::BTreeMap;

fn base_in(file: &FileRow) -> &[u8]
    ensures { result.now ≡ base_in file.now }
{
    base_of(file.name.as_slice())
}

/// Notes one more file of this base, up to the second. Gives whether a file of this base was noted
/// before.
fn count_base<'a>(notes: &mut BTreeMap<&'a [u8], u8>, base: &'a [u8]) -> Result<bool, AllocError>
    ensures again { IfOk result (λ again. again ≡ is_some (noted notes.old base.now)) }
    ensures notes { IfOk result (λ again. (other : List ℕ) → noted notes.new other ≡ (if bytes_eq
        base.now other then Some (if again then 2 else 1) else noted notes.old other)) }
{
    if notes.insert(base, 1)?.is_none() {
        return Ok(false);
    }
    notes.insert(base, 2)?;
    Ok(true)
}

/// Notes for each base whether it occurs once, or twice or more, in the files. `None` if no base
/// occurs twice.
fn repeats_in<'a>(
    alloc: Global,
    files: &'a [FileRow],
) -> Result<Option<BTreeMap<&'a [u8], u8>>, AllocError>
    ensures { IfOk result (λ repeats.
        MatchOption repeats (AreApart files.now) (λ notes. AreCounted notes files.now)) }
{
    let mut notes = BTreeMap::new(alloc);
    let mut repeats = false;
    for file in files {
        let again = count_base(&mut notes, base_in(file))?;
        repeats = repeats || again;
    }
    if repeats { Ok(Some(notes)) } else { Ok(None) }
}

/// The first base that two or more of the files have.
pub(crate) fn double_in(alloc: Global, files: &[FileRow]) -> Result<Option<Name>, AllocError>
    ensures { IfOk result (λ found. found ≡ option_map shown (double_in files.now)) }
{
    let Some(notes) = repeats_in(alloc, files)? else {
        return Ok(None);
    };
    for file in files {
        let base = base_in(file);
        if is_repeated(&notes, base) {
            return Ok(Some(show(alloc, base)?));
        }
    }
    Ok(None)
}

/// Whether a base was noted twice.
fn is_repeated(notes: &BTreeMap<&[u8], u8>, base: &[u8]) -> bool
    ensures { result ≡ nat_lt 1 (unwrap_or (noted notes.now base.now) 0) }
{
    match notes.get(base) {
        None => false,
        Some(times) => *times > 1,
    }
}

/// The first base that begins with the prefix and ends with `.quotad`. The prefix is the epoch and
/// a dot.
pub(crate) fn used_in(
    alloc: Global,
    epoch: u64,
    prefix: &[u8],
    files: &[FileRow],
) -> Result<Option<Name>, AllocError>
    requires { prefix.now ≡ decimal epoch ++ codes "." }
    ensures { IfOk result (λ found. found ≡ option_map shown (used_in epoch files.now)) }
{
    for file in files {
        let base = base_in(file);
        if base.starts_with(prefix) && base.ends_with(b".quotad") {
            return Ok(Some(show(alloc, base)?));
        }
    }
    Ok(None)
}

/// A base as a refusal names it: at most the first 255 bytes of it.
#[tactic(auto, using(crate::proofs::OpeningLemmas::shown_is))]
fn show(alloc: Global, base: &[u8]) -> Result<Name, AllocError>
    ensures { IfOk result (λ name. name ≡ shown base.now) }
{
    let end = base.len().min(255);
    Name::of_short(alloc, &base[..end]).map_err(|_| AllocError)
}
