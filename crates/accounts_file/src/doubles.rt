ghost use Rattle.std.specs.Prelude.{◌≡◌, ◌<◌, ◌++◌, ◌⊎◌, ◌||◌, ℕ, List, bytes_eq, length, map, None, Some, All, IfOk, IfErr, OnOk};
ghost use Rattle.std.specs.Option.{option_map};
ghost use Rattle.std.specs.Str.{str_to_ascii_lowercase};
ghost use Rattle.quota_roots.specs.RootLists.{first_double};
ghost use Rattle.quota_roots.specs.Setups.{IsSound};
ghost use Rattle.accounts_file.specs.Doubles.{all_recipients, doubles_refusal, has_same, is_inserted, own_double, repeated, repeated_in_any_case, repeated_root};
ghost use Rattle.accounts_file.specs.Hosts.{AreDifferent};
ghost use Rattle.accounts_file.specs.Refusals.{double, first_in, Checks, IsRead, OnlyNoMemory};

use crate::draft::Draft;
use crate::entry::AccountEntry;
use crate::error::AccountsError;
use crate::roots::roots_of;
use crate::values::name_of;
use quota_roots::{LimitsList, RootSpec, Setup, first_double};
use quota_units::Name;
use std::alloc::{AllocError, Global};
use std::collections::BTreeMap;

fn has(names: &[Name], name: &Name) -> bool
    ensures { result ≡ has_same bytes_eq names.now name.now }
{
    let bytes = name.as_slice();
    names.iter().any(|other| other.as_slice() == bytes)
}

/// The first name that is the same as an earlier one.
#[tactic(auto, using(crate::proofs::DoubleLemmas::repeat_here, crate::proofs::DoubleLemmas::repeat_on, crate::proofs::DoubleLemmas::repeat_nowhere))]
fn repeated(names: &[Name]) -> Option<&Name>
    ensures { option_map (λ name. name.now) result ≡ repeated names.now }
{
    for (at, name) in names.iter().enumerate() {
        if has(&names[..at], name) {
            return Some(name);
        }
    }
    None
}

/// The names in lower case, by which they are compared in any ASCII case.
fn in_lower_case(alloc: Global, names: &[Name]) -> Result<Vec<Vec<u8>>, AllocError>
    ensures texts { IfOk result
        (λ lower. map (λ name. name.items) lower.items ≡ map str_to_ascii_lowercase names.now) }
    ensures count { IfOk result (λ lower. length lower.items ≡ length names.now) }
{
    let mut lower = Vec::new(alloc);
    for name in names {
        lower.push(name.as_slice().to_ascii_lowercase(alloc)?)?;
    }
    Ok(lower)
}

/// Inserts a text, and returns whether it was there before.
#[tactic(auto, using(crate::proofs::DoubleLemmas::noted_one))]
fn insert_text<'a>(notes: &mut BTreeMap<&'a [u8], ()>, text: &'a [u8]) -> Result<bool, AllocError>
    ensures again { IfOk result (λ again. again ≡ is_inserted notes.old text.now) }
    ensures notes { OnOk result ((other : List ℕ)
        → is_inserted notes.new other ≡ (bytes_eq text.now other || is_inserted notes.old other)) }
{
    Ok(notes.insert(text, ())?.is_some())
}

/// The first name that is the same as an earlier one in any ASCII case.
#[tactic(auto, using(crate::proofs::DoubleLemmas::repeat_here, crate::proofs::DoubleLemmas::repeat_on, crate::proofs::DoubleLemmas::repeat_nowhere, crate::proofs::DoubleLemmas::noted_more, crate::proofs::DoubleLemmas::noted_before, crate::proofs::DoubleLemmas::lower_at))]
fn repeated_in_any_case<'a>(
    alloc: Global,
    names: &'a [Name],
) -> Result<Option<&'a Name>, AllocError>
    ensures { IfOk result
        (λ found. option_map (λ name. name.now) found ≡ repeated_in_any_case names.now) }
{
    let lower = in_lower_case(alloc, names)?;
    let mut notes = BTreeMap::new(alloc);
    for (at, name) in names.iter().enumerate() {
        if insert_text(&mut notes, lower[at].as_slice())? {
            return Ok(Some(name));
        }
    }
    Ok(None)
}

/// The refusal of a name that occurs twice.
fn double_of(alloc: Global, name: &Name) -> AccountsError
    ensures { (result ≡ AccountsError.NoMemory) ⊎ (result ≡ AccountsError.Double name.now) }
{
    match name_of(alloc, name.as_slice()) {
        Ok(name) => AccountsError::Double { name },
        Err(_) => AccountsError::NoMemory,
    }
}

/// Refuses names if one occurs twice.
fn check_names(alloc: Global, names: &[Name]) -> Result<(), AccountsError>
    ensures { Checks (double (repeated names.now)) result }
{
    match repeated(names) {
        None => Ok(()),
        Some(name) => Err(double_of(alloc, name)),
    }
}

/// Refuses addresses if one occurs twice, in any ASCII case.
fn check_recipients(alloc: Global, addresses: &[Name]) -> Result<(), AccountsError>
    ensures { Checks (double (repeated_in_any_case addresses.now)) result }
{
    match repeated_in_any_case(alloc, addresses)? {
        None => Ok(()),
        Some(address) => Err(double_of(alloc, address)),
    }
}

/// Refuses roots if one has the name of an earlier root.
fn check_roots(alloc: Global, specs: &[RootSpec]) -> Result<(), AccountsError>
    ensures refused { Checks (double (repeated_root specs.now)) result }
    ensures different { OnOk result (first_double specs.now ≡ None) }
{
    match first_double(specs) {
        None => Ok(()),
        Some(at) => Err(double_of(alloc, &specs[at].name)),
    }
}

/// The account, if no mailbox occurs twice in it and no two of its roots share a name.
fn entry_of(alloc: Global, draft: Draft) -> Result<AccountEntry, AccountsError>
    ensures reads { IsRead (own_double draft) draft result }
    ensures sound { IfOk result (λ entry. IsSound entry.setup) }
{
    check_names(alloc, draft.mailboxes.as_slice())?;
    check_roots(alloc, &draft.specs)?;
    let roots = roots_of(draft.specs);
    Ok(AccountEntry {
        name: draft.name,
        password: draft.password,
        token: draft.token,
        admin: draft.admin,
        recipients: draft.recipients,
        setup: Setup {
            roots,
            limits: LimitsList::new(draft.limits),
            mailboxes: draft.mailboxes,
            journal: draft.journal,
        },
    })
}

/// The accounts, if no mailbox or root name occurs twice in one account.
fn entries_of(alloc: Global, drafts: Vec<Draft>) -> Result<Vec<AccountEntry>, AccountsError>
    ensures ok { IfOk result (λ entries. (first_in (map own_double drafts.items) ≡ None)
        × (entries.items ≡ drafts.items)) }
    ensures sound { IfOk result (λ entries. All (λ entry. IsSound entry.setup) entries.items) }
    ensures err { IfErr result (λ e. (e ≡ AccountsError.NoMemory)
        ⊎ (first_in (map own_double drafts.items) ≡ Some e)) }
{
    let mut entries = Vec::new(alloc);
    for draft in drafts {
        entries.push(entry_of(alloc, draft)?)?;
    }
    Ok(entries)
}

/// Adds copies of the names at the end of `to`.
fn copy_names(alloc: Global, names: &[Name], to: &mut Vec<Name>) -> Result<(), AccountsError>
    ensures ok { OnOk result (to.new.items ≡ to.old.items ++ names.now) }
    ensures err { OnlyNoMemory result }
{
    for name in names {
        to.push(name_of(alloc, name.as_slice())?)?;
    }
    Ok(())
}

fn all_names(alloc: Global, drafts: &[Draft]) -> Result<Vec<Name>, AccountsError>
    ensures ok { IfOk result (λ names. names.items ≡ map (λ account. account.name) drafts.now) }
    ensures err { OnlyNoMemory result }
{
    let mut names = Vec::new(alloc);
    for draft in drafts {
        names.push(name_of(alloc, draft.name.as_slice())?)?;
    }
    Ok(names)
}

fn all_tokens(alloc: Global, drafts: &[Draft]) -> Result<Vec<Name>, AccountsError>
    ensures ok { IfOk result (λ names. names.items ≡ map (λ account. account.token) drafts.now) }
    ensures err { OnlyNoMemory result }
{
    let mut names = Vec::new(alloc);
    for draft in drafts {
        names.push(name_of(alloc, draft.token.as_slice())?)?;
    }
    Ok(names)
}

#[tactic(auto, using(crate::proofs::DoubleLemmas::recipients_more))]
fn all_recipients(alloc: Global, drafts: &[Draft]) -> Result<Vec<Name>, AccountsError>
    ensures ok { IfOk result (λ names. names.items ≡ all_recipients drafts.now) }
    ensures err { OnlyNoMemory result }
{
    let mut names = Vec::new(alloc);
    for draft in drafts {
        copy_names(alloc, draft.recipients.as_slice(), &mut names)?;
    }
    Ok(names)
}

/// The accounts, if no account name, token or recipient occurs twice, and no mailbox or root name
/// occurs twice in one account.
#[tactic(auto, using(crate::proofs::DoubleLemmas::no_double))]
pub(crate) fn different_accounts(
    alloc: Global,
    drafts: Vec<Draft>,
) -> Result<Vec<AccountEntry>, AccountsError>
    ensures ok { IfOk result (λ entries. (doubles_refusal drafts.items ≡ None)
        × (entries.items ≡ drafts.items)) }
    ensures sound { IfOk result (λ entries. All (λ entry. IsSound entry.setup) entries.items) }
    ensures different { IfOk result (λ entries. AreDifferent entries.items) }
    ensures err { IfErr result (λ e. (e ≡ AccountsError.NoMemory)
        ⊎ (doubles_refusal drafts.items ≡ Some e)) }
{
    check_names(alloc, &all_names(alloc, &drafts)?)?;
    check_names(alloc, &all_tokens(alloc, &drafts)?)?;
    check_recipients(alloc, &all_recipients(alloc, &drafts)?)?;
    entries_of(alloc, drafts)
}
