ghost use Rattle.std.specs.Prelude.{◌≡◌, ◌⊎◌, map, true, None, Some, IfOk, IfErr};
ghost use Rattle.quota_roots.specs.RootLists.{first_bad_name, is_prefix_at, is_root_at, AreRoots};
ghost use Rattle.toml.specs.Data.{as_table};
ghost use Rattle.toml.specs.View.{view, table_view};
ghost use Rattle.accounts_file.specs.Refusals.{first_in, IsRead};
ghost use Rattle.accounts_file.specs.RootTables.{all_limits, limits_of, limits_refusal, members_in, prefix_refusal, root_refusal, root_refusals, root_tables, root_value_refusal, roots_refusal, spec_of, specs_of, AreRootsRead};
ghost use Rattle.accounts_file.specs.Values.{text_at};

use crate::error::AccountsError;
use crate::key::Key;
use crate::lists::tables_of;
use crate::values::{number_at, text_of, text_or_empty, value_at};
use quota_roots::{RootSpec, Roots};
use quota_units::{Limits, Name};
use std::alloc::Global;
use toml::{Table, Value};

/// The quota roots of an account, as its tables give them, and the limits of each.
#[derive(Debug, Drop)]
pub(crate) struct RootsRead {
    pub(crate) specs: Vec<RootSpec>,
    pub(crate) limits: Vec<Limits>,
}

/// The prefix of the root of this number.
#[tactic(auto, using(crate::proofs::RuleLemmas::read_prefix, crate::proofs::RuleLemmas::some_again))]
fn prefix_at(alloc: Global, members: &Table, root: usize) -> Result<Option<Name>, AccountsError>
    ensures reads { IsRead (prefix_refusal root (table_view members.now))
        (text_at Key.Prefix (table_view members.now)) result }
    ensures right { IfOk result (λ prefix. is_prefix_at root prefix ≡ true) }
{
    match value_at(members, Key::Prefix) {
        None if root == 0 => Ok(None),
        Some(value) if root != 0 => Ok(Some(text_of(alloc, Key::Prefix, value)?)),
        _ => Err(AccountsError::BadValue { key: Key::Prefix }),
    }
}

/// The limits of a root: storage in units of 1024 octets, and messages.
fn limits_at(members: &Table) -> Result<Limits, AccountsError>
    ensures { IsRead (limits_refusal (table_view members.now))
        (limits_of (table_view members.now)) result }
{
    let storage = number_at(members, Key::Storage)?;
    let messages = number_at(members, Key::Messages)?;
    let octets = storage.map(|units| 1024 * units);
    match Limits::new(octets, messages) {
        Some(limits) => Ok(limits),
        None => unreachable!(),
    }
}

/// The root of this number, from its table.
#[tactic(auto, using(crate::proofs::RuleLemmas::root_named))]
fn read_root(
    alloc: Global,
    root: usize,
    members: &Table,
) -> Result<(RootSpec, Limits), AccountsError>
    ensures reads { IsRead (root_refusal root (table_view members.now))
        (spec_of (table_view members.now), limits_of (table_view members.now)) result }
    ensures right { IfOk result (λ read. is_root_at root read.0 ≡ true) }
{
    let name = text_or_empty(alloc, members, Key::RootName)?;
    let prefix = prefix_at(alloc, members, root)?;
    let limits = limits_at(members)?;
    Ok((RootSpec { name, prefix }, limits))
}

/// The root of this number, from a value of the list.
fn read_value(
    alloc: Global,
    root: usize,
    value: &Value,
) -> Result<(RootSpec, Limits), AccountsError>
    ensures reads { IsRead (root_value_refusal root (as_table (view value.now)))
        (spec_of (members_in (view value.now)), limits_of (members_in (view value.now))) result }
    ensures right { IfOk result (λ read. is_root_at root read.0 ≡ true) }
{
    match value.as_table() {
        None => Err(AccountsError::BadValue { key: Key::Root }),
        Some(members) => read_root(alloc, root, members),
    }
}

/// The roots of a list of values.
#[tactic(auto, using(crate::proofs::RootLemmas::right_more, crate::proofs::RootLemmas::right_roots, crate::proofs::ListLemmas::roots_more, crate::proofs::ListLemmas::roots_end))]
fn read_values(alloc: Global, values: &[Value]) -> Result<RootsRead, AccountsError>
    ensures ok { IfOk result (λ read. (first_in (root_refusals 0 (map view values.now)) ≡ None)
        × (read.specs.items ≡ specs_of (map view values.now))
        × (read.limits.items ≡ all_limits (map view values.now))) }
    ensures right { IfOk result (λ read. first_bad_name read.specs.items ≡ None) }
    ensures err { IfErr result (λ e. (e ≡ AccountsError.NoMemory)
        ⊎ (first_in (root_refusals 0 (map view values.now)) ≡ Some e)) }
{
    let mut specs = Vec::new(alloc);
    let mut limits = Vec::new(alloc);
    for (root, value) in values.iter().enumerate() {
        let (spec, limit) = read_value(alloc, root, value)?;
        specs.push(spec)?;
        limits.push(limit)?;
    }
    Ok(RootsRead { specs, limits })
}

/// The quota roots of an account; one root with the empty name and no limits if the account gives
/// none.
pub(crate) fn read_roots(alloc: Global, account: &Table) -> Result<RootsRead, AccountsError>
    ensures ok { IfOk result (λ read. (roots_refusal (table_view account.now) ≡ None)
        × (read.specs.items ≡ specs_of (root_tables (table_view account.now)))
        × (read.limits.items ≡ all_limits (root_tables (table_view account.now)))) }
    ensures right { IfOk result (λ read. AreRootsRead read.specs.items read.limits.items) }
    ensures err { IfErr result (λ e. (e ≡ AccountsError.NoMemory)
        ⊎ (roots_refusal (table_view account.now) ≡ Some e)) }
{
    match value_at(account, Key::Root) {
        None => {
            let none = Value::Table(Table::new(alloc));
            read_values(alloc, &[none])
        }
        Some(value) => read_values(alloc, tables_of(Key::Root, 4, value)?),
    }
}

/// The roots of a list that `Roots::new` does not refuse.
pub(crate) fn roots_of(specs: Vec<RootSpec>) -> Roots
    requires { AreRoots specs.items }
    ensures { result ≡ specs.items }
{
    match Roots::new(specs) {
        Ok(roots) => roots,
        Err(_) => unreachable!(),
    }
}
