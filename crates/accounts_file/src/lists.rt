ghost use Rattle.std.specs.Prelude.{◌≡◌, ◌≤◌, ◌⊎◌, length, map, true, false, None, Some, IfOk, IfErr, MatchResult};
ghost use Rattle.std.specs.Option.{option_map};
ghost use Rattle.std.specs.List.{list_all};
ghost use Rattle.toml.specs.View.{view, table_view};
ghost use Rattle.accounts_file.specs.Refusals.{judged};
ghost use Rattle.accounts_file.specs.RootTables.{are_tables, is_table, some_tables, tables_refusal};
ghost use Rattle.accounts_file.specs.Values.{is_text, items_of, text_or_empty, texts_at, texts_refusal};

use crate::error::AccountsError;
use crate::key::Key;
use crate::values::{text_of, value_at};
use quota_units::Name;
use std::alloc::Global;
use toml::{Table, Value};

/// The items of an array.
#[tactic(auto, using(crate::proofs::ListLemmas::items_read))]
pub(crate) fn items_of(value: &Value) -> Option<&[Value]>
    ensures { option_map (λ items. map view items.now) result ≡ items_of (view value.now) }
{
    match value.as_array() {
        None => None,
        Some(items) => Some(items.as_slice()),
    }
}

/// The texts of a list, each as it is kept.
#[tactic(auto, using(crate::proofs::ListLemmas::texts_more, crate::proofs::ListLemmas::texts_end))]
fn names_of(alloc: Global, key: Key, items: &[Value]) -> Result<Vec<Name>, AccountsError>
    ensures ok { IfOk result (λ names. (list_all (is_text key) (map view items.now) ≡ true)
        × (names.items ≡ map (text_or_empty key) (map view items.now))) }
    ensures err { IfErr result (λ e. (e ≡ AccountsError.NoMemory)
        ⊎ (judged key (list_all (is_text key) (map view items.now)) ≡ Some e)) }
{
    let mut names = Vec::new(alloc);
    for item in items {
        names.push(text_of(alloc, key, item)?)?;
    }
    Ok(names)
}

/// The texts of the list at the key, each as it is kept; none if the key is not there.
pub(crate) fn names_at(alloc: Global, table: &Table, key: Key) -> Result<Vec<Name>, AccountsError>
    ensures { MatchResult result (λ names. (texts_refusal key (table_view table.now) ≡ None)
        × (names.items ≡ texts_at key (table_view table.now))) (λ e. (e ≡ AccountsError.NoMemory)
        ⊎ (texts_refusal key (table_view table.now) ≡ Some e)) }
{
    match value_at(table, key) {
        None => Ok(Vec::new(alloc)),
        Some(value) => match items_of(value) {
            None => Err(AccountsError::BadValue { key }),
            Some(items) => names_of(alloc, key, items),
        },
    }
}

/// The values of a list of at least one and at most `most` tables.
pub(crate) fn tables_of(key: Key, most: usize, value: &Value) -> Result<&[Value], AccountsError>
    ensures ok { IfOk result (λ values. (are_tables (view value.now) ≡ true)
        × (length values.now ≤ most) × (items_of (view value.now) ≡ Some (map view values.now))) }
    ensures some { IfOk result (λ values. 1 ≤ length values.now) }
    ensures err { IfErr result (λ e. tables_refusal key most (view value.now) ≡ Some e) }
{
    match items_of(value) {
        Some(values) if are_tables(values) => {
            if values.len() <= most {
                Ok(values)
            } else {
                Err(AccountsError::TooMany { key })
            }
        }
        _ => Err(AccountsError::BadValue { key }),
    }
}

/// Whether these are one table or more.
#[tactic(auto, using(crate::proofs::ListLemmas::tables_mapped))]
fn are_tables(values: &[Value]) -> bool
    ensures { result ≡ some_tables (Some (map view values.now)) }
{
    1 <= values.len() && all_tables(values)
}

fn all_tables(values: &[Value]) -> bool
    ensures { result ≡ list_all (λ value. is_table (view value)) values.now }
{
    values.iter().all(|value| value.is_table())
}
