ghost use Rattle.std.specs.Prelude.{◌≡◌, ◌≤◌, [], length, None, IfOk, IfSome, is_some, unwrap_or};
ghost use Rattle.std.specs.Option.{option_map};
ghost use Rattle.toml.specs.Data.{get_member};
ghost use Rattle.toml.specs.View.{view, table_view};
ghost use Rattle.accounts_file.specs.Keys.{value_at};
ghost use Rattle.accounts_file.specs.Refusals.{judged, IsRead};
ghost use Rattle.accounts_file.specs.Rules.{largest};
ghost use Rattle.accounts_file.specs.Values.{flag_at, flag_refusal, needed_text_refusal, number_at, number_of, number_refusal, text_at, text_of, text_or_empty, text_refusal};

use crate::error::AccountsError;
use crate::key::Key;
use crate::rules::{fits, largest, spelling};
use quota_units::Name;
use std::alloc::Global;
use toml::{Table, Value};

/// The member of a table at this word.
#[tactic(auto, using(toml::proofs::Views::table_get))]
fn member<'a>(table: &'a Table, word: &str) -> Option<&'a Value>
    ensures { option_map (λ v. view v.now) result ≡ get_member word.now (table_view table.now) }
{
    table.get(word)
}

/// The value at this key of a table.
pub(crate) fn value_at<'a>(table: &'a Table, key: Key) -> Option<&'a Value>
    ensures { option_map (λ v. view v.now) result ≡ value_at key (table_view table.now) }
{
    member(table, key.word())
}

/// The number that the value is, if the key may have it.
fn number_of(key: Key, value: &Value) -> Option<u64>
    ensures value { result ≡ number_of key (view value.now) }
    ensures range { IfSome result (λ n. (1 ≤ n) × (n ≤ largest key)) }
{
    match value.as_integer() {
        Some(n) if 1 <= n && n as u64 <= largest(key) => Some(n as u64),
        _ => None,
    }
}

/// The number at the key, which is at least 1.
pub(crate) fn number_at(table: &Table, key: Key) -> Result<Option<u64>, AccountsError>
    ensures reads { IsRead (number_refusal key (table_view table.now))
        (number_at key (table_view table.now)) result }
    ensures range { IfOk result (λ number. IfSome number (λ n. (1 ≤ n) × (n ≤ largest key))) }
{
    match value_at(table, key) {
        None => Ok(None),
        Some(value) => match number_of(key, value) {
            None => Err(AccountsError::BadValue { key }),
            Some(number) => Ok(Some(number)),
        },
    }
}

/// Whether the flag at the key is set.
pub(crate) fn flag_at(table: &Table, key: Key) -> Result<bool, AccountsError>
    ensures { IsRead (flag_refusal key (table_view table.now))
        (flag_at key (table_view table.now)) result }
{
    match value_at(table, key) {
        None => Ok(false),
        Some(value) => match value.as_bool() {
            None => Err(AccountsError::BadValue { key }),
            Some(flag) => Ok(flag),
        },
    }
}

/// The text that the value is, as it is kept.
pub(crate) fn text_of(alloc: Global, key: Key, value: &Value) -> Result<Name, AccountsError>
    ensures { IsRead (judged key (is_some (text_of key (view value.now))))
        (text_or_empty key (view value.now)) result }
{
    match value.as_str() {
        Some(text) if fits(key, text.as_bytes()) => name_of(alloc, spelling(key, text.as_bytes())),
        _ => Err(AccountsError::BadValue { key }),
    }
}

/// The name of these bytes, which are short enough for one.
pub(crate) fn name_of(alloc: Global, bytes: &[u8]) -> Result<Name, AccountsError>
    requires { length bytes.now ≤ 255 }
    ensures { IsRead None bytes.now result }
{
    Ok(Name::of_short(alloc, bytes)?)
}

/// The text at the key, which must be there.
pub(crate) fn needed_text(alloc: Global, table: &Table, key: Key) -> Result<Name, AccountsError>
    ensures { IsRead (needed_text_refusal key (table_view table.now))
        (unwrap_or (text_at key (table_view table.now)) []) result }
{
    match value_at(table, key) {
        None => Err(AccountsError::Missing { key }),
        Some(value) => text_of(alloc, key, value),
    }
}

/// The text at the key, or the empty text if the key is not there.
pub(crate) fn text_or_empty(alloc: Global, table: &Table, key: Key) -> Result<Name, AccountsError>
    ensures { IsRead (text_refusal key (table_view table.now))
        (unwrap_or (text_at key (table_view table.now)) []) result }
{
    match value_at(table, key) {
        None => name_of(alloc, b""),
        Some(value) => text_of(alloc, key, value),
    }
}
