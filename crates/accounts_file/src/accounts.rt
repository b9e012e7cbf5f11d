ghost use Rattle.std.specs.Prelude.{◌≡◌, ◌<◌, ◌≤◌, ◌⊎◌, bytes_eq, codes, length, map, position, slice_get, true, None, Some, IfOk, IfErr, IfSome, MatchResult};
ghost use Rattle.std.specs.List.{list_all};
ghost use Rattle.quota_roots.specs.Setups.{is_mailbox};
ghost use Rattle.toml.specs.View.{view, table_view};
ghost use Rattle.accounts_file.specs.Accounts.{account_in, account_of, account_refusal, accounts_of, accounts_refusal, mailboxes_at, mailboxes_refusal, refusal_in, with_inbox, without_first};
ghost use Rattle.accounts_file.specs.Refusals.{first_in, IsRead};

use crate::draft::Draft;
use crate::error::AccountsError;
use crate::key::Key;
use crate::lists::{names_at, tables_of};
use crate::roots::read_roots;
use crate::values::{flag_at, name_of, needed_text, number_at, value_at};
use quota_roots::{MAX_MAILBOXES, NameList};
use quota_units::Name;
use std::alloc::Global;
use toml::{Table, Value};

/// INBOX, and after it the names without their first INBOX.
fn with_inbox(alloc: Global, names: Vec<Name>) -> Result<Vec<Name>, AccountsError>
    ensures { MatchResult result (λ mailboxes. mailboxes.items ≡ with_inbox names.items)
        (λ e. e ≡ AccountsError.NoMemory) }
{
    let mut mailboxes = without_inbox(names);
    mailboxes.insert(0, name_of(alloc, b"INBOX")?)?;
    Ok(mailboxes)
}

/// The names without the first INBOX.
#[tactic(auto, using(crate::proofs::RuleLemmas::without_at, crate::proofs::RuleLemmas::without_nowhere))]
fn without_inbox(names: Vec<Name>) -> Vec<Name>
    ensures { result.items ≡ without_first (codes "INBOX") names.items }
{
    let mut names = names;
    match index_of_inbox(&names) {
        None => names,
        Some(at) => {
            names.remove(at);
            names
        }
    }
}

fn index_of_inbox(names: &[Name]) -> Option<usize>
    ensures value { result ≡ position (λ name. bytes_eq name (codes "INBOX")) names.now }
    ensures within { IfSome result (λ at. at < length names.now) }
{
    names
        .iter()
        .position(|name| name.as_slice() == b"INBOX".as_slice())
}

/// The mailboxes of an account, INBOX first.
#[tactic(auto, using(crate::proofs::RuleLemmas::read_mailboxes))]
fn mailboxes_at(alloc: Global, account: &Table) -> Result<NameList, AccountsError>
    ensures reads { IsRead (mailboxes_refusal (table_view account.now))
        (mailboxes_at (table_view account.now)) result }
    ensures inbox { IfOk result (λ mailboxes. slice_get mailboxes 0 ≡ Some (codes "INBOX")) }
    ensures few { IfOk result (λ mailboxes. length mailboxes ≤ 256) }
    ensures named { IfOk result (λ mailboxes. list_all is_mailbox mailboxes ≡ true) }
{
    let names = names_at(alloc, account, Key::Mailboxes)?;
    let mailboxes = with_inbox(alloc, names)?;
    if mailboxes.len() > MAX_MAILBOXES {
        return Err(AccountsError::TooMany {
            key: Key::Mailboxes,
        });
    }
    Ok(NameList::new(mailboxes))
}

/// The account of a table.
fn read_account(alloc: Global, account: &Table) -> Result<Draft, AccountsError>
    ensures { IsRead (account_refusal (table_view account.now))
        (account_of (table_view account.now)) result }
{
    let name = needed_text(alloc, account, Key::AccountName)?;
    let password = needed_text(alloc, account, Key::Password)?;
    let token = needed_text(alloc, account, Key::Token)?;
    let admin = flag_at(account, Key::Admin)?;
    let journal = number_at(account, Key::Journal)?.unwrap_or(65536) as u32;
    let recipients = NameList::new(names_at(alloc, account, Key::Recipients)?);
    let mailboxes = mailboxes_at(alloc, account)?;
    let roots = read_roots(alloc, account)?;
    Ok(Draft {
        name,
        password,
        token,
        admin,
        recipients,
        mailboxes,
        specs: roots.specs,
        limits: roots.limits,
        journal,
    })
}

/// The account of a value of the list.
fn read_value(alloc: Global, value: &Value) -> Result<Draft, AccountsError>
    ensures { IsRead (refusal_in (view value.now)) (account_in (view value.now)) result }
{
    match value.as_table() {
        None => Err(AccountsError::BadValue { key: Key::Account }),
        Some(account) => read_account(alloc, account),
    }
}

/// The accounts of a list of values.
#[tactic(auto, using(crate::proofs::ListLemmas::accounts_more, crate::proofs::ListLemmas::accounts_end))]
fn read_values(alloc: Global, values: &[Value]) -> Result<Vec<Draft>, AccountsError>
    ensures ok { IfOk result (λ drafts. (first_in (map refusal_in (map view values.now)) ≡ None)
        × (drafts.items ≡ map account_in (map view values.now))) }
    ensures err { IfErr result (λ e. (e ≡ AccountsError.NoMemory)
        ⊎ (first_in (map refusal_in (map view values.now)) ≡ Some e)) }
{
    let mut drafts = Vec::new(alloc);
    for value in values {
        drafts.push(read_value(alloc, value)?)?;
    }
    Ok(drafts)
}

/// The accounts of a file.
pub(crate) fn read_drafts(alloc: Global, file: &Table) -> Result<Vec<Draft>, AccountsError>
    ensures ok { IfOk result (λ drafts. (accounts_refusal (table_view file.now) ≡ None)
        × (drafts.items ≡ accounts_of (table_view file.now))) }
    ensures count { IfOk result (λ drafts. (1 ≤ length drafts.items) × (length drafts.items ≤ 32)) }
    ensures err { IfErr result (λ e. (e ≡ AccountsError.NoMemory)
        ⊎ (accounts_refusal (table_view file.now) ≡ Some e)) }
{
    match value_at(file, Key::Account) {
        None => Err(AccountsError::Missing { key: Key::Account }),
        Some(value) => read_values(alloc, tables_of(Key::Account, 32, value)?),
    }
}
