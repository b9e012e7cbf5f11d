ghost use Rattle.std.specs.Prelude.{◌≡◌, ◌⊎◌, ◌≤◌, ◌↔◌, All, IsTrue, None, Some, IfOk, IfErr};
ghost use Rattle.quota_roots.specs.Setups.{IsSound};
ghost use Rattle.toml.specs.View.{table_view};
ghost use Rattle.accounts_file.specs.Files.{all_journals, document, hosts_of, journals_refusal, refusal_of};
ghost use Rattle.accounts_file.specs.Refusals.{Checks};

use crate::accounts::read_drafts;
use crate::doubles::different_accounts;
use crate::entry::AccountEntry;
use crate::error::AccountsError;
use crate::hosts::HostTable;
use crate::key::Key;
use crate::settings::read_settings;
use std::alloc::Global;
use toml::Table;

/// The most entries that the histories of all accounts may have together.
const MAX_JOURNALS: u64 = 4194304;

/// The table of the host that an accounts file in TOML describes. The host is opened at this epoch.
///
/// # Errors
///
/// The first refusal, in this order: `NotToml`; key by key `Missing`, `BadValue` and `TooMany`, for
/// the accounts in the file's order and the roots of each account in their order; `Double` for an
/// account's name, a token, a recipient, a mailbox or a root's name; `BadValue` for `journal` if
/// the journals of all accounts add up to more than 4194304. If memory runs out, the error is
/// `NoMemory` instead.
pub fn read_accounts(alloc: Global, bytes: &[u8], epoch: u64) -> Result<HostTable, AccountsError>
    ensures accepted { IfOk result (λ table. (refusal_of bytes.now ≡ None)
        × (table ≡ hosts_of bytes.now epoch)) }
    ensures refused { IfErr result (λ e. (e ≡ AccountsError.NoMemory)
        ⊎ (refusal_of bytes.now ≡ Some e)) }
    ensures sound { IfOk result (λ table. All (λ account. IsSound account.setup) table.accounts) }
{
    let file = parse(alloc, bytes)?;
    let settings = read_settings(&file)?;
    let drafts = read_drafts(alloc, &file)?;
    let accounts = different_accounts(alloc, drafts)?;
    check_journals(&accounts)?;
    Ok(HostTable {
        settings,
        accounts,
        epoch,
    })
}

/// The TOML table that the bytes spell.
#[tactic(auto, using(crate::proofs::FileLemmas::written, crate::proofs::FileLemmas::not_written))]
fn parse(alloc: Global, bytes: &[u8]) -> Result<Table, AccountsError>
    ensures ok { IfOk result (λ table. document bytes.now ≡ Some (table_view table)) }
    ensures err { IfErr result (λ e. (e ≡ AccountsError.NoMemory)
        ⊎ ((e ≡ AccountsError.NotToml) × (document bytes.now ≡ None))) }
{
    match toml::de::table_from_slice(alloc, bytes) {
        Err(error) if !error.is_memory() => Err(AccountsError::NotToml),
        table => table.map_err(|_| AccountsError::NoMemory),
    }
}

/// Refuses accounts whose journals add up to more than their limit.
fn check_journals(accounts: &[AccountEntry]) -> Result<(), AccountsError>
    ensures { Checks (journals_refusal accounts.now) result }
{
    if have_room(accounts) {
        Ok(())
    } else {
        Err(AccountsError::BadValue { key: Key::Journal })
    }
}

/// Whether the journals of all accounts add up to at most 4194304.
fn have_room(accounts: &[AccountEntry]) -> bool
    ensures { IsTrue result ↔ (all_journals accounts.now ≤ 4194304) }
{
    let mut total = 0u64;
    for account in accounts {
        total += u64::from(account.setup.journal);
        if total > MAX_JOURNALS {
            return false;
        }
    }
    true
}
