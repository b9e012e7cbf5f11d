ghost use Rattle.std.specs.Prelude.{◌≡◌, IfOk};
ghost use Rattle.accounts_file.specs.Hosts.{plain_account, plain_hosts, plain_roots, plain_setup};

use crate::entry::AccountEntry;
use crate::hosts::HostTable;
use crate::roots::roots_of;
use crate::settings::Settings;
use quota_roots::{LimitsList, NameList, RootSpec, Roots, Setup};
use quota_units::{Limits, Name, NoMemory};
use std::alloc::Global;

/// The table of one account, `main`, which has these limits and may set limits.
///
/// The account has one quota root with the empty name, the mailboxes INBOX and Trash, and room for
/// 65536 entries of history. Nobody can log in to it, and it has no token. The epoch of the table
/// is 0.
///
/// # Errors
///
/// `NoMemory` if memory runs out.
pub fn plain_table(alloc: Global, limits: Limits) -> Result<HostTable, NoMemory>
    ensures { IfOk result (λ table. table ≡ plain_hosts limits) }
{
    let mut accounts = Vec::new(alloc);
    accounts.push(plain_entry(alloc, limits)?)?;
    Ok(HostTable {
        settings: Settings {
            imap: None,
            jmap: None,
            policy: None,
            workers: 2,
        },
        accounts,
        epoch: 0,
    })
}

fn plain_entry(alloc: Global, limits: Limits) -> Result<AccountEntry, NoMemory>
    ensures { IfOk result (λ entry. entry ≡ plain_account limits) }
{
    let none: Vec<Name> = Vec::new(alloc);
    Ok(AccountEntry {
        name: name_of(alloc, b"main")?,
        password: name_of(alloc, b"")?,
        token: name_of(alloc, b"")?,
        admin: true,
        recipients: NameList::new(none),
        setup: plain_setup(alloc, limits)?,
    })
}

fn plain_setup(alloc: Global, limits: Limits) -> Result<Setup, NoMemory>
    ensures { IfOk result (λ setup. setup ≡ plain_setup limits) }
{
    let mut mailboxes = Vec::new(alloc);
    mailboxes.push(name_of(alloc, b"INBOX")?)?;
    mailboxes.push(name_of(alloc, b"Trash")?)?;
    let mut all_limits = Vec::new(alloc);
    all_limits.push(limits)?;
    Ok(Setup {
        roots: plain_roots(alloc)?,
        limits: LimitsList::new(all_limits),
        mailboxes: NameList::new(mailboxes),
        journal: 65536,
    })
}

fn plain_roots(alloc: Global) -> Result<Roots, NoMemory>
    ensures { IfOk result (λ roots. roots ≡ plain_roots) }
{
    let mut specs = Vec::new(alloc);
    specs.push(RootSpec {
        name: name_of(alloc, b"")?,
        prefix: None,
    })?;
    Ok(roots_of(specs))
}

fn name_of(alloc: Global, bytes: &[u8]) -> Result<Name, NoMemory>
    ensures { IfOk result (λ name. name ≡ bytes.now) }
{
    Name::of(alloc, bytes).map_err(|_| NoMemory)
}
