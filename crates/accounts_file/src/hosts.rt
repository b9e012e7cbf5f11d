ghost use Rattle.std.specs.Prelude.{◌≡◌, ◌<◌, ◌&&◌, bytes_eq, length, slice_get, Some};
ghost use Rattle.std.specs.List.{list_any};
ghost use Rattle.std.specs.Str.{str_eq_ignore_ascii_case};
ghost use Rattle.quota_roots.specs.Setups.{IsSound};
ghost use Rattle.accounts_file.specs.Hosts.{AreAccounts, HaveDifferentLogins, holder, is_secret_of, logged_in, named, port_of, receiver, IsOneOf};

use crate::entry::AccountEntry;
use crate::settings::Settings;
use quota_units::Name;
use std::marker::Model;
use wire_io::Wire;

/// The accounts of a host, with its listeners and the epoch of its names. An account's number is
/// its place, counted from 0.
#[derive(Drop)]
pub struct HostTable {
    pub(crate) settings: Settings,
    pub(crate) accounts: Vec<AccountEntry>,
    pub(crate) epoch: u64,
}

impl Model for HostTable {
    ghost use Rattle.accounts_file.specs.Hosts.{AreAccounts, Hosts};

    ghost Value = { Hosts };

    ghost view = { λ h. record {
      settings = h.settings;
      accounts = h.accounts.items;
      epoch = h.epoch;
    } };

    ghost invariant = { λ h. AreAccounts h.accounts.items };
}

impl HostTable {
    /// How many accounts there are: 1 to 32.
    pub fn count(&self) -> u32
        ensures value { result ≡ length self.now.accounts }
        ensures accounts { AreAccounts self.now.accounts }
    {
        self.accounts.len() as u32
    }

    /// The account of this number.
    pub fn entry(&self, account: u32) -> &AccountEntry
        requires { account < length self.now.accounts }
        ensures value { slice_get self.now.accounts account ≡ Some result.now }
        ensures sound { IsSound result.now.setup }
    {
        &self.accounts[account as usize]
    }

    /// The number of the account of this name.
    pub fn named(&self, name: &[u8]) -> Option<u32>
        ensures value { result ≡ named self.now.accounts name.now }
        ensures within { IsOneOf self.now.accounts result }
    {
        named(&self.accounts, name).map(|at| at as u32)
    }

    /// The number of the account of this name, if this is its password. Nobody can log in to an
    /// account with an empty password.
    pub fn login(&self, name: &[u8], password: &[u8]) -> Option<u32>
        ensures value { result ≡ logged_in self.now.accounts name.now password.now }
        ensures within { IsOneOf self.now.accounts result }
    {
        logged_in(&self.accounts, name, password).map(|at| at as u32)
    }

    /// The number of the account that has this token. An empty token belongs to no account.
    pub fn token(&self, token: &[u8]) -> Option<u32>
        ensures value { result ≡ holder self.now.accounts token.now }
        ensures within { IsOneOf self.now.accounts result }
    {
        holder(&self.accounts, token).map(|at| at as u32)
    }

    /// A law: each account is found by its own name, by its name and password unless the password
    /// is empty, and by its token unless the token is empty.
    ///
    /// It exists for proofs alone.
    pub fn show_different_logins(&self)
        ensures { HaveDifferentLogins self.now.accounts }
    {
        let _count = self.count();
    }

    /// The number of the account that gets the mail for this address. Addresses are compared in any
    /// ASCII case.
    pub fn recipient(&self, address: &[u8]) -> Option<u32>
        ensures value { result ≡ receiver self.now.accounts address.now }
        ensures within { IsOneOf self.now.accounts result }
    {
        receiver(&self.accounts, address).map(|at| at as u32)
    }

    /// The epoch in the names of delivered messages: the seconds from 1970 to the opening of the
    /// host.
    pub fn epoch(&self) -> u64
        ensures { result ≡ self.now.epoch }
    {
        self.epoch
    }

    /// The port of this protocol's listener; `None` if the listener is not opened.
    pub fn port(&self, wire: Wire) -> Option<u16>
        ensures { result ≡ port_of self.now.settings wire }
    {
        match wire {
            Wire::Imap => self.settings.imap,
            Wire::Jmap => self.settings.jmap,
            Wire::Policy => self.settings.policy,
        }
    }

    /// The workers of each listener.
    pub fn workers(&self) -> u32
        ensures { result ≡ self.now.settings.workers }
    {
        self.settings.workers
    }
}

fn named(accounts: &[AccountEntry], name: &[u8]) -> Option<usize>
    ensures { result ≡ named accounts.now name.now }
{
    accounts
        .iter()
        .position(|account| account.name.as_slice() == name)
}

fn logged_in(accounts: &[AccountEntry], name: &[u8], password: &[u8]) -> Option<usize>
    ensures { result ≡ logged_in accounts.now name.now password.now }
{
    accounts
        .iter()
        .position(|account| lets_in(account, name, password))
}

fn lets_in(account: &AccountEntry, name: &[u8], password: &[u8]) -> bool
    ensures { result
        ≡ (bytes_eq account.now.name name.now && is_secret_of account.now.password password.now) }
{
    account.name.as_slice() == name && is_secret_of(account.password.as_slice(), password)
}

fn holder(accounts: &[AccountEntry], token: &[u8]) -> Option<usize>
    ensures { result ≡ holder accounts.now token.now }
{
    accounts
        .iter()
        .position(|account| is_secret_of(account.token.as_slice(), token))
}

fn receiver(accounts: &[AccountEntry], address: &[u8]) -> Option<usize>
    ensures { result ≡ receiver accounts.now address.now }
{
    accounts.iter().position(|account| has_address(account.recipients.as_slice(), address))
}

/// Whether the kept secret is not empty and equals the given one.
fn is_secret_of(kept: &[u8], given: &[u8]) -> bool
    ensures { result ≡ is_secret_of kept.now given.now }
{
    !kept.is_empty() && kept == given
}

fn has_address(recipients: &[Name], address: &[u8]) -> bool
    ensures { result
        ≡ list_any (λ recipient. str_eq_ignore_ascii_case recipient address.now) recipients.now }
{
    recipients.iter().any(|recipient| recipient.as_slice().eq_ignore_ascii_case(address))
}
