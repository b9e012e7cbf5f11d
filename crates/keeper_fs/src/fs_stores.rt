ghost use Rattle.std.specs.Prelude.{◌≡◌, ◌<◌, None, true, false, IfOk, IfErr, IsErrOf};
ghost use Rattle.std.specs.String.{string_bytes};
ghost use Rattle.quota_units.specs.Causes.{HasCause};
ghost use Rattle.keeper_fs.specs.Paths.{is_account_path, is_path, path_in};
ghost use Rattle.keeper_fs.specs.Real.{faults_of, append_faults_of, folder_of, lists_of, store_faults_of, store_folder_of};

use crate::FsKeeper;
use crate::drafts::remove_left;
use crate::folders::path_in;
use crate::names::file_name;
use keeper::{KeepError, Stores};
use quota_units::Failed;
use std::alloc::Global;
use std::fs::Files;
use std::time::Clock;

/// Accounts below one folder, each in its folder `<folder>/<account>`. Which accounts there are is
/// not told.
///
/// Opening an account removes the messages that an earlier run of the service began to write in the
/// account's folders `tmp` and left there for more than 36 hours.
#[derive(Drop)]
pub struct FsStores<R> {
    rt: R,
    folder: Vec<u8>,
    faults: u64,
}

impl<R: Files + AllocGlobal + Clock + Clone + Drop> FsStores<R> {
    /// The accounts below a folder. If the folder's path is empty or not UTF-8, no account can be
    /// opened.
    pub fn new(rt: R, folder: Vec<u8>) -> FsStores<R>
        ensures none { store_faults_of result ≡ 0 }
        ensures folder { store_folder_of result ≡ folder.items }
    {
        FsStores {
            rt,
            folder,
            faults: 0,
        }
    }

    /// How often a call has failed.
    pub fn faults(&self) -> u64
        ensures { result ≡ store_faults_of self.now }
    {
        self.faults
    }
}

/// The path of an account's folder below this folder.
fn account_folder(alloc: Global, folder: &[u8], account: &[u8]) -> Result<String, KeepError>
    ensures ok { IfOk result (λ path. string_bytes path ≡ path_in folder.now account.now) }
    ensures outside { is_account_path folder.now account.now ≡ false
        → result ≡ Err KeepError.Failed }
    ensures only { IsErrOf result KeepError.Failed
        → is_account_path folder.now account.now ≡ false }
{
    let account = file_name(account)?;
    let folder = path_text(folder)?;
    Ok(path_in(alloc, folder, account)?)
}

/// The text of a path, which must be UTF-8 and not empty.
#[tactic(auto, using(crate::proofs::Texts::is_text, crate::proofs::Texts::is_no_text))]
fn path_text(path: &[u8]) -> Result<&str, Failed>
    ensures text { IfOk result (λ text. text.now ≡ path.now) }
    ensures ok { IfOk result (λ _. is_path path.now ≡ true) }
    ensures refused { IfErr result (λ _. is_path path.now ≡ false) }
{
    match str::from_utf8(path) {
        Ok(text) if !path.is_empty() => Ok(text),
        _ => Err(Failed),
    }
}

/// Opens an account, and removes the messages that an earlier run left in its folders `tmp`.
fn open_account<R: Files + AllocGlobal + Clock + Clone + Drop>(
    rt: &R,
    alloc: Global,
    folder: &[u8],
    account: &[u8],
) -> Result<FsKeeper<R>, KeepError>
    ensures fresh { IfOk result (λ keeper. (faults_of keeper ≡ 0)
        × ((append_faults_of keeper ≡ 0) × (lists_of keeper ≡ 0))) }
    ensures folder { IfOk result (λ keeper. folder_of keeper ≡ path_in folder.now account.now) }
    ensures outside { is_account_path folder.now account.now ≡ false
        → IsErrOf result KeepError.Failed }
    ensures only { IsErrOf result KeepError.Failed
        → is_account_path folder.now account.now ≡ false }
{
    let folder = account_folder(alloc, folder, account)?;
    let own = rt.clone()?;
    remove_left(rt, folder.as_str());
    Ok(FsKeeper::new(own, folder))
}

impl<R: Files + AllocGlobal + Clock + Clone + Drop> Stores for FsStores<R> {
    type K = FsKeeper<R>;

    ghost told = { λ _. None };

    ghost faults = { store_faults_of };

    fn open(&mut self, alloc: Global, account: &[u8]) -> Result<FsKeeper<R>, KeepError>
        ensures fresh { IfOk result (λ keeper. (faults_of keeper ≡ 0)
            × (append_faults_of keeper ≡ 0)) }
        ensures cause { HasCause (IsErrOf result KeepError.Failed) (store_faults_of self.old)
            (store_faults_of self.new) }
        ensures no_listings { IfOk result (λ keeper. lists_of keeper ≡ 0) }
        ensures account { IfOk result
            (λ keeper. folder_of keeper ≡ path_in (store_folder_of self.old) account.now) }
        // An opening answers `Failed` exactly if the folder's path is empty or not UTF-8, or the
        // account's name is not the name of one file or folder.
        ensures outside { is_account_path (store_folder_of self.old) account.now ≡ false
            → IsErrOf result KeepError.Failed }
        ensures only { IsErrOf result KeepError.Failed
            → is_account_path (store_folder_of self.old) account.now ≡ false }
        ensures folder { store_folder_of self.new ≡ store_folder_of self.old }
    {
        let opened = open_account(&self.rt, alloc, self.folder.as_slice(), account);
        if let Err(KeepError::Failed) = &opened {
            self.faults = self.faults.saturating_add(1);
        }
        opened
    }

    fn close(&mut self, _account: &[u8], keeper: FsKeeper<R>)
        ensures cause { HasCause (0 < faults_of keeper) (store_faults_of self.old)
            (store_faults_of self.new) }
        ensures folder { store_folder_of self.new ≡ store_folder_of self.old }
    {
        if keeper.faults() > 0 {
            self.faults = self.faults.saturating_add(1);
        }
    }
}
