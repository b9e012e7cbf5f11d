// Two accounts that one owner asks.
ghost use Rattle.std.specs.Prelude.{◌≡◌, IfOk, []};

use crate::calls::check_steps;
use account_ledger::AccountState;
use keeper::{FixedKeeper, KeepCall, KeepFail, Keeper, MemKeeper};
use plain_desk::PlainDesk;
use quota_roots::{LimitsList, NameList, RootSpec, Roots, Setup};
use quota_units::{Limits, Name};
use std::alloc::Global;
use std::test::Fail;

/// Each account answers by its own calls alone. The second account's journal is full after five
/// entries.
const STEPS: &str = "0 quota - => 0 0 of Some(1000) Some(2)
1 quota - => 0 0 of Some(500) None
0 deliver INBOX 400 => Delivered { number: 1 }
1 deliver INBOX 500 => Delivered { number: 1 }
1 deliver INBOX 1 => Over { root: 0, resource: Storage }
0 deliver INBOX 601 => Over { root: 0, resource: Storage }
0 deliver INBOX 600 => Delivered { number: 2 }
0 deliver INBOX 0 => Over { root: 0, resource: Message }
1 remove INBOX 1700000000.1.quotad => Removed
0 quota - => 1000 2 of Some(1000) Some(2)
1 status INBOX => Status { messages: 0, unseen: 0, deleted: 0, deleted_octets: 0, octets: 0 }
1 quota - => JournalFull { limit: 5 }
1 deliver INBOX 1 => JournalFull { limit: 5 }
0 status INBOX => Status { messages: 2, unseen: 2, deleted: 0, deleted_octets: 0, octets: 1000 }";

/// The store of the second account fails at its first message, and the usage stays as it was.
const FAILING_STEPS: &str = "0 deliver INBOX 10 => Delivered { number: 1 }
1 deliver INBOX 20 => Store
1 quota - => 0 0 of Some(500) None
0 quota - => 10 1 of Some(1000) Some(2)
1 deliver INBOX 30 => Delivered { number: 1 }
1 quota - => 30 1 of Some(500) None";

fn limits(octets: Option<u64>, count: Option<u64>) -> Result<Limits, Fail> {
    Ok(Limits::new(octets, count).ok_or("limits in range")?)
}

/// An account with the mailbox INBOX, and one root with these limits, over this keeper.
fn open<K: Keeper + Drop>(
    alloc: Global,
    keeper: K,
    limits: Limits,
    journal: u32,
) -> Result<AccountState<K>, Fail>
    ensures fresh { IfOk result (λ state. state.history ≡ []) }
{
    let root = RootSpec {
        name: Name::of(alloc, b"")?,
        prefix: None,
    };
    let setup = Setup {
        roots: Roots::new(vec![in alloc; root]?)?,
        limits: LimitsList::new(vec![in alloc; limits]?),
        mailboxes: NameList::new(vec![in alloc; Name::of(alloc, b"INBOX")?]?),
        journal,
    };
    if !setup.is_sound() {
        return Err("an unsound setup".into());
    }
    match AccountState::open(alloc, keeper, setup, 1700000000) {
        Ok(state) => Ok(state),
        Err(fault) => Err(fault.cause.into()),
    }
}

/// A desk of two accounts over these keepers: one of 1000 octets and 2 messages, whose journal
/// takes 100 entries, and one of 500 octets, whose journal takes 5.
fn desk<K: Keeper + Drop>(alloc: Global, first: K, second: K) -> Result<PlainDesk<K>, Fail> {
    let first = open(alloc, first, limits(Some(1000), Some(2))?, 100)?;
    let second = open(alloc, second, limits(Some(500), None)?, 5)?;
    let mut states = Vec::new(alloc);
    states.push(first)?;
    states.push(second)?;
    Ok(PlainDesk::new(states))
}

#[test]
fn each_account_is_answered_by_its_own_history(rt: HostRuntime) -> Result<(), Fail> {
    let alloc = rt.alloc();
    let first = FixedKeeper::new(alloc)?;
    let second = FixedKeeper::new(alloc)?;
    let mut desk = desk(alloc, first, second)?;
    check_steps(alloc, &mut desk, STEPS)?;
    let states = desk.into_states();
    match states.as_slice() {
        [first, second] if first.calls() == 7 && second.calls() == 5 => Ok(()),
        _ => Err("other numbers of calls".into()),
    }
}

#[test]
fn a_failed_store_is_of_its_own_account(rt: HostRuntime) -> Result<(), Fail> {
    let alloc = rt.alloc();
    let fails = vec![in alloc;
        KeepFail {
            kind: KeepCall::Put,
            nth: 1
        },
    ]?;
    let first = MemKeeper::new(alloc, Vec::new(alloc), Vec::new(alloc), Vec::new(alloc))?;
    let second = MemKeeper::new(alloc, Vec::new(alloc), Vec::new(alloc), fails)?;
    let mut desk = desk(alloc, first, second)?;
    check_steps(alloc, &mut desk, FAILING_STEPS)?;
    let states = desk.into_states();
    match states.as_slice() {
        [first, second] if first.keeper().faults() == 0 && second.keeper().faults() == 1 => Ok(()),
        _ => Err("other counts of faults".into()),
    }
}
