// What the accounts of a closed host promise, put together from public clauses alone.
ghost use Rattle.std.specs.Prelude.{IfSome};
ghost use Rattle.std.specs.List.{All, AllZip};
ghost use Rattle.account_ledger.specs.States.{IsInOrder};
ghost use Rattle.account_host.specs.Closing.{Closes};
ghost use Rattle.account_host.specs.Seating.{IsSetOf};
ghost use Rattle.account_host.specs.Sets.{AreFirst, views_of};

use account_host::{Host, SeatSet};
use account_ledger::AccountState;
use keeper::Keeper;

/// Shows contracts that each account is in order.
fn show_in_order<K: Keeper>(states: &[AccountState<K>])
    ensures { All IsInOrder states.now }
{
    for state in states {
        state.show_in_order();
    }
}

/// Closes a host whose sets were joined into the first one; `None` if one was not.
///
/// Each account has one history, which is legal: no more of its entries have fault than its keeper
/// counted faults. It has exactly the entries that the joined passes made, and begins with all that
/// each of them had seen. If the keeper tells its files, each settled ledger sums up to a fresh
/// scan of them.
pub(crate) fn close_all<K: Keeper + Drop>(
    host: Host<K>,
    set: SeatSet,
) -> Option<Vec<AccountState<K>>>
    requires set { IsSetOf host set }
    requires first { AreFirst (views_of set) }
    ensures closed { IfSome result (λ states. AllZip Closes (views_of set) states.items) }
    ensures order { IfSome result (λ states. All IsInOrder states.items) }
{
    match host.close(set) {
        Ok(states) => {
            show_in_order(&states);
            Some(states)
        }
        Err(_) => None,
    }
}
