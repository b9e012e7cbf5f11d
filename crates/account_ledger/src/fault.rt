ghost use Rattle.std.specs.Prelude.{◌≡◌, ℕ, false, List, length, Option};
ghost use Rattle.quota_roots.specs.declared.root.RootSpec.{RootSpec};
ghost use Rattle.quota_units.specs.declared.resource.Resource.{Resource};
ghost use Rattle.account_core.specs.Forms.{HasForm};
ghost use Rattle.account_core.specs.Machine.{over_or};
ghost use Rattle.account_core.specs.declared.calls.Call.{Call};
ghost use Rattle.account_ledger.specs.Faults.{step_error};
ghost use Rattle.account_ledger.specs.Rows.{IsInside, IsVerdict};
ghost use Rattle.account_ledger.specs.Writing.{misses};

use account_core::{Reply, StepError};
use admission::Verdict;
use keeper::KeepError;

/// Why a call gets no reply, if the keeper gave this error.
pub(crate) fn step_error(fault: KeepError) -> StepError
    ensures { result ≡ step_error fault }
{
    match fault {
        KeepError::NoMemory => StepError::NoMemory,
        KeepError::Failed => StepError::Store,
    }
}

/// The reply to a check, by the verdict on its message.
pub(crate) fn check_reply(verdict: Verdict) -> Reply
    ensures reply { (over : Option (ℕ × Resource)) → IsVerdict over verdict
        → result ≡ over_or over Reply.Fits }
    ensures form { (roots : List RootSpec) (mailboxes : List (List ℕ)) (octets : ℕ)
        → IsInside (length roots) verdict → HasForm roots mailboxes (Call.Check octets) result }
    ensures there { misses result ≡ false }
{
    match verdict {
        Verdict::Fits => Reply::Fits,
        Verdict::Over { root, resource } => Reply::Over { root, resource },
    }
}
