ghost use Rattle.std.specs.Prelude.{◌≡◌, IfOk};
ghost use Rattle.account_core.specs.Delivering.{delivered_base, DeliveredBasesDiffer};

use quota_units::{Name, NoMemory};
use std::alloc::Global;

/// The base of a delivered message's name: `<epoch>.<number>.quotad`, with both numbers in decimal
/// digits.
///
/// # Errors
///
/// Memory ran out.
#[tactic(auto, using(crate::proofs::DeliveredLemmas::base_is, crate::proofs::DeliveredLemmas::base_fits))]
pub fn delivered_base(alloc: Global, epoch: u64, number: u64) -> Result<Name, NoMemory>
    ensures { IfOk result (λ name. name ≡ delivered_base epoch number) }
{
    let text = format!(in alloc; "{epoch}.{number}.quotad")?;
    Name::of_short(alloc, text.as_bytes())
}

/// Two deliveries of an account have different bases, if their numbers differ and are below 2^64.
#[tactic(auto, using(crate::proofs::DeliveredLemmas::bases_differ))]
pub fn delivered_bases_differ()
    ensures { DeliveredBasesDiffer }
{}
