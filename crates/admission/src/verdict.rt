ghost use Rattle.std.specs.Prelude.{◌≡◌, ℕ, ◌<◌, ◌^◌, ◌↔◌, All, length, None, Some};
ghost use Rattle.admission.specs.Fitting.{allows, over, first_over, FitsEach};

use quota_roots::{MAX_ROOTS, RootSet};
use quota_units::{Limits, Resource, Totals};

/// What becomes of a message.
#[derive(Clone, Copy, Debug, PartialEq, Eq)]
pub enum Verdict {
    /// It stays within every limit.
    Fits,
    /// It takes this resource of this root above its limit.
    Over { root: u32, resource: Resource },
}

/// Whether a message of `octets` octets fits the limits of these roots (RFC 9208, section 4.3.1).
///
/// `limits` and `totals` have one item for each root, in the order of the roots' numbers. The
/// numbers in `totals`, and `octets`, must be below 2^62. If the message does not fit, the verdict
/// names the first root that it does not fit. If it exceeds both limits of that root, the verdict
/// names storage. Usage may equal a limit.
#[tactic(auto, using(crate::proofs::FirstLemmas::fits_each, crate::proofs::FirstLemmas::fits_not_each))]
pub fn admit(limits: &[Limits], totals: &[Totals], roots: RootSet, octets: u64) -> Verdict
    requires same { length limits.now ≡ length totals.now }
    requires known { All (λ root. root < length limits.now) roots }
    requires small { All (λ total. (total.octets < 2 ^ 62) × (total.count < 2 ^ 62)) totals.now }
    requires small_message { octets < 2 ^ 62 }
    ensures fits { (result ≡ Verdict.Fits) ↔ FitsEach limits.now totals.now roots octets }
    ensures none_over { (result ≡ Verdict.Fits)
        ↔ (first_over limits.now totals.now roots octets ≡ None) }
    ensures over { (root : ℕ) (resource : Resource) → (result ≡ Verdict.Over root resource)
        ↔ (first_over limits.now totals.now roots octets ≡ Some (root, resource)) }
{
    for root in 0..MAX_ROOTS {
        if roots.has(root)
            && let Some(resource) = over(&limits[root as usize], &totals[root as usize], octets)
        {
            return Verdict::Over { root, resource };
        }
    }
    Verdict::Fits
}

fn over(limits: &Limits, totals: &Totals, octets: u64) -> Option<Resource>
    requires small { totals.now.octets < 2 ^ 62 }
    requires few { totals.now.count < 2 ^ 62 }
    requires small_message { octets < 2 ^ 62 }
    ensures { result ≡ over limits.now totals.now octets }
{
    if !allows(limits.octets(), totals.octets + octets) {
        Some(Resource::Storage)
    } else if !allows(limits.count(), totals.count + 1) {
        Some(Resource::Message)
    } else {
        None
    }
}

fn allows(limit: Option<u64>, amount: u64) -> bool
    ensures { result ≡ allows limit amount }
{
    match limit {
        None => true,
        Some(limit) => amount <= limit,
    }
}
