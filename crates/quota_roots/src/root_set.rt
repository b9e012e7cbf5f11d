ghost use Rattle.std.specs.Prelude.{◌≡◌, ◌<◌, ◌↔◌, [], ◌∷◌, ◌++◌, IsTrue, All, Contains};
ghost use Rattle.std.specs.List.Sorted.{IsStrictlyIncreasing};
ghost use Rattle.quota_roots.specs.RootSets.{has_root};

use std::marker::Model;

/// A set of roots, by their numbers 0 to 3. Contracts see the list of the numbers, in order.
#[tactic(auto, using(crate::specs::RootSets::bits_of_members))]
#[derive(Clone, Copy, Debug, PartialEq, Eq)]
pub struct RootSet(u8);

impl Model for RootSet {
    ghost use Rattle.std.specs.Prelude.{ℕ, ◌<◌, List};
    ghost use Rattle.quota_roots.specs.RootSets.{members, bits_of, bits_of_members};

    ghost Value = { List ℕ };

    ghost view = { λ s. members s.0 };

    ghost invariant = { λ s. s.0 < 16 };

    ghost inverse = { λ roots. record { 0 = bits_of roots } };

    ghost inverse_ok = { λ s h i. record { 0 = bits_of_members s.0 h i } };
}

impl RootSet {
    /// No root.
    #[tactic(auto, unfolding(crate::specs::RootSets::members))]
    pub(crate) fn none() -> RootSet
        ensures { result ≡ [] }
    {
        RootSet(0)
    }

    /// The set of this root alone.
    pub fn one(root: u32) -> RootSet
        requires { root < 4 }
        ensures { result ≡ root ∷ [] }
    {
        RootSet::none().with(root)
    }

    /// The set with this root added after the roots that it has.
    #[tactic(auto, using(crate::proofs::SetLemmas::with_small, crate::proofs::SetLemmas::with_members))]
    pub(crate) fn with(self, root: u32) -> RootSet
        requires above { All (λ other. other < root) self }
        requires small { root < 4 }
        ensures { result ≡ self ++ root ∷ [] }
    {
        RootSet(self.0 | 1 << root)
    }

    /// Whether the root of this number is in the set.
    #[tactic(auto, using(crate::proofs::SetLemmas::bit_tells, crate::proofs::SetLemmas::bit_is, crate::proofs::SetLemmas::past_none, crate::proofs::SetLemmas::all_low, crate::proofs::SetLemmas::in_order))]
    pub fn has(self, root: u32) -> bool
        ensures value { IsTrue result ↔ Contains self root }
        ensures is { result ≡ has_root self root }
        ensures low { All (λ other. other < 4) self }
        ensures ordered { IsStrictlyIncreasing self }
    {
        let RootSet(bits) = self;
        root < 4 && bits >> root & 1 == 1
    }
}
