ghost use Rattle.std.specs.Prelude.{◌≡◌, ◌+◌};
ghost use Rattle.quota_units.specs.Sums.{AreSmall, cut_totals};

/// Totals are cut at this number: 2^62 - 1. No account whose keeper tells its files reaches it.
pub const MAX_SUM: u64 = 4611686018427387903;

/// What messages add up to: their octets, and how many there are.
#[derive(Clone, Copy, Debug, PartialEq, Eq)]
pub struct Totals {
    pub octets: u64,
    pub count: u64,
}

/// The sum of two totals, each number cut at `MAX_SUM`.
pub fn cut_sum(totals: Totals, more: Totals) -> Totals
    requires totals { AreSmall totals }
    requires more { AreSmall more }
    ensures value { result ≡ cut_totals (totals.octets + more.octets) (totals.count + more.count) }
    ensures small { AreSmall result }
{
    Totals {
        octets: (totals.octets + more.octets).min(MAX_SUM),
        count: (totals.count + more.count).min(MAX_SUM),
    }
}
