// The book of a quota root.
use quota_units::Totals;

/// Whether the ledger of a quota root is known to be right.
#[derive(Clone, Copy, Debug, PartialEq, Eq)]
pub enum Standing {
    /// The ledger is the written text of the root's limits and of pairs that add up to its usage.
    Settled,
    /// Nothing is known of the ledger: the account was just opened, or a write of the ledger
    /// failed.
    Doubt,
}

/// What is kept in memory of a quota root: its standing, its totals and its ledger's length. If the
/// root is settled, the totals are its usage and the length is right.
#[derive(Clone, Copy, Debug)]
pub struct Book {
    /// In octets and messages.
    pub totals: Totals,
    pub standing: Standing,
    /// In bytes.
    pub length: usize,
}
