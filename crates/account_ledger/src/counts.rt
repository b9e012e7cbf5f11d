/// How often the account has changed.
#[derive(Clone, Copy, Debug, PartialEq, Eq)]
pub(crate) struct Counts {
    /// How many deliveries were accepted.
    pub(crate) deliveries: u64,
    /// How many deliveries, removals and moves between two mailboxes were made.
    pub(crate) generation: u64,
}
