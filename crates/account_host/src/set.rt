use account_lock::Pass;

/// One pass of each account of a host, in the order of the accounts. It is what one caller needs to
/// ask them.
#[derive(Drop)]
pub struct SeatSet {
    pub(crate) passes: Vec<Pass>,
}
