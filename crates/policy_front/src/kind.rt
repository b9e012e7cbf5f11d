/// A request that makes a call, by its call.
#[derive(Clone, Copy)]
pub(crate) enum Kind {
    Check,
    Deliver,
    Remove,
    Mark,
    Move,
}
