use account_opening::OpenError;

/// A failure to open an account: its cause, and the keeper with its files as they were.
#[derive(Debug, Drop)]
pub struct OpenFault<K> {
    pub cause: OpenError,
    pub keeper: K,
}
