// Runs of the program.
use crate::files::Files;

/// A run: the arguments, the accounts file, the files of `ann`, and the input.
#[derive(Clone, Copy)]
pub struct Run {
    pub words: &'static [&'static str],
    pub file: &'static str,
    pub files: Files,
    pub input: &'static [u8],
}

/// What a run writes, its status, and then the number of messages in INBOX and the ledger.
#[derive(Clone, Copy)]
pub struct Expected {
    pub output: &'static [u8],
    pub status: u8,
    pub messages: usize,
    pub ledger: Option<&'static [u8]>,
}
