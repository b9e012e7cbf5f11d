// Runs of `workload N`.
use crate::files::NO_FILES;
use crate::run::{Expected, Run};

/// Runs of `workload`, which read no file and no input, and what comes of them.
pub static WORKLOAD_RUNS: [(Run, Expected); 2] = [
    (
        Run {
            words: &["workload", "1"],
            file: "",
            files: NO_FILES,
            input: b"",
        },
        Expected {
            output: b"requests 1\ndelivered 0\nrefused 0\nremoved 0\nmissing 1\noctets 0\nmessages 0\n",
            status: 0,
            messages: 0,
            ledger: None,
        },
    ),
    (
        Run {
            words: &["workload", "5"],
            file: "",
            files: NO_FILES,
            input: b"",
        },
        Expected {
            output: b"requests 5\ndelivered 2\nrefused 0\nremoved 1\nmissing 2\noctets 138\nmessages 1\n",
            status: 0,
            messages: 0,
            ledger: None,
        },
    ),
];
