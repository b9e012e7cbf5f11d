// Runs of `imap`.
use crate::files::{ANN, FAILS_PUTTING, NO_FILES, OLD, SHORT_JOURNAL, TORN};
use crate::run::{Expected, Run};

/// Runs of `imap`, and what comes of them.
pub static IMAP_RUNS: [(Run, Expected); 8] = [
    (
        Run {
            words: &["imap", "ann"],
            file: ANN,
            files: OLD,
            input: b"a1 GETQUOTA \"\"\r\n",
        },
        Expected {
            output: b"* PREAUTH quotad ready\r\n* QUOTA \"\" (STORAGE 2 2)\r\na1 OK GETQUOTA completed\r\n",
            status: 0,
            messages: 2,
            ledger: Some(b"1500S\n1400 2\n"),
        },
    ),
    (
        Run {
            words: &["imap", "ann"],
            file: ANN,
            files: TORN,
            input: b"a1 GETQUOTA \"\"\r\na2 LOGOUT\r\n",
        },
        Expected {
            output: b"* PREAUTH quotad ready\r\n* QUOTA \"\" (STORAGE 0 9766 MESSAGE 0 1000)\r\na1 OK GETQUOTA completed\r\n* BYE quotad closing\r\na2 OK LOGOUT completed\r\n",
            status: 0,
            messages: 0,
            ledger: Some(b"10000000S,1000C\n0 0\n"),
        },
    ),
    // A message that is whole, and one that the end of the input cuts short.
    (
        Run {
            words: &["imap", "ann"],
            file: ANN,
            files: NO_FILES,
            input: b"a1 APPEND INBOX {3}\r\nabc\r\na2 APPEND INBOX {5}\r\nabc",
        },
        Expected {
            output: b"* PREAUTH quotad ready\r\n+ Ready\r\na1 OK APPEND completed\r\n+ Ready\r\n",
            status: 3,
            messages: 1,
            ledger: Some(b"0S\n0 0\n3 1\n"),
        },
    ),
    // A session goes on after the store has failed, and keeps its status.
    (
        Run {
            words: &["imap", "ann"],
            file: ANN,
            files: FAILS_PUTTING,
            input: b"a1 APPEND INBOX {3}\r\nabc\r\na2 APPEND INBOX {3}\r\nabc\r\n",
        },
        Expected {
            output: b"* PREAUTH quotad ready\r\n+ Ready\r\na1 NO [UNAVAILABLE] Store unavailable\r\n+ Ready\r\na2 OK APPEND completed\r\n",
            status: 0,
            messages: 1,
            ledger: Some(b"0S\n0 0\n3 1\n"),
        },
    ),
    (
        Run {
            words: &["imap", "ann"],
            file: SHORT_JOURNAL,
            files: NO_FILES,
            input: b"a1 GETQUOTA \"\"\r\na2 GETQUOTA \"\"\r\na3 GETQUOTA \"\"\r\na4 GETQUOTA \"\"\r\n",
        },
        Expected {
            output: b"* PREAUTH quotad ready\r\n* QUOTA \"\" (STORAGE 0 512)\r\na1 OK GETQUOTA completed\r\n* QUOTA \"\" (STORAGE 0 512)\r\na2 OK GETQUOTA completed\r\n* QUOTA \"\" (STORAGE 0 512)\r\na3 OK GETQUOTA completed\r\na4 NO [LIMIT] Journal full\r\n",
            status: 0,
            messages: 0,
            ledger: Some(b"524288S\n0 0\n"),
        },
    ),
    // Commands before, during and after a login.
    (
        Run {
            words: &["imap"],
            file: ANN,
            files: NO_FILES,
            input: b"a1 GETQUOTA \"\"\r\na2 LOGIN ann no\r\na3 LOGIN ann pw\r\na4 LOGIN ann pw\r\n",
        },
        Expected {
            output: b"* OK quotad ready\r\na1 BAD Not authenticated\r\na2 NO [AUTHENTICATIONFAILED] Login failed\r\na3 OK LOGIN completed\r\na4 BAD Already authenticated\r\n",
            status: 0,
            messages: 0,
            ledger: None,
        },
    ),
    // The owner may set limits only if the file says so.
    (
        Run {
            words: &["imap", "ann"],
            file: SHORT_JOURNAL,
            files: NO_FILES,
            input: b"a1 SETQUOTA \"\" (STORAGE 1)\r\n",
        },
        Expected {
            output: b"* PREAUTH quotad ready\r\na1 NO [NOPERM] Not permitted\r\n",
            status: 0,
            messages: 0,
            ledger: None,
        },
    ),
    (
        Run {
            words: &["imap"],
            file: ANN,
            files: NO_FILES,
            input: b"a1 LOGIN {3}\r\nann {2}\r\npw\r\na2 STATUS inbox (MESSAGES SIZE)\r\na3 LOGOUT\r\na4 NOOP\r\n",
        },
        Expected {
            output: b"* OK quotad ready\r\n+ Ready\r\n+ Ready\r\na1 OK LOGIN completed\r\n* STATUS INBOX (MESSAGES 0 SIZE 0)\r\na2 OK STATUS completed\r\n* BYE quotad closing\r\na3 OK LOGOUT completed\r\n",
            status: 0,
            messages: 0,
            ledger: None,
        },
    ),
];
