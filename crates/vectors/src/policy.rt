// Runs of `policy`.
use crate::files::{
    ANN, FAILS_PUTTING, FULL_INBOX, NO_FILES, ONE_KIB, ONE_UNIT, SHORT_JOURNAL, TWO_UNITS,
};
use crate::run::{Expected, Run};

/// Runs of `policy`, and what comes of them.
pub static POLICY_RUNS: [(Run, Expected); 9] = [
    // A request of Postfix with twenty attributes, for a message that is too large and for one that
    // is not.
    (
        Run {
            words: &["policy"],
            file: TWO_UNITS,
            files: ONE_KIB,
            input: b"request=smtpd_access_policy\nprotocol_state=RCPT\nprotocol_name=ESMTP\nhelo_name=mx.example.net\nqueue_id=\nsender=carl@example.net\nrecipient=ann@example.org\nrecipient_count=0\nclient_address=192.0.2.7\nclient_name=mx.example.net\nreverse_client_name=mx.example.net\ninstance=1a2b.3c\nsasl_method=\nsasl_username=\nsasl_sender=\nsize=2000\nccert_subject=\nccert_issuer=\nccert_fingerprint=\nencryption_protocol=\n\nrequest=smtpd_access_policy\nprotocol_state=RCPT\nprotocol_name=ESMTP\nhelo_name=mx.example.net\nqueue_id=\nsender=carl@example.net\nrecipient=ANN@example.org\nrecipient_count=0\nclient_address=192.0.2.7\nclient_name=mx.example.net\nreverse_client_name=mx.example.net\ninstance=1a2b.3c\nsasl_method=\nsasl_username=\nsasl_sender=\nsize=1024\nccert_subject=\nccert_issuer=\nccert_fingerprint=\nencryption_protocol=\n\n",
        },
        Expected {
            output: b"action=552 5.2.2 Mailbox full\n\naction=DUNNO\n\n",
            status: 0,
            messages: 1,
            ledger: Some(b"2048S\n1024 1\n"),
        },
    ),
    // A recipient in no list, no recipient, and another request: no call is made.
    (
        Run {
            words: &["policy"],
            file: TWO_UNITS,
            files: ONE_KIB,
            input: b"request=smtpd_access_policy\nprotocol_state=RCPT\nprotocol_name=ESMTP\nhelo_name=mx.example.net\nqueue_id=\nsender=carl@example.net\nrecipient=bob@example.org\nrecipient_count=0\nclient_address=192.0.2.7\nclient_name=mx.example.net\nreverse_client_name=mx.example.net\ninstance=1a2b.3c\nsasl_method=\nsasl_username=\nsasl_sender=\nsize=2000\nccert_subject=\nccert_issuer=\nccert_fingerprint=\nencryption_protocol=\n\nrequest=smtpd_access_policy\nsize=2000\n\nrequest=junk_policy\n\n",
        },
        Expected {
            output: b"action=DUNNO\n\naction=DUNNO\n\naction=DUNNO\n\n",
            status: 0,
            messages: 1,
            ledger: None,
        },
    ),
    // A bad request closes the session.
    (
        Run {
            words: &["policy"],
            file: ANN,
            files: NO_FILES,
            input: b"hello\n\nrequest=quotad_stop\n\n",
        },
        Expected {
            output: b"action=bad request\n\n",
            status: 0,
            messages: 0,
            ledger: None,
        },
    ),
    // A message that fits only after another is moved away.
    (
        Run {
            words: &["policy"],
            file: ONE_UNIT,
            files: FULL_INBOX,
            input: b"request=quotad_move\naccount=ann\nmailbox=Trash\nname=7.mx\nto=INBOX\n\nrequest=quotad_move\naccount=ann\nmailbox=inbox\nname=8.mx\nto=Trash\n\nrequest=quotad_move\naccount=ann\nmailbox=Trash\nname=7.mx\nto=INBOX\n\n",
        },
        Expected {
            output: b"action=over 0 STORAGE\n\naction=done\n\naction=done\n\n",
            status: 0,
            messages: 1,
            ledger: Some(b"1024S\n1024 1\n-1024 -1\n1 1\n"),
        },
    ),
    // The life of a message. Lines may end with CR LF, octets may look like empty lines, and nothing
    // is read after the session is stopped.
    (
        Run {
            words: &["policy"],
            file: ANN,
            files: NO_FILES,
            input: b"request=quotad_deliver\r\naccount=ann\r\noctets=03\r\n\r\na\n\nrequest=quotad_deliver\naccount=bob\noctets=2\n\n\n\nrequest=quotad_deliver\naccount=ann\nmailbox=Nowhere\noctets=0\n\nrequest=quotad_mark\naccount=ann\nmailbox=INBOX\nname=1700000000.1.quotad\nflags=ST\n\nrequest=quotad_remove\naccount=ann\nmailbox=INBOX\nname=1700000000.1.quotad\n\nrequest=quotad_remove\naccount=ann\nmailbox=INBOX\nname=1700000000.1.quotad\n\nrequest=quotad_stop\n\nrequest=quotad_stop\n\n",
        },
        Expected {
            output: b"action=delivered 1700000000.1.quotad\n\naction=no-account\n\naction=no-mailbox\n\naction=done\n\naction=done\n\naction=no-message\n\naction=stopping\n\n",
            status: 0,
            messages: 0,
            ledger: Some(b"0S\n0 0\n3 1\n-3 -1\n"),
        },
    ),
    // A message that the end of the input cuts short, and a request without its empty line.
    (
        Run {
            words: &["policy"],
            file: ANN,
            files: NO_FILES,
            input: b"request=quotad_deliver\naccount=ann\noctets=5\n\nabc",
        },
        Expected {
            output: b"",
            status: 3,
            messages: 0,
            ledger: None,
        },
    ),
    (
        Run {
            words: &["policy"],
            file: ANN,
            files: NO_FILES,
            input: b"hello\n",
        },
        Expected {
            output: b"",
            status: 3,
            messages: 0,
            ledger: None,
        },
    ),
    // The history is full after three calls.
    (
        Run {
            words: &["policy"],
            file: SHORT_JOURNAL,
            files: NO_FILES,
            input: b"request=quotad_deliver\naccount=ann\noctets=1\n\nxrequest=quotad_deliver\naccount=ann\noctets=1\n\nxrequest=quotad_deliver\naccount=ann\noctets=1\n\nxrequest=quotad_deliver\naccount=ann\noctets=1\n\nx",
        },
        Expected {
            output: b"action=delivered 1700000000.1.quotad\n\naction=delivered 1700000000.2.quotad\n\naction=delivered 1700000000.3.quotad\n\naction=journal-full\n\n",
            status: 0,
            messages: 3,
            ledger: Some(b"524288S\n0 0\n1 1\n1 1\n1 1\n"),
        },
    ),
    // The store fails as the message is put.
    (
        Run {
            words: &["policy"],
            file: ANN,
            files: FAILS_PUTTING,
            input: b"request=quotad_deliver\naccount=ann\noctets=1\n\nx",
        },
        Expected {
            output: b"action=unavailable\n\n",
            status: 0,
            messages: 0,
            ledger: Some(b"0S\n0 0\n"),
        },
    ),
];
