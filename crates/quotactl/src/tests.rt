// The program over sources and sinks in memory.
use crate::control::control;
use keeper::MemStores;
use std::alloc::Global;
use std::test::Fail;
use wire_io::{MemSink, MemSource};

const USAGE: &[u8] =
    b"usage: quotactl session N | imap [ACCOUNT] | jmap | policy | recalc ACCOUNT | check | workload N\n";

/// A run of the program: its arguments and input, the reads and writes that fail, and the room of
/// the sink.
#[derive(Clone, Copy)]
struct Run<'a> {
    words: &'a [&'a str],
    input: &'a [u8],
    piece: usize,
    failing_reads: &'a [u64],
    failing_writes: &'a [u64],
    room: usize,
}

/// The status, and what was written.
fn outcome(alloc: Global, run: &Run) -> Result<(u8, Vec<u8>), Fail> {
    let mut words = Vec::new(alloc);
    for word in run.words {
        words.push(word.to_string(alloc)?)?;
    }
    let piece = run.piece.max(1);
    let mut source = MemSource::new(
        run.input.to_vec(alloc)?,
        piece,
        run.failing_reads.to_vec(alloc)?,
    );
    let mut sink = MemSink::new(alloc, piece, run.room, run.failing_writes.to_vec(alloc)?)?;
    let mut stores = MemStores::new(Vec::new(alloc));
    let status = control(
        alloc,
        words.as_slice(),
        &[],
        &mut stores,
        0,
        &mut source,
        &mut sink,
    );
    Ok((status, sink.as_slice().to_vec(alloc)?))
}

fn plain<'a>(words: &'a [&'a str], input: &'a [u8]) -> Run<'a> {
    Run {
        words,
        input,
        piece: 4096,
        failing_reads: &[],
        failing_writes: &[],
        room: 65536,
    }
}

/// An input, what is written for it, and the status.
type Row = (&'static [u8], &'static [u8], u8);

/// Sessions of an account with 512 units of storage.
static SESSIONS: [Row; 35] = [
    (
        b"a1 GETQUOTA \"\"\r\na2 LOGOUT\r\n",
        b"* PREAUTH quotad ready\r\n* QUOTA \"\" (STORAGE 0 512)\r\na1 OK GETQUOTA completed\r\n* BYE quotad closing\r\na2 OK LOGOUT completed\r\n",
        0,
    ),
    (
        b"a1 GETQUOTA \"\"\na2 LOGOUT\n",
        b"* PREAUTH quotad ready\r\n* QUOTA \"\" (STORAGE 0 512)\r\na1 OK GETQUOTA completed\r\n* BYE quotad closing\r\na2 OK LOGOUT completed\r\n",
        0,
    ),
    (
        b"a1 getquota \"\"\r\na2 logout\r\nafter",
        b"* PREAUTH quotad ready\r\n* QUOTA \"\" (STORAGE 0 512)\r\na1 OK GETQUOTA completed\r\n* BYE quotad closing\r\na2 OK LOGOUT completed\r\n",
        0,
    ),
    (b"", b"* PREAUTH quotad ready\r\n", 0),
    (
        b"a1 GETQUOTA \"\"\r\n",
        b"* PREAUTH quotad ready\r\n* QUOTA \"\" (STORAGE 0 512)\r\na1 OK GETQUOTA completed\r\n",
        0,
    ),
    (b"a1 GETQUOTA \"\"", b"* PREAUTH quotad ready\r\n", 3),
    (b"\n", b"* PREAUTH quotad ready\r\n* BAD Invalid tag\r\n", 0),
    (
        b"a1 NOOP\r\na2 CAPABILITY\r\na3 LOGIN main pw\r\na4 LOGOUT\r\n",
        b"* PREAUTH quotad ready\r\na1 OK NOOP completed\r\n* CAPABILITY IMAP4rev1 QUOTA QUOTASET QUOTA=RES-STORAGE QUOTA=RES-MESSAGE STATUS=SIZE\r\na2 OK CAPABILITY completed\r\na3 BAD Already authenticated\r\n* BYE quotad closing\r\na4 OK LOGOUT completed\r\n",
        0,
    ),
    // Messages, and a message that is cut short.
    (
        b"a1 APPEND INBOX {3}\r\nabc\r\na2 STATUS inbox (MESSAGES SIZE)\r\n",
        b"* PREAUTH quotad ready\r\n+ Ready\r\na1 OK APPEND completed\r\n* STATUS INBOX (MESSAGES 1 SIZE 3)\r\na2 OK STATUS completed\r\n",
        0,
    ),
    (
        b"a1 APPEND INBOX {5}\r\nabc",
        b"* PREAUTH quotad ready\r\n+ Ready\r\n",
        3,
    ),
    // Names as literals.
    (
        b"a1 GETQUOTA {0}\r\n\r\n",
        b"* PREAUTH quotad ready\r\n+ Ready\r\n* QUOTA \"\" (STORAGE 0 512)\r\na1 OK GETQUOTA completed\r\n",
        0,
    ),
    (
        b"a1 SETQUOTA {0}\n (STORAGE 3)\na2 GETQUOTA {1}\r\nx\r\n",
        b"* PREAUTH quotad ready\r\n+ Ready\r\n* QUOTA \"\" (STORAGE 0 3)\r\na1 OK SETQUOTA completed\r\n+ Ready\r\na2 NO No such quota root\r\n",
        0,
    ),
    // What is no command.
    (
        b"a1 GETQUOTA\r\na2 NOOP x\r\na3 FETCH 1\r\na4\r\n+ NOOP\r\n",
        b"* PREAUTH quotad ready\r\na1 BAD Syntax error at 11\r\na2 BAD Syntax error at 7\r\na3 BAD Unknown command\r\n* BAD Invalid tag\r\n* BAD Invalid tag\r\n",
        0,
    ),
    (
        b"a1 GETQUOTA \"{5}\r\na2 GETQUOTA {16384}\r\na3 NOOP\r\n",
        b"* PREAUTH quotad ready\r\na1 BAD Syntax error at 16\r\na2 BAD Literal too large\r\na3 OK NOOP completed\r\n",
        0,
    ),
    // SETQUOTA replaces all limits.
    (
        b"a1 SETQUOTA \"\" (MESSAGE 10)\r\na2 GETQUOTA \"\"\r\n",
        b"* PREAUTH quotad ready\r\n* QUOTA \"\" (MESSAGE 0 10)\r\na1 OK SETQUOTA completed\r\n* QUOTA \"\" (MESSAGE 0 10)\r\na2 OK GETQUOTA completed\r\n",
        0,
    ),
    // SETQUOTA with no limits.
    (
        b"a1 SETQUOTA \"\" ()\r\n",
        b"* PREAUTH quotad ready\r\n* QUOTA \"\" ()\r\na1 OK SETQUOTA completed\r\n",
        0,
    ),
    // The range of a limit at both ends.
    (
        b"a1 SETQUOTA \"\" (STORAGE 0)\r\na2 SETQUOTA \"\" (STORAGE 8796093022208)\r\na3 SETQUOTA \"\" (STORAGE 8796093022207)\r\n",
        b"* PREAUTH quotad ready\r\na1 NO Limit not supported\r\na2 NO Limit not supported\r\n* QUOTA \"\" (STORAGE 0 8796093022207)\r\na3 OK SETQUOTA completed\r\n",
        0,
    ),
    (
        b"a SETQUOTA \"\" (message 1 Storage 2)\n",
        b"* PREAUTH quotad ready\r\n* QUOTA \"\" (STORAGE 0 2 MESSAGE 0 1)\r\na OK SETQUOTA completed\r\n",
        0,
    ),
    (
        b"a SETQUOTA \"\" (MESSAGE 8796093022207)\n",
        b"* PREAUTH quotad ready\r\n* QUOTA \"\" (MESSAGE 0 8796093022207)\r\na OK SETQUOTA completed\r\n",
        0,
    ),
    (
        b"a SETQUOTA \"\" (MESSAGE 0)\n",
        b"* PREAUTH quotad ready\r\na NO Limit not supported\r\n",
        0,
    ),
    (
        b"a SETQUOTA \"\" (MESSAGE 8796093022208)\n",
        b"* PREAUTH quotad ready\r\na NO Limit not supported\r\n",
        0,
    ),
    // The refusals in their order, over the whole list.
    (
        b"a SETQUOTA \"\" (STORAGE 0 STORAGE 1 MAILBOX 1)\n",
        b"* PREAUTH quotad ready\r\na NO Resource not supported\r\n",
        0,
    ),
    (
        b"a SETQUOTA \"\" (X 1 X 1)\n",
        b"* PREAUTH quotad ready\r\na NO Resource not supported\r\n",
        0,
    ),
    (
        b"a SETQUOTA \"\" (STORAGE 0 MESSAGE 1 storage 1)\n",
        b"* PREAUTH quotad ready\r\na NO Resource repeated\r\n",
        0,
    ),
    (
        b"a SETQUOTA \"\" (MESSAGE 1 Message 0)\n",
        b"* PREAUTH quotad ready\r\na NO Resource repeated\r\n",
        0,
    ),
    (
        b"a SETQUOTA nowhere (STORAGE 0)\n",
        b"* PREAUTH quotad ready\r\na NO Limit not supported\r\n",
        0,
    ),
    (
        b"a SETQUOTA nowhere (STORAGE 1)\n",
        b"* PREAUTH quotad ready\r\na NO No such quota root\r\n",
        0,
    ),
    // A refusal leaves the limits as they were.
    (
        b"a SETQUOTA \"\" (STORAGE 0)\nb SETQUOTA x ()\nc GETQUOTA \"\"\n",
        b"* PREAUTH quotad ready\r\na NO Limit not supported\r\nb NO No such quota root\r\n* QUOTA \"\" (STORAGE 0 512)\r\nc OK GETQUOTA completed\r\n",
        0,
    ),
    // The roots of mailboxes, which need not exist.
    (
        b"a1 GETQUOTAROOT Nowhere\r\n",
        b"* PREAUTH quotad ready\r\n* QUOTAROOT Nowhere \"\"\r\n* QUOTA \"\" (STORAGE 0 512)\r\na1 OK GETQUOTAROOT completed\r\n",
        0,
    ),
    (
        b"a1 GETQUOTAROOT Trash\r\n",
        b"* PREAUTH quotad ready\r\n* QUOTAROOT Trash\r\na1 OK GETQUOTAROOT completed\r\n",
        0,
    ),
    (
        b"a1 GETQUOTAROOT inbox\r\n",
        b"* PREAUTH quotad ready\r\n* QUOTAROOT INBOX \"\"\r\n* QUOTA \"\" (STORAGE 0 512)\r\na1 OK GETQUOTAROOT completed\r\n",
        0,
    ),
    (
        b"a getquotaroot \"iNbOx\"\n",
        b"* PREAUTH quotad ready\r\n* QUOTAROOT INBOX \"\"\r\n* QUOTA \"\" (STORAGE 0 512)\r\na OK GETQUOTAROOT completed\r\n",
        0,
    ),
    (
        b"a GETQUOTAROOT \"a \\\"b\\\"\"\n",
        b"* PREAUTH quotad ready\r\n* QUOTAROOT \"a \\\"b\\\"\" \"\"\r\n* QUOTA \"\" (STORAGE 0 512)\r\na OK GETQUOTAROOT completed\r\n",
        0,
    ),
    (
        b"a GETQUOTAROOT \"\xc3\xa4\"\n",
        b"* PREAUTH quotad ready\r\n* QUOTAROOT {2}\r\n\xc3\xa4 \"\"\r\n* QUOTA \"\" (STORAGE 0 512)\r\na OK GETQUOTAROOT completed\r\n",
        0,
    ),
    (
        b"a GETQUOTAROOT \"\"\n",
        b"* PREAUTH quotad ready\r\n* QUOTAROOT \"\" \"\"\r\n* QUOTA \"\" (STORAGE 0 512)\r\na OK GETQUOTAROOT completed\r\n",
        0,
    ),
];

/// A session of an account with the most units of storage.
static MOST_UNITS: [Row; 1] = [(
    b"a GETQUOTA \"\"\r\n",
    b"* PREAUTH quotad ready\r\n* QUOTA \"\" (STORAGE 0 8796093022207)\r\na OK GETQUOTA completed\r\n",
    0,
)];

/// What `check` says of ledgers.
static LEDGERS: [Row; 16] = [
    // Two lines are added up.
    (
        b"10000000S,1000C\n1234 1\n-1234 -1\n",
        b"definition 10000000S,1000C\nlines 2\noctets 0\nmessages 0\n",
        0,
    ),
    // The same without the last line feed.
    (b"10000000S,1000C\n1234 1\n-1234 -1", b"torn at 23\n", 3),
    (b"1S;\n", b"bad definition at 0\n", 3),
    (b"1S\n1\nx\n", b"bad line 2\n", 3),
    (b"", b"torn at 0\n", 3),
    (b"\n", b"definition 0S\nlines 0\noctets 0\nmessages 0\n", 0),
    (
        b"5C,7S\n",
        b"definition 7S,5C\nlines 0\noctets 0\nmessages 0\n",
        0,
    ),
    (
        b"1S,2S,3s\n  -5   -1  \n",
        b"definition 2S\nlines 1\noctets -5\nmessages -1\n",
        0,
    ),
    (
        b"5S,0S\n",
        b"definition 0S\nlines 0\noctets 0\nmessages 0\n",
        0,
    ),
    (
        b"0S\n999999999999999999 1\n999999999999999999 1\n",
        b"definition 0S\nlines 2\noctets 1999999999999999998\nmessages 2\n",
        0,
    ),
    (b"0S\n1000000000000000000 1\n", b"bad line 2\n", 3),
    (b"0S\n1\t1\n", b"bad line 2\n", 3),
    (b"0S\n1 1\r\n", b"bad line 2\n", 3),
    (b"1S,\n", b"bad definition at 3\n", 3),
    (b"1S", b"torn at 0\n", 3),
    (b"1S\n1 1\nx", b"torn at 7\n", 3),
];

/// Unrecognised arguments, among them units that are out of range.
static NO_FORMS: [&[&str]; 21] = [
    &["check", "5"],
    &["Check"],
    &["check", "check"],
    &["session", "0"],
    &["session", "8796093022208"],
    &["session", "18446744073709551616"],
    &["session", "01"],
    &["session", "+5"],
    &["session", "-5"],
    &["session", ""],
    &["session"],
    &["session", "5", "5"],
    &["Session", "5"],
    &["Imap"],
    &["workload", "0"],
    &["workload", "01"],
    &["workload", "4097"],
    &["imap", "-"],
    &["imap", "-ann"],
    &["imap", "ann", "ann"],
    &[],
];

/// A text in parts, each with the number of times that it occurs.
type Parts = &'static [(&'static [u8], usize)];

/// An input, what is written for it, and the status.
type LongRow = (Parts, Parts, u8);

/// Names, lines and a history at their limits.
static LONG_SESSIONS: [LongRow; 22] = [
    // A name of more than 255 bytes makes no call.
    (
        &[(b"a GETQUOTA ", 1), (b"x", 255), (b"\n", 1)],
        &[(b"* PREAUTH quotad ready\r\na NO No such quota root\r\n", 1)],
        0,
    ),
    (
        &[(b"a GETQUOTA ", 1), (b"x", 256), (b"\n", 1)],
        &[(b"* PREAUTH quotad ready\r\na NO No such quota root\r\n", 1)],
        0,
    ),
    (
        &[(b"a GETQUOTA ", 1), (b"x", 16000), (b"\n", 1)],
        &[(b"* PREAUTH quotad ready\r\na NO No such quota root\r\n", 1)],
        0,
    ),
    (
        &[(b"a SETQUOTA ", 1), (b"x", 255), (b" (STORAGE 1)\n", 1)],
        &[(b"* PREAUTH quotad ready\r\na NO No such quota root\r\n", 1)],
        0,
    ),
    (
        &[(b"a SETQUOTA ", 1), (b"x", 256), (b" (STORAGE 1)\n", 1)],
        &[(b"* PREAUTH quotad ready\r\na NO No such quota root\r\n", 1)],
        0,
    ),
    (
        &[(b"a SETQUOTA ", 1), (b"x", 16000), (b" (STORAGE 1)\n", 1)],
        &[(b"* PREAUTH quotad ready\r\na NO No such quota root\r\n", 1)],
        0,
    ),
    (
        &[(b"a SETQUOTA ", 1), (b"x", 255), (b" (STORAGE 0)\n", 1)],
        &[(b"* PREAUTH quotad ready\r\na NO Limit not supported\r\n", 1)],
        0,
    ),
    (
        &[(b"a SETQUOTA ", 1), (b"x", 256), (b" (STORAGE 0)\n", 1)],
        &[(b"* PREAUTH quotad ready\r\na NO Limit not supported\r\n", 1)],
        0,
    ),
    (
        &[(b"a SETQUOTA ", 1), (b"x", 16000), (b" (STORAGE 0)\n", 1)],
        &[(b"* PREAUTH quotad ready\r\na NO Limit not supported\r\n", 1)],
        0,
    ),
    (
        &[(b"a GETQUOTAROOT ", 1), (b"x", 255), (b"\n", 1)],
        &[
            (b"* PREAUTH quotad ready\r\n* QUOTAROOT ", 1),
            (b"x", 255),
            (
                b" \"\"\r\n* QUOTA \"\" (STORAGE 0 512)\r\na OK GETQUOTAROOT completed\r\n",
                1,
            ),
        ],
        0,
    ),
    (
        &[(b"a GETQUOTAROOT ", 1), (b"x", 256), (b"\n", 1)],
        &[(b"* PREAUTH quotad ready\r\na NO Name too long\r\n", 1)],
        0,
    ),
    (
        &[(b"a GETQUOTAROOT ", 1), (b"x", 16000), (b"\n", 1)],
        &[(b"* PREAUTH quotad ready\r\na NO Name too long\r\n", 1)],
        0,
    ),
    // Names that are too long, and limits that are refused, make no entry in the history. It is
    // full at 65536 entries.
    (
        &[
            (b"a GETQUOTA \"\"\n", 65534),
            (b"a GETQUOTA ", 1),
            (b"x", 256),
            (b"\n", 1),
            (b"a GETQUOTAROOT ", 1),
            (b"x", 256),
            (b"\n", 1),
            (b"b SETQUOTA \"\" (X 1)\nc GETQUOTA x\nd GETQUOTA \"\"\n", 1),
            (b"e GETQUOTAROOT x\nf GETQUOTA \"\"\n", 1),
        ],
        &[
            (b"* PREAUTH quotad ready\r\n", 1),
            (
                b"* QUOTA \"\" (STORAGE 0 512)\r\na OK GETQUOTA completed\r\n",
                65534,
            ),
            (
                b"a NO No such quota root\r\na NO Name too long\r\nb NO Resource not supported\r\n",
                1,
            ),
            (
                b"c NO No such quota root\r\n* QUOTA \"\" (STORAGE 0 512)\r\nd OK GETQUOTA completed\r\n",
                1,
            ),
            (
                b"e NO [LIMIT] Journal full\r\nf NO [LIMIT] Journal full\r\n",
                1,
            ),
        ],
        0,
    ),
    // So do STATUS and APPEND, which reads its message first.
    (
        &[
            (b"a STATUS ", 1),
            (b"x", 256),
            (b" (SIZE)\nb STATUS ", 1),
            (b"x", 256),
            (b" (X)\n", 1),
        ],
        &[(
            b"* PREAUTH quotad ready\r\na NO No such mailbox\r\nb NO Status item not supported\r\n",
            1,
        )],
        0,
    ),
    (
        &[(b"a APPEND ", 1), (b"x", 256), (b" {1}\ny\nb NOOP\n", 1)],
        &[
            (b"* PREAUTH quotad ready\r\n+ Ready\r\n", 1),
            (
                b"a NO [TRYCREATE] No such mailbox\r\nb OK NOOP completed\r\n",
                1,
            ),
        ],
        0,
    ),
    // A literal may make a command's text 16384 bytes long, and then the text has no end.
    (
        &[(b"a GETQUOTA {16364}\r\n", 1), (b"x", 16363)],
        &[(b"* PREAUTH quotad ready\r\n+ Ready\r\n", 1)],
        3,
    ),
    (
        &[(b"a GETQUOTA {16364}\r\n", 1), (b"x", 16364)],
        &[(
            b"* PREAUTH quotad ready\r\n+ Ready\r\n* BYE Command too long\r\n",
            1,
        )],
        0,
    ),
    (
        &[(b"a GETQUOTA {16365}\r\nb NOOP\r\n", 1)],
        &[(
            b"* PREAUTH quotad ready\r\na BAD Literal too large\r\nb OK NOOP completed\r\n",
            1,
        )],
        0,
    ),
    // A line has at most 16384 bytes.
    (&[(b"x", 16383)], &[(b"* PREAUTH quotad ready\r\n", 1)], 3),
    (
        &[(b"x", 16383), (b"\n", 1)],
        &[(b"* PREAUTH quotad ready\r\n* BAD Invalid tag\r\n", 1)],
        0,
    ),
    (
        &[(b"x", 16384)],
        &[(b"* PREAUTH quotad ready\r\n* BYE Command too long\r\n", 1)],
        0,
    ),
    (
        &[(b"x", 16384), (b"\n", 1)],
        &[(b"* PREAUTH quotad ready\r\n* BYE Command too long\r\n", 1)],
        0,
    ),
];

/// Sessions of an account with one unit of storage: messages up to its limit, and beyond.
static SMALL_SESSIONS: [LongRow; 1] = [(
    &[
        (b"a1 APPEND INBOX {1024}\r\n", 1),
        (b"x", 1024),
        (b"\r\na2 APPEND INBOX {1}\r\nx\r\na3 GETQUOTA \"\"\r\n", 1),
    ],
    &[
        (
            b"* PREAUTH quotad ready\r\n+ Ready\r\na1 OK APPEND completed\r\n",
            1,
        ),
        (b"+ Ready\r\na2 NO [OVERQUOTA] Quota exceeded\r\n", 1),
        (
            b"* QUOTA \"\" (STORAGE 1 1)\r\na3 OK GETQUOTA completed\r\n",
            1,
        ),
    ],
    0,
)];

/// Ledgers at their limits.
static LONG_LEDGERS: [LongRow; 3] = [
    // A ledger has at most 5119 bytes: 3 or 4 of the definition's line, and 1279 lines of 4.
    (
        &[(b"0S\n", 1), (b"0 0\n", 1279)],
        &[(b"definition 0S\nlines 1279\noctets 0\nmessages 0\n", 1)],
        0,
    ),
    (
        &[(b"00S\n", 1), (b"0 0\n", 1279)],
        &[(b"too long 5120\n", 1)],
        3,
    ),
    (&[(b"x", 65535)], &[(b"too long 65535\n", 1)], 3),
];

/// Longer inputs, of which 65536 bytes are read: 16 reads of 4096, and no more.
static CUT_LEDGERS: [LongRow; 3] = [
    (&[(b"x", 65536)], &[(b"too long 65536\n", 1)], 3),
    (&[(b"x", 65537)], &[(b"too long 65536\n", 1)], 3),
    (&[(b"x", 200000)], &[(b"too long 65536\n", 1)], 3),
];

/// The text of parts.
fn joined(alloc: Global, parts: &[(&[u8], usize)]) -> Result<Vec<u8>, Fail> {
    let mut text = Vec::new(alloc);
    for (part, times) in parts {
        for _ in 0..*times {
            text.extend_from_slice(part)?;
        }
    }
    Ok(text)
}

#[test]
fn inputs_are_answered(rt: HostRuntime) -> Result<(), Fail> {
    let tables: [(&[&str], &[Row]); 3] = [
        (&["session", "512"], SESSIONS.as_slice()),
        (&["session", "8796093022207"], MOST_UNITS.as_slice()),
        (&["check"], LEDGERS.as_slice()),
    ];
    for (words, rows) in tables {
        for (input, output, status) in rows {
            for piece in [1, 4096] {
                let run = Run {
                    piece,
                    ..plain(words, input)
                };
                let (ended, written) = outcome(rt.alloc(), &run)?;
                assert_eq!(rt; written.as_slice(), *output, "{input:?}");
                assert_eq!(rt; ended, *status, "{input:?}");
            }
        }
    }
    for words in &NO_FORMS {
        let (status, written) = outcome(rt.alloc(), &plain(words, b"a1 LOGOUT\r\n"))?;
        assert_eq!(rt; status, 1, "{words:?}");
        assert_eq!(rt; written.as_slice(), USAGE, "{words:?}");
    }
    Ok(())
}

#[test]
fn limits_of_length_are_kept(rt: HostRuntime) -> Result<(), Fail> {
    let tables: [(&[&str], &[u64], &[LongRow]); 4] = [
        (&["session", "512"], &[], LONG_SESSIONS.as_slice()),
        (&["session", "1"], &[], SMALL_SESSIONS.as_slice()),
        (&["check"], &[], LONG_LEDGERS.as_slice()),
        (&["check"], &[17, 18], CUT_LEDGERS.as_slice()),
    ];
    for (words, failing_reads, rows) in tables {
        for (i, (input, output, status)) in rows.iter().enumerate() {
            let input = joined(rt.alloc(), input)?;
            let run = Run {
                failing_reads,
                room: 8388608,
                ..plain(words, &input)
            };
            let (ended, written) = outcome(rt.alloc(), &run)?;
            assert!(rt; written == joined(rt.alloc(), output)?, "row {i}");
            assert_eq!(rt; ended, *status, "row {i}");
        }
    }
    Ok(())
}

#[test]
fn faults_end_a_run_at_every_place(rt: HostRuntime) -> Result<(), Fail> {
    let session: &[u8] = b"a1 GETQUOTA \"\"\r\na2 LOGOUT\r\n";
    let ledger: &[u8] = b"1S\n1 1\n";
    // Arguments and an input; the number of reads; how many bytes are written if one of the first
    // 16 reads fails, and if a later one does; the number of writes.
    let table: [(&[&str], &[u8], u64, usize, usize, u64); 2] = [
        (&["session", "512"], session, 27, 24, 78, 124),
        (&["check"], ledger, 7, 0, 0, 42),
    ];
    for (words, input, reads, early, late, writes) in table {
        for read in 1..=reads {
            let run = Run {
                piece: 1,
                failing_reads: &[read],
                ..plain(words, input)
            };
            let (status, written) = outcome(rt.alloc(), &run)?;
            assert_eq!(rt; status, 4, "read {read}");
            let answered = if read <= 16 { early } else { late };
            assert_eq!(rt; written.len(), answered, "read {read}");
        }
        for write in 1..=writes {
            let run = Run {
                piece: 1,
                failing_writes: &[write],
                ..plain(words, input)
            };
            let (status, written) = outcome(rt.alloc(), &run)?;
            assert_eq!(rt; status, 5, "write {write}");
            assert_eq!(rt; written.len() + 1, write as usize, "write {write}");
        }
    }
    let full = Run {
        room: 10,
        ..plain(&["help"], b"")
    };
    let (status, written) = outcome(rt.alloc(), &full)?;
    assert_eq!(rt; status, 5);
    assert_eq!(rt; written.as_slice(), b"usage: quo".as_slice());
    Ok(())
}
