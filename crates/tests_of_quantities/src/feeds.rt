ghost use Rattle.std.specs.Prelude.{◌<◌, ◌≤◌, None};

use quota_units::Failed;
use std::alloc::{AllocError, Global};
use std::io;
use std::io::{ErrorKind, Write};
use std::test::Fail;
use wire_io::{Feed, FeedEnd, LineEnd, MemSink, MemSource, Sink, Source, StdSink, StdSource, send};

/// A source of this text. The read whose number is `fail` fails; if `fail` is 0, no read fails.
fn source(alloc: Global, text: &[u8], piece: usize, fail: u64) -> Result<MemSource, AllocError>
    requires { 0 < piece }
{
    let mut fails = Vec::new(alloc);
    if fail > 0 {
        fails.push(fail)?;
    }
    Ok(MemSource::new(text.to_vec(alloc)?, piece, fails))
}

#[test]
fn a_feed_ends_at_the_end_at_a_fault_and_at_its_limit(rt: HostRuntime) -> Result<(), Fail> {
    let alloc = rt.alloc();
    // The number of the read that fails, or 0, and the feed's limit; how the read of a line ends,
    // and what is handed out by then; how the read of two more bytes ends, and what is handed out
    // by then.
    let cases = [
        (
            0,
            100,
            Ok(LineEnd::Whole),
            "ab\n",
            Err(FeedEnd::Ended),
            "ab\nc",
        ),
        (2, 100, Err(FeedEnd::Fault), "a", Ok(()), "ab\n"),
        (0, 2, Err(FeedEnd::Limit), "ab", Err(FeedEnd::Limit), "ab"),
    ];
    for (fail, limit, line, first, exact, both) in cases {
        let mut source = source(alloc, b"ab\nc", 1, fail)?;
        let mut feed = Feed::new(&mut source, limit)?;
        let mut out = Vec::new(alloc);
        assert_eq!(rt; feed.line(&mut out, 100), line, "with {fail} and {limit}");
        assert_eq!(rt; out.as_slice(), first.as_bytes());
        assert_eq!(rt; feed.exact(&mut out, 2), exact, "with {fail} and {limit}");
        assert_eq!(rt; out.as_slice(), both.as_bytes());
    }
    Ok(())
}

#[test]
fn a_line_is_whole_too_long_or_cut(rt: HostRuntime) -> Result<(), Fail> {
    let alloc = rt.alloc();
    // The text, the most bytes of a read, the feed's limit and the most bytes of the line; how the
    // line ends, and what is handed out.
    let cases = [
        ("abc\nd", 9, 100, 4, Ok(LineEnd::Whole), "abc\n"),
        ("abc\nd", 1, 100, 4, Ok(LineEnd::Whole), "abc\n"),
        ("abc\nd", 9, 100, 3, Ok(LineEnd::TooLong), "abc"),
        ("abc\nd", 2, 100, 3, Ok(LineEnd::TooLong), "abc"),
        ("\n\n", 9, 100, 9, Ok(LineEnd::Whole), "\n"),
        ("abc", 9, 100, 0, Ok(LineEnd::TooLong), ""),
        ("", 9, 0, 0, Ok(LineEnd::TooLong), ""),
        ("", 9, 1, 1, Err(FeedEnd::Ended), ""),
        ("", 9, 0, 1, Err(FeedEnd::Limit), ""),
        ("abc", 9, 4, 9, Err(FeedEnd::Ended), "abc"),
        ("abc", 9, 3, 9, Err(FeedEnd::Limit), "abc"),
        ("abc", 9, 3, 3, Ok(LineEnd::TooLong), "abc"),
        ("abc\n", 9, 4, 9, Ok(LineEnd::Whole), "abc\n"),
    ];
    for (text, piece, limit, max, end, given) in cases {
        assert!(rt; piece > 0);
        let mut source = source(alloc, text.as_bytes(), piece, 0)?;
        let mut feed = Feed::new(&mut source, limit)?;
        let mut out = Vec::new(alloc);
        assert_eq!(rt;
            feed.line(&mut out, max),
            end,
            "a line of {text:?} with {limit} and {max}"
        );
        assert_eq!(rt; out.as_slice(), given.as_bytes());
        assert_eq!(rt; usize::try_from(feed.at())?, given.len());
    }
    Ok(())
}

#[test]
fn so_many_bytes_are_all_or_cut(rt: HostRuntime) -> Result<(), Fail> {
    let alloc = rt.alloc();
    // The text, the most bytes of a read, the feed's limit and the count; how the call ends, and
    // what is handed out.
    let cases = [
        ("ab\ncd", 9, 100, 4, Ok(()), "ab\nc"),
        ("ab\ncd", 1, 100, 4, Ok(()), "ab\nc"),
        ("abc", 9, 3, 3, Ok(()), "abc"),
        ("abc", 9, 0, 0, Ok(()), ""),
        ("abc", 2, 100, 4, Err(FeedEnd::Ended), "abc"),
        ("abc", 9, 3, 4, Err(FeedEnd::Limit), "abc"),
        ("abc", 9, 2, 3, Err(FeedEnd::Limit), "ab"),
    ];
    for (text, piece, limit, count, end, given) in cases {
        assert!(rt; piece > 0);
        let mut source = source(alloc, text.as_bytes(), piece, 0)?;
        let mut feed = Feed::new(&mut source, limit)?;
        let mut out = Vec::new(alloc);
        assert_eq!(rt;
            feed.exact(&mut out, count),
            end,
            "{count} bytes of {text:?} with {limit}"
        );
        assert_eq!(rt; out.as_slice(), given.as_bytes());
        assert_eq!(rt; usize::try_from(feed.at())?, given.len());
    }
    Ok(())
}

#[test]
fn a_line_may_be_longer_than_a_read(rt: HostRuntime) -> Result<(), Fail> {
    let alloc = rt.alloc();
    let mut text = vec![in alloc; b'x'; 9000]?;
    text.extend_from_slice(b"\nrest")?;
    let mut long = source(alloc, text.as_slice(), 5000, 0)?;
    let mut feed = Feed::new(&mut long, 100_000)?;
    let mut out = Vec::new(alloc);
    assert_eq!(rt; feed.line(&mut out, 8999), Ok(LineEnd::TooLong));
    assert_eq!(rt; feed.line(&mut out, 8999), Ok(LineEnd::Whole));
    assert_eq!(rt; out.len(), 9001);
    assert_eq!(rt; feed.exact(&mut out, 4), Ok(()));
    assert_eq!(rt; out.as_slice(), text.as_slice());
    Ok(())
}

/// A source that records how many bytes each of its first four reads asked for.
#[derive(Drop)]
struct Asked {
    sizes: [usize; 4],
    reads: usize,
}

impl Source for Asked {
    ghost left = { λ _. None };

    ghost faults = { λ _. 0 };

    fn read(&mut self, into: &mut [u8]) -> Result<usize, Failed> {
        if self.reads < 4 {
            self.sizes[self.reads] = into.len();
            self.reads += 1;
        }
        Ok(into.len())
    }
}

#[test]
fn a_read_asks_for_4096_bytes_unless_the_limit_is_nearer(rt: HostRuntime) -> Result<(), Fail> {
    let mut asked = Asked {
        sizes: [0; 4],
        reads: 0,
    };
    let mut feed = Feed::new(&mut asked, 10_000)?;
    let mut out = Vec::new(rt.alloc());
    assert_eq!(rt; feed.exact(&mut out, 1), Ok(()));
    assert_eq!(rt; feed.exact(&mut out, 10_000), Err(FeedEnd::Limit));
    drop(feed);
    assert_eq!(rt; asked.sizes, [4096, 4096, 1808, 0]);
    Ok(())
}

#[test]
fn a_sink_in_memory_fails_when_told_and_when_full(rt: HostRuntime) -> Result<(), Fail> {
    let mut fails = Vec::new(rt.alloc());
    fails.push(2)?;
    let mut sink = MemSink::new(rt.alloc(), 2, 5, fails)?;
    // The bytes that are offered; how the write ends, and all that is written after it.
    let cases = [
        ("abc", Ok(2), "ab"),
        ("abc", Err(Failed), "ab"),
        ("cde", Ok(2), "abcd"),
        ("efg", Ok(1), "abcde"),
        ("f", Err(Failed), "abcde"),
    ];
    for (offered, end, written) in cases {
        assert_eq!(rt;
            sink.write(offered.as_bytes()),
            end,
            "a write of {offered:?}"
        );
        assert_eq!(rt; sink.as_slice(), written.as_bytes());
    }
    Ok(())
}

#[test]
fn all_or_a_prefix_is_sent(rt: HostRuntime) -> Result<(), Fail> {
    let mut sink = MemSink::new(rt.alloc(), 2, 5, Vec::new(rt.alloc()))?;
    // The bytes that are sent; how the call ends, and all that is written after it.
    let cases = [
        ("abc", Ok(()), "abc"),
        ("", Ok(()), "abc"),
        ("def", Err(Failed), "abcde"),
        ("", Ok(()), "abcde"),
    ];
    for (sent, end, written) in cases {
        assert_eq!(rt; send(&mut sink, sent.as_bytes()), end, "a send of {sent:?}");
        assert_eq!(rt; sink.as_slice(), written.as_bytes());
    }
    Ok(())
}

/// A writer that counts its flushes. The second flush fails.
#[derive(Drop)]
struct Flushed {
    bytes: Vec<u8>,
    flushes: usize,
}

impl Write for Flushed {
    fn write(&mut self, piece: &[u8]) -> io::Result<usize> {
        self.bytes.write(piece)
    }

    fn flush(&mut self) -> io::Result<()> {
        self.flushes = self.flushes.saturating_add(1);
        if self.flushes == 2 {
            return Err(io::Error::from(ErrorKind::BrokenPipe));
        }
        Ok(())
    }
}

#[test]
fn a_reader_is_a_source(rt: HostRuntime) -> Result<(), Fail> {
    let mut source = StdSource::new(b"one\ntwo".as_slice());
    let mut feed = Feed::new(&mut source, 100)?;
    let mut out = Vec::new(rt.alloc());
    for end in [Ok(LineEnd::Whole), Err(FeedEnd::Ended)] {
        assert_eq!(rt; feed.line(&mut out, 100), end);
    }
    assert_eq!(rt; out.as_slice(), b"one\ntwo".as_slice());
    Ok(())
}

#[test]
fn a_writer_is_a_sink_and_each_write_is_flushed(rt: HostRuntime) -> Result<(), Fail> {
    let mut writer = Flushed {
        bytes: Vec::new(rt.alloc()),
        flushes: 0,
    };
    let mut sink = StdSink::new(&mut writer);
    // The second flush fails, and nothing is written after it.
    for (sent, end) in [
        ("one", Ok(())),
        ("two", Err(Failed)),
        ("three", Err(Failed)),
    ] {
        assert_eq!(rt; send(&mut sink, sent.as_bytes()), end, "a send of {sent:?}");
    }
    drop(sink);
    assert_eq!(rt; writer.flushes, 2);
    assert_eq!(rt; writer.bytes.as_slice(), b"onetwo".as_slice());
    Ok(())
}
