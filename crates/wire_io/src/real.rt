ghost use Rattle.std.specs.Prelude.{◌≡◌, ◌<◌, ◌+◌, ◌-◌, ◌^◌, min, Option, IfOk, IsErr, length, ◌≤◌};
ghost use Rattle.std.specs.Io.KnownBytes.{WriteAppends};
ghost use Rattle.quota_units.specs.Causes.{HasCause};

use super::source::{Sink, Source};
use quota_units::Failed;
use std::io::{Read, Write};

/// A source over a reader. It shows to contracts the bytes that the reader shows.
#[derive(Debug, Drop)]
pub struct StdSource<R> {
    reader: R,
    faults: u64,
}

impl<R: Read> StdSource<R> {
    ghost use Rattle.wire_io.specs.Real.{reader_of, read_faults_of};

    /// A source that reads this reader. Each read that returns `Err` is one fault.
    pub fn new(reader: R) -> StdSource<R>
        ensures reader { reader_of result ≡ reader }
        ensures none { read_faults_of result ≡ 0 }
    {
        StdSource { reader, faults: 0 }
    }
}

impl<R: Read> Source for StdSource<R> {
    ghost use Rattle.wire_io.specs.Real.{reader_of, read_faults_of};

    ghost left = { λ s. R.remaining (reader_of s) };

    ghost faults = { read_faults_of };

    fn read(&mut self, into: &mut [u8]) -> Result<usize, Failed> {
        match self.reader.read(into) {
            Ok(count) => Ok(count),
            Err(_) => {
                self.faults = self.faults.saturating_add(1);
                Err(Failed)
            }
        }
    }
}

/// A sink over a writer. Each write is flushed, so that its bytes reach the outside.
///
/// It shows to contracts the bytes that the writer shows, except those that could not be flushed.
/// Once a flush has failed after a write of one or more bytes, each write fails.
#[derive(Debug, Drop)]
pub struct StdSink<W> {
    writer: W,
    unflushed: usize,
    faults: u64,
}

impl<W: Write> StdSink<W> {
    ghost use Rattle.wire_io.specs.Real.{writer_of, unflushed_of, write_faults_of};

    /// A sink that writes to this writer. A write is one fault if it or its flush returns `Err`, or
    /// if it takes no byte of a piece that is not empty.
    pub fn new(writer: W) -> StdSink<W>
        ensures writer { writer_of result ≡ writer }
        ensures flushed { unflushed_of result ≡ 0 }
        ensures none { write_faults_of result ≡ 0 }
    {
        StdSink {
            writer,
            unflushed: 0,
            faults: 0,
        }
    }

    /// Counts a fault.
    fn fail(&mut self) -> Failed
        ensures same_writer { writer_of self.new ≡ writer_of self.old }
        ensures same_unflushed { unflushed_of self.new ≡ unflushed_of self.old }
        ensures counted { write_faults_of self.new
            ≡ min (write_faults_of self.old + 1) (2 ^ 64 - 1) }
        ensures later { write_faults_of self.old ≤ write_faults_of self.new }
    {
        self.faults = self.faults.saturating_add(1);
        Failed
    }
}

impl<W: Write> Sink for StdSink<W> {
    ghost use Rattle.wire_io.specs.Real.{writer_of, unflushed_of, write_faults_of, without_last};

    ghost written = { λ s. without_last (W.contents (writer_of s)) (unflushed_of s) };

    ghost faults = { write_faults_of };

    fn write(&mut self, piece: &[u8]) -> Result<usize, Failed> {
        if self.unflushed > 0 {
            return Err(self.fail());
        }
        let Ok(count) = self.writer.write(piece) else {
            return Err(self.fail());
        };
        if self.writer.flush().is_err() {
            self.unflushed = count;
            return Err(self.fail());
        }
        if count == 0 && !piece.is_empty() {
            return Err(self.fail());
        }
        Ok(count)
    }
}
