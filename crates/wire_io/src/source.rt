ghost use Rattle.std.specs.Prelude.{◌≡◌, ◌≤◌, ◌<◌, ℕ, List, [], Option, IfOk, IsOk, IsErr, OnOk, OnErr, length};
ghost use Rattle.std.specs.Io.KnownBytes.{ReadConsumes, WriteAppends, Appends};
ghost use Rattle.quota_units.specs.Causes.{HasCause};
ghost use Rattle.wire_io.specs.Sending.{AppendsPart};

use quota_units::Failed;

/// What bytes come from, first byte first.
pub trait Source {
    /// The bytes that are left, if the source shows them to contracts.
    ghost left: { Self → Option (List ℕ) };

    /// How often a read has failed. The count stays at 2^64 - 1 once it is there.
    ghost faults: { Self → ℕ };

    /// Takes the first bytes that are left, puts them at the start of the buffer, and returns how
    /// many they are.
    ///
    /// If the buffer is not empty, 0 means the end: no byte is left.
    ///
    /// # Errors
    ///
    /// `Failed` if the read failed. The failure is counted, and the bytes that are left stay.
    fn read(&mut self, into: &mut [u8]) -> Result<usize, Failed>
        ensures bound { IfOk result (λ n. n ≤ length into.new) }
        ensures bytes { ReadConsumes (left self.old) (left self.new) result into.new }
        ensures cause { HasCause (IsErr result) (faults self.old) (faults self.new) };
}

/// What bytes go to, each after the one before.
pub trait Sink {
    /// The bytes written, if the sink shows them to contracts.
    ghost written: { Self → Option (List ℕ) };

    /// How often a write has failed. The count stays at 2^64 - 1 once it is there.
    ghost faults: { Self → ℕ };

    /// Takes the first bytes of a piece, and returns how many they are: at least one if the piece
    /// is not empty.
    ///
    /// # Errors
    ///
    /// `Failed` if the write failed. The failure is counted, and no byte is taken. If the outside
    /// takes no byte of a piece that is not empty, the write fails.
    fn write(&mut self, piece: &[u8]) -> Result<usize, Failed>
        ensures bound { IfOk result (λ n. n ≤ length piece.now) }
        ensures some { 0 < length piece.now → IfOk result (λ n. 0 < n) }
        ensures bytes { WriteAppends (written self.old) (written self.new) result piece.now }
        ensures cause { HasCause (IsErr result) (faults self.old) (faults self.new) };
}

/// Writes all of the bytes. Each write offers all bytes that are left. If there are no bytes, no
/// write is made.
///
/// # Errors
///
/// `Failed` if a write failed. A proper prefix of the bytes is written then.
pub fn send<O: Sink>(sink: &mut O, bytes: &[u8]) -> Result<(), Failed>
    ensures sent { OnOk result (Appends (O.written sink.old) (O.written sink.new) bytes.now) }
    ensures cut { OnErr result (AppendsPart (O.written sink.old) (O.written sink.new) bytes.now) }
    ensures cause { HasCause (IsErr result) (O.faults sink.old) (O.faults sink.new) }
    ensures nothing { bytes.now ≡ [] → IsOk result × (sink.new ≡ sink.old) }
{
    let mut sent = 0;
    while sent < bytes.len() {
        sent += sink.write(&bytes[sent..])?;
    }
    Ok(())
}
