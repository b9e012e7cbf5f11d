ghost use Rattle.std.specs.Prelude.{◌≡◌, ◌≤◌, ◌<◌, [], drop, length, IsErr, MatchResult};
ghost use Rattle.std.specs.Io.KnownBytes.{Consumes, Keeps, IsAtEnd};
ghost use Rattle.quota_units.specs.Causes.{HasCause};

use super::source::Source;
use quota_units::Failed;
use std::marker::Model;

/// The most bytes that are taken from a source at once.
const PIECE_BYTES: usize = 4096;

/// Bytes that were taken from a source and wait: a part of an array.
#[derive(Drop)]
pub struct Piece {
    bytes: [u8; PIECE_BYTES],
    from: usize,
    to: usize,
}

impl Model for Piece {
    ghost use Rattle.std.specs.Prelude.{◌≤◌, ◌-◌, ℕ, List, take, drop};
    ghost use Rattle.wire_io.specs.declared.piece.TheConstants.{PIECE_BYTES};

    ghost Value = { List ℕ };

    ghost view = { λ p. take (p.to - p.from) (drop p.from p.bytes) };

    ghost invariant = { λ p. (p.from ≤ p.to) × (p.to ≤ PIECE_BYTES) };
}

impl Piece {
    /// No bytes.
    pub fn new() -> Piece
        ensures { result ≡ [] }
    {
        Piece {
            bytes: [0; PIECE_BYTES],
            from: 0,
            to: 0,
        }
    }

    /// The bytes.
    pub fn as_slice(&self) -> &[u8]
        ensures { result.now ≡ self.now }
    {
        &self.bytes[self.from..self.to]
    }

    /// How many bytes there are.
    pub fn len(&self) -> usize
        ensures { result ≡ length self.now }
    {
        self.to - self.from
    }

    /// Drops the first `count` bytes.
    #[tactic(auto, using(crate::proofs::PieceLemmas::drop_part))]
    pub fn skip(&mut self, count: usize)
        requires { count ≤ length self.old }
        ensures { self.new ≡ drop count self.old }
    {
        self.from += count;
    }

    /// Takes at most `most` bytes from the source into an empty piece, and returns how many. If
    /// `most` is not 0, a return of 0 means the source's end.
    pub fn fill<S: Source>(&mut self, source: &mut S, most: u64) -> Result<usize, Failed>
        requires { self.old ≡ [] }
        ensures most { length self.new ≤ most }
        ensures bytes { MatchResult result
            (λ n. (length self.new ≡ n) × Consumes (S.left source.old) (S.left source.new) self.new
            × (n ≡ 0 → 0 < most → IsAtEnd (S.left source.new)))
            (λ _. (self.new ≡ []) × Keeps (S.left source.old) (S.left source.new)) }
        ensures cause { HasCause (IsErr result) (S.faults source.old) (S.faults source.new) }
    {
        let room = most.min(PIECE_BYTES as u64) as usize;
        let count = source.read(&mut self.bytes[..room])?;
        self.from = 0;
        self.to = count;
        Ok(count)
    }
}
