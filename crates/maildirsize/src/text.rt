ghost use Rattle.std.specs.Prelude.{◌≡◌, ◌+◌, ◌≤◌, [], ◌++◌, length};

use std::marker::Model;

/// The most bytes that a `Text` holds.
const ROOM: usize = 128;

/// A text of at most 128 bytes, in a buffer of its own.
#[derive(Debug, Drop)]
pub struct Text {
    bytes: [u8; 128],
    length: usize,
}

impl Model for Text {
    ghost use Rattle.std.specs.Prelude.{ℕ, List, ◌≤◌, length, take};

    ghost Value = { List ℕ };

    ghost view = { λ t. take t.length t.bytes };

    ghost invariant = { λ t. t.length ≤ 128 };
}

impl Default for Text {
    ghost is_default = { λ t. t ≡ [] };

    fn default() -> Text {
        Text::new()
    }
}

impl Text {
    /// The empty text.
    pub fn new() -> Text
        ensures { result ≡ [] }
    {
        Text {
            bytes: [0; 128],
            length: 0,
        }
    }

    /// The text's bytes.
    pub fn as_slice(&self) -> &[u8]
        ensures value { result.now ≡ self.now }
        ensures short { length self.now ≤ 128 }
    {
        &self.bytes[..self.length]
    }

    /// Empties the text.
    pub(crate) fn clear(&mut self)
        ensures { self.new ≡ [] }
    {
        self.length = 0;
    }

    /// Adds the bytes at the end.
    pub(crate) fn push(&mut self, piece: &[u8])
        requires { length self.old + length piece.now ≤ ROOM }
        ensures { self.new ≡ self.old ++ piece.now }
    {
        let end = self.length + piece.len();
        self.bytes[self.length..end].copy_from_slice(piece);
        self.length = end;
    }
}
