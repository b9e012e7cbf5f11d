// What a session over memory reads and writes.
ghost use Rattle.std.specs.Prelude.{◌≡◌, ◌≤◌, ◌<◌, [], Some, length, IfOk, IsErr, IsOk};
ghost use Rattle.std.specs.Io.KnownBytes.{ReadConsumes, WriteAppends};
ghost use Rattle.quota_units.specs.Causes.{HasCause};

use quota_units::Failed;
use std::alloc::Global;
use std::marker::Model;
use wire_io::{Sink, Source};

/// Bytes in memory, as a source. No read fails.
#[derive(Drop)]
pub(crate) struct Input {
    bytes: Vec<u8>,
    at: usize,
}

impl Model for Input {
    ghost use Rattle.std.specs.Prelude.{◌≤◌, ℕ, List, drop, vec_len};

    ghost Value = { List ℕ };

    ghost view = { λ s. drop s.at s.bytes.items };

    ghost invariant = { λ s. s.at ≤ vec_len s.bytes };
}

impl Input {
    /// A source of these bytes.
    pub(crate) fn new(bytes: Vec<u8>) -> Input
        ensures { result ≡ bytes.items }
    {
        Input { bytes, at: 0 }
    }
}

impl Source for Input {
    ghost left = { λ s. Some s };

    ghost faults = { λ s. 0 };

    fn read(&mut self, into: &mut [u8]) -> Result<usize, Failed>
        ensures bound { IfOk result (λ n. n ≤ length into.new) }
        ensures bytes { ReadConsumes (Some self.old) (Some self.new) result into.new }
        ensures cause { HasCause (IsErr result) 0 0 }
        ensures always { IsOk result }
    {
        let left = &self.bytes[self.at..];
        let count = into.len().min(left.len());
        into[..count].copy_from_slice(&left[..count]);
        self.at += count;
        Ok(count)
    }
}

/// A sink that collects bytes in memory. A write fails only if memory runs out.
#[derive(Drop)]
pub(crate) struct Output {
    bytes: Vec<u8>,
    faults: u64,
}

impl Model for Output {
    ghost use Rattle.workload.specs.Pipes.{Collected};

    ghost Value = { Collected };

    ghost view = { λ s. record { bytes = s.bytes.items; faults = s.faults } };
}

impl Output {
    /// A sink that has collected nothing.
    pub(crate) fn new(alloc: Global) -> Output
        ensures { result ≡ record { bytes = []; faults = 0 } }
    {
        Output {
            bytes: Vec::new(alloc),
            faults: 0,
        }
    }

    /// The bytes written.
    pub(crate) fn into_bytes(self) -> Vec<u8>
        ensures { result.items ≡ self.bytes }
    {
        let Output { bytes, faults: _ } = self;
        bytes
    }
}

impl Sink for Output {
    ghost written = { λ s. Some s.bytes };

    ghost faults = { λ s. s.faults };

    fn write(&mut self, piece: &[u8]) -> Result<usize, Failed>
        ensures bound { IfOk result (λ n. n ≤ length piece.now) }
        ensures some { 0 < length piece.now → IfOk result (λ n. 0 < n) }
        ensures bytes { WriteAppends (Some self.old.bytes)
            (Some self.new.bytes) result piece.now }
        ensures cause { HasCause (IsErr result) self.old.faults self.new.faults }
    {
        match self.bytes.extend_from_slice(piece) {
            Ok(()) => Ok(piece.len()),
            Err(_) => {
                self.faults = self.faults.saturating_add(1);
                Err(Failed)
            }
        }
    }
}
