// Connections to come to a net in memory.
ghost use Rattle.std.specs.Prelude.{◌≡◌, IfOk};
ghost use Rattle.wire_net.specs.Memory.{fresh_input, fresh_output};

use quota_units::NoMemory;
use std::alloc::Global;
use wire_io::{MemSink, MemSource, Wire};

/// A connection to come to a net in memory.
#[derive(Drop)]
pub struct MemConnection {
    /// What the client speaks.
    pub wire: Wire,
    /// The bytes that the client sends.
    pub input: Vec<u8>,
    /// How many bytes to the client there is room for.
    pub room: usize,
}

/// A connection that has both ends already.
#[derive(Drop)]
pub struct Waiting {
    pub bytes: Vec<u8>,
    pub room: usize,
    pub input: MemSource,
    pub output: MemSink,
    ghost input_is: { input ≡ fresh_input bytes.items },
    ghost output_is: { output ≡ fresh_output room },
}

impl Waiting {
    ghost use Rattle.wire_net.specs.Keeping.{arrival_in, offer_in};

    /// The connection, with its bytes copied.
    pub fn of(alloc: Global, connection: &MemConnection) -> Result<Waiting, NoMemory>
        ensures { IfOk result (λ waiting. arrival_in waiting ≡ (offer_in connection.now).arrival) }
    {
        let bytes = connection.input.as_slice();
        let input = MemSource::new(bytes.to_vec(alloc)?, usize::MAX, Vec::new(alloc));
        let output = MemSink::new(alloc, usize::MAX, connection.room, Vec::new(alloc))?;
        Ok(Waiting {
            bytes: bytes.to_vec(alloc)?,
            room: connection.room,
            input,
            output,
        })
    }
}
