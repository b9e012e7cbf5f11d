// The longest requests of the policy protocol.
use crate::headline::session_of_the_owner;
use crate::one_account::open_desk;
use accounts_file::plain_table;
use keeper::FixedKeeper;
use quota_units::Limits;
use sessions::Front;
use std::alloc::Global;
use std::test::Fail;
use wire_io::{MemSink, MemSource, SessionEnd};

/// A request to stop, of this many bytes with its empty line, and then another request.
fn request_of(alloc: Global, size: usize) -> Result<Vec<u8>, Fail> {
    let mut text = b"request=quotad_stop\nx=".to_vec(alloc)?;
    // All but the value are 24 bytes.
    for _ in 24..size {
        text.push(b'y')?;
    }
    text.extend_from_slice(b"\n\nrequest=quotad_stop\n\n")?;
    Ok(text)
}

/// What a session writes of which this is the input, and how it ends.
fn session_of(alloc: Global, input: Vec<u8>, piece: usize) -> Result<(Vec<u8>, SessionEnd), Fail> {
    let limits = Limits::new(None, None).ok_or("limits in range")?;
    let table = plain_table(alloc, limits)?;
    let mut desk = open_desk(alloc, &table, FixedKeeper::new(alloc)?)?;
    let mut source = MemSource::new(input, piece.max(1), Vec::new(alloc));
    let mut sink = MemSink::new(alloc, 4096, 4096, Vec::new(alloc))?;
    let end = session_of_the_owner(
        alloc,
        Front::Policy,
        &table,
        &mut desk,
        &mut source,
        &mut sink,
    );
    Ok((sink.as_slice().to_vec(alloc)?, end))
}

#[test]
fn a_request_has_at_most_8192_bytes(rt: HostRuntime) -> Result<(), Fail> {
    let alloc = rt.alloc();
    for piece in [1000, 4096] {
        let (text, end) = session_of(alloc, request_of(alloc, 8192)?, piece)?;
        assert_eq!(rt; text.as_slice(), b"action=stopping\n\n".as_slice());
        assert_eq!(rt; end, SessionEnd::Stopped);
        let (text, end) = session_of(alloc, request_of(alloc, 8193)?, piece)?;
        assert_eq!(rt; text.as_slice(), b"action=bad request\n\n".as_slice());
        assert_eq!(rt; end, SessionEnd::Closed);
    }
    Ok(())
}
