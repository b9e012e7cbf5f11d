// The status after a session.
ghost use Rattle.std.specs.Prelude.{◌≡◌, ◌↔◌};
ghost use Rattle.quotactl.specs.Ends.{exit_status};

use wire_io::SessionEnd;

/// The exit status if a write failed.
pub const WRITE_FAULT: u8 = 5;

/// The exit status if memory ran out.
pub const NO_MEMORY: u8 = 6;

/// The exit status after a session.
pub fn status(end: SessionEnd) -> u8
    ensures value { result ≡ exit_status end }
    ensures read { (result ≡ 4) ↔ (end ≡ SessionEnd.ReadFault) }
    ensures write { (result ≡ 5) ↔ (end ≡ SessionEnd.WriteFault) }
{
    match end {
        SessionEnd::Closed | SessionEnd::Stopped => 0,
        SessionEnd::Truncated { .. } => 3,
        SessionEnd::ReadFault => 4,
        SessionEnd::WriteFault => WRITE_FAULT,
        SessionEnd::NoMemory => NO_MEMORY,
        SessionEnd::InputLimit => 11,
    }
}
