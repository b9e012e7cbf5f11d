ghost use Rattle.std.specs.Prelude.{◌≡◌};
ghost use Rattle.wire_io.specs.declared.ends.FeedEnd.TheVariants.{Fault, NoMemory as no_memory};

use quota_units::Failed;
use std::alloc::AllocError;
use thiserror::Error;

/// The protocols that a mail host's quota service speaks.
#[derive(Clone, Copy, Debug, PartialEq, Eq)]
pub enum Wire {
    /// IMAP QUOTA (RFC 9208).
    Imap,
    /// JMAP Quotas (RFC 9425) over HTTP.
    Jmap,
    /// The delivery policy of Postfix (SMTPD_POLICY_README).
    Policy,
}

/// How a line of a feed ended.
#[derive(Clone, Copy, Debug, PartialEq, Eq)]
pub enum LineEnd {
    /// With its line feed.
    Whole,
    /// It has no line feed within the most bytes that were asked for.
    TooLong,
}

/// Why a feed handed out no more bytes.
#[derive(Clone, Copy, Debug, PartialEq, Eq, Error)]
pub enum FeedEnd {
    /// The source counted a fault.
    #[error("the source failed")]
    Fault,
    /// The source ended first.
    #[error("the source ended")]
    Ended,
    /// The feed had taken all the bytes that it may take, and one more was needed.
    #[error("the feed's limit is reached")]
    Limit,
    /// Memory ran out for the bytes to hand out.
    #[error("out of memory")]
    NoMemory,
}

impl From<Failed> for FeedEnd {
    ghost from_gives = { λ _ e. e ≡ Fault };

    fn from(_: Failed) -> Self {
        FeedEnd::Fault
    }
}

impl From<AllocError> for FeedEnd {
    ghost from_gives = { λ _ e. e ≡ no_memory };

    fn from(_: AllocError) -> Self {
        FeedEnd::NoMemory
    }
}

/// What a session does after an answer.
#[derive(Clone, Copy, Debug, PartialEq, Eq)]
pub enum After {
    /// It goes on.
    Open,
    /// It closes.
    Closing,
    /// It closes, and asks the server to stop.
    Stopping,
}

/// How a session ended.
#[derive(Clone, Copy, Debug, PartialEq, Eq)]
pub enum SessionEnd {
    /// The input ended between two requests, or a closing answer was written.
    Closed,
    /// A stopping answer was written.
    Stopped,
    /// The input ended inside a request. `at` is the offset of the request's first byte, counted in
    /// octets from the session's first byte.
    Truncated { at: u64 },
    /// The session had taken all the bytes that it may take, and one more was needed.
    InputLimit,
    /// The source counted a fault.
    ReadFault,
    /// The sink counted a fault.
    WriteFault,
    /// Memory ran out.
    NoMemory,
}
