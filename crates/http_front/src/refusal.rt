// Why a request is refused on its head.
use thiserror::Error;

/// Why a request is refused on its head. The session closes after the answer.
#[derive(Clone, Copy, Debug, PartialEq, Eq, Error)]
pub enum Refusal {
    /// 16384 bytes hold no head, or the head has more than 66 bytes LF.
    #[error("the head is too large")]
    HeadTooLarge,
    /// The head has another form than RFC 9112 gives it, or its fields Content-Length are not each
    /// 1 to 15 digits and one number.
    #[error("bad request")]
    BadRequest,
    /// The head has a field Transfer-Encoding.
    #[error("a transfer coding is not supported")]
    TransferCoding,
    /// A POST has no field Content-Length.
    #[error("the body's length is missing")]
    LengthMissing,
    /// The body has more than 1048576 octets.
    #[error("the body is too large")]
    BodyTooLarge,
}
