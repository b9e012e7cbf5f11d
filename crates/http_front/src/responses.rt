// The answers to requests. Each is written whole unless memory runs out.
ghost use Rattle.std.specs.Prelude.{◌≡◌, ◌++◌, OnOk, IfOk};
ghost use Rattle.http_front.specs.Responses.{code_of, type_of, field_line, closing_line, response_head, response, blank_problem, refusal_reply};

use crate::refusal::Refusal;
use http::StatusCode;
use itoa::Buffer;
use quota_units::NoMemory;
use std::alloc::Global;
use std::io;
use std::io::Write;
use wire_io::After;

/// The status of an answer, with what the status says of the request.
#[derive(Clone, Copy, Debug, PartialEq, Eq)]
pub enum Reply {
    /// 200: the body is the answer.
    Answered,
    /// 400: the request is none.
    BadRequest,
    /// 401: the request has no known token.
    Unauthorized,
    /// 404: the target is not known.
    NotFound,
    /// 405: the target wants GET.
    WantsGet,
    /// 405: the target wants POST.
    WantsPost,
    /// 411: the body's length is missing.
    LengthMissing,
    /// 431: the head is too large.
    HeadTooLarge,
    /// 501: a transfer coding is not supported.
    NotImplemented,
}

/// How a head's refusal is answered.
pub fn refusal_reply(refusal: Refusal) -> Reply
    ensures { result ≡ refusal_reply refusal }
{
    match refusal {
        Refusal::HeadTooLarge => Reply::HeadTooLarge,
        Refusal::BadRequest | Refusal::BodyTooLarge => Reply::BadRequest,
        Refusal::TransferCoding => Reply::NotImplemented,
        Refusal::LengthMissing => Reply::LengthMissing,
    }
}

/// The status code.
fn code_of(reply: Reply) -> StatusCode
    ensures { result ≡ code_of reply }
{
    match reply {
        Reply::Answered => StatusCode::OK,
        Reply::BadRequest => StatusCode::BAD_REQUEST,
        Reply::Unauthorized => StatusCode::UNAUTHORIZED,
        Reply::NotFound => StatusCode::NOT_FOUND,
        Reply::WantsGet | Reply::WantsPost => StatusCode::METHOD_NOT_ALLOWED,
        Reply::LengthMissing => StatusCode::LENGTH_REQUIRED,
        Reply::HeadTooLarge => StatusCode::REQUEST_HEADER_FIELDS_TOO_LARGE,
        Reply::NotImplemented => StatusCode::NOT_IMPLEMENTED,
    }
}

/// The media type of the body.
fn type_of(reply: Reply) -> &'static str
    ensures { result.now ≡ type_of reply }
{
    match reply {
        Reply::Answered => "application/json",
        _ => "application/problem+json",
    }
}

/// The field that the status asks for, if any.
fn field_line(reply: Reply) -> &'static str
    ensures { result.now ≡ field_line reply }
{
    match reply {
        Reply::Unauthorized => "WWW-Authenticate: Bearer\r\n",
        Reply::WantsGet => "Allow: GET\r\n",
        Reply::WantsPost => "Allow: POST\r\n",
        _ => "",
    }
}

/// The field that says that the session closes, if it does.
fn closing_line(after: After) -> &'static str
    ensures { result.now ≡ closing_line after }
{
    match after {
        After::Open => "",
        After::Closing | After::Stopping => "Connection: close\r\n",
    }
}

/// Appends the head of an answer with a body of `size` octets.
fn push_head(out: &mut Vec<u8>, reply: Reply, after: After, size: usize) -> io::Result<()>
    ensures { OnOk result (out.new.items ≡ out.old.items ++ response_head reply after size) }
{
    let code = code_of(reply);
    let kind = type_of(reply);
    let field = field_line(reply);
    let closing = closing_line(after);
    write!(
        out,
        "HTTP/1.1 {code}\r\nContent-Type: {kind}\r\nContent-Length: {size}\r\n{field}{closing}\r\n"
    )
}

/// Appends an answer with this body. The session does `after` once it is written.
///
/// # Errors
///
/// `NoMemory` if memory ran out.
#[tactic(auto, unfolding(crate::specs::Responses::response))]
pub fn push_response(
    out: &mut Vec<u8>,
    reply: Reply,
    after: After,
    body: &[u8],
) -> Result<(), NoMemory>
    ensures { OnOk result (out.new.items ≡ out.old.items ++ response reply after body.now) }
{
    match push_head(out, reply, after, body.len()) {
        Ok(()) => {
            out.extend_from_slice(body)?;
            Ok(())
        }
        Err(_) => Err(NoMemory),
    }
}

/// The body `{"status":CODE,"type":"about:blank"}`.
fn blank_problem(alloc: Global, reply: Reply) -> Result<Vec<u8>, NoMemory>
    ensures { IfOk result (λ body. body.items ≡ blank_problem reply) }
{
    let mut body = Vec::new(alloc);
    body.extend_from_slice(b"{\"status\":")?;
    let mut digits = Buffer::new();
    body.extend_from_slice(digits.format(code_of(reply).as_u16()).as_bytes())?;
    body.extend_from_slice(b",\"type\":\"about:blank\"}")?;
    Ok(body)
}

/// Appends an answer whose body is `{"status":CODE,"type":"about:blank"}`: a refusal that is no
/// problem of JMAP.
///
/// # Errors
///
/// `NoMemory` if memory ran out.
pub fn push_problem(
    alloc: Global,
    out: &mut Vec<u8>,
    reply: Reply,
    after: After,
) -> Result<(), NoMemory>
    ensures { OnOk result
        (out.new.items ≡ out.old.items ++ response reply after (blank_problem reply)) }
{
    let body = blank_problem(alloc, reply)?;
    push_response(out, reply, after, &body)
}
