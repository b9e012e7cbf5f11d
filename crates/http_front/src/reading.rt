// The head of a request, read without memory of its own.
ghost use Rattle.std.specs.Prelude.{◌≡◌, ◌≤◌, All, length, map, count_by, take, bytes_eq, codes, Ok, Err, Some, None, IfOk, IfErr, IfSome, IsNone, nat_lt, ◌==◌, option_and_then};
ghost use Rattle.httparse.specs.Grammar.{RequestHead};
ghost use Rattle.httparse.specs.Spans.{IsHeaderWithin, IsRequestAt, IsRequestWithin, header_bytes};
ghost use Rattle.http1.specs.Fields.{known_fields};
ghost use Rattle.http_front.specs.Fields.{first_named, bearer_token};
ghost use Rattle.http_front.specs.Reading.{read_head as head_read};
ghost use Rattle.http_front.specs.Judging.{is_post, sized, body_size, judged_parts, judged};
ghost use Rattle.http_front.specs.Taking.{asked_of, borrowed};

use crate::fields::{bearer_token, first_named, has_field, has_short_lengths};
use crate::refusal::Refusal;
use http::Method;
use http1::fields::{ContentLength, KnownFields};
use httparse::Status;
use httparse::spans::{EMPTY_HEADER_SPAN, HeaderSpan, RequestSpans, parse_request};

/// The most bytes of a head.
pub const MAX_HEAD: usize = 16384;

/// The most bytes LF of a head: the request line, 64 fields and the empty line.
pub const MAX_LINES: usize = 66;

/// The most fields of a head.
const MAX_FIELDS: usize = 64;

/// The most octets of a body.
pub const MAX_BODY: u64 = 1048576;

/// What a request's head asks for. The texts are borrowed from the head.
#[derive(Clone, Copy, Debug, PartialEq, Eq)]
pub struct Head<'a> {
    /// The method, as it is written: `get` is not `GET`.
    pub method: &'a [u8],
    /// The target, as it is written.
    pub target: &'a [u8],
    /// The token of the first Authorization field, if that is `Bearer`, in any ASCII case, one
    /// space and a token (RFC 6750, section 2.1).
    pub token: Option<&'a [u8]>,
    /// Whether an Expect field lists `100-continue`, in any ASCII case.
    pub expects: bool,
    /// Whether the session closes after the answer: the request is of HTTP/1.0, or a Connection
    /// field lists `close`, in any ASCII case.
    pub closes: bool,
    /// The octets of the body, at most 1048576.
    pub size: u64,
}

/// Whether the method is POST. Its case counts.
fn is_post(method: &[u8]) -> bool
    ensures { result ≡ is_post method.now }
{
    method == Method::POST.as_str().as_bytes()
}

/// The octets of a request's body, given what its fields Content-Length come to.
fn sized(is_post: bool, length: ContentLength) -> Result<u64, Refusal>
    ensures { result ≡ sized is_post length }
{
    match length {
        ContentLength::Absent if is_post => Err(Refusal::LengthMissing),
        ContentLength::Absent => Ok(0),
        ContentLength::Value(size) if size <= MAX_BODY => Ok(size),
        ContentLength::Value(_) => Err(Refusal::BodyTooLarge),
        ContentLength::Invalid => Err(Refusal::BadRequest),
    }
}

/// The octets of a request's body.
fn body_size(
    head: &[u8],
    fields: &[HeaderSpan],
    known: &KnownFields,
    is_post: bool,
) -> Result<u64, Refusal>
    requires within { All (IsHeaderWithin (length head.now)) fields.now }
    requires known { known.now ≡ known_fields (map (header_bytes head.now) fields.now) }
    ensures { result ≡ body_size is_post (map (header_bytes head.now) fields.now) }
{
    if has_field(head, fields, b"transfer-encoding") {
        return Err(Refusal::TransferCoding);
    }
    if !has_short_lengths(head, fields) {
        return Err(Refusal::BadRequest);
    }
    sized(is_post, known.content_length)
}

/// What a head of these parts asks for.
fn judge_parts<'a>(
    head: &'a [u8],
    method: &'a [u8],
    target: &'a [u8],
    minor: u8,
    fields: &[HeaderSpan],
) -> Result<Head<'a>, Refusal>
    requires { All (IsHeaderWithin (length head.now)) fields.now }
    ensures ok { IfOk result (λ asked. judged_parts method.now target.now minor
        (map (header_bytes head.now) fields.now) ≡ Ok (asked_of asked)) }
    ensures err { IfErr result (λ refusal. judged_parts method.now target.now minor
        (map (header_bytes head.now) fields.now) ≡ Err refusal) }
{
    let known = KnownFields::from_spans(head, fields);
    let size = body_size(head, fields, &known, is_post(method))?;
    Ok(Head {
        method,
        target,
        token: token_in(head, fields),
        expects: known.expect_continue,
        closes: minor == 0 || known.close,
        size,
    })
}

/// The token of the first Authorization field.
fn token_in<'a>(head: &'a [u8], fields: &[HeaderSpan]) -> Option<&'a [u8]>
    requires { All (IsHeaderWithin (length head.now)) fields.now }
    ensures { borrowed result ≡ option_and_then bearer_token
        (first_named (codes "authorization") (map (header_bytes head.now) fields.now)) }
{
    bearer_token(first_named(head, fields, b"authorization")?)
}

/// The offsets of a head's parts, if all of the bytes are a head with at most 64 fields.
fn parse_head(head: &[u8], room: &mut [HeaderSpan; MAX_FIELDS]) -> Option<RequestSpans>
    ensures some { IfSome result (λ spans. (h : RequestHead) × (head_read head.now ≡ Some h)
        × IsRequestAt head.now room.new spans h × IsRequestWithin head.now room.new spans) }
    ensures none { IsNone result → head_read head.now ≡ None }
{
    match parse_request(head, room.as_mut_slice()) {
        Ok(Status::Complete(spans)) => {
            if spans.len == head.len() {
                Some(spans)
            } else {
                None
            }
        }
        Ok(Status::Partial) => None,
        Err(_) => None,
    }
}

/// How many bytes LF there are.
fn line_feeds(bytes: &[u8]) -> usize
    ensures { result ≡ count_by (λ b. b == 10) bytes.now }
{
    bytes.iter().filter(|b| **b == b'\n').count()
}

/// Reads the head of a request: its bytes up to and with the first empty line after another line.
/// It takes no memory.
///
/// # Errors
///
/// The first that holds. `HeadTooLarge`: the head has more than 66 bytes LF. `BadRequest`: it has
/// another form than RFC 9112 gives it, or more than 64 fields. `TransferCoding`: it has a field
/// Transfer-Encoding. `BadRequest`: its fields Content-Length are not each 1 to 15 digits and one
/// number. `LengthMissing`: it is a POST and has no Content-Length. `BodyTooLarge`: the body has
/// more than 1048576 octets.
pub fn read_head(bytes: &[u8]) -> Result<Head<'_>, Refusal>
    ensures ok { IfOk result (λ head. judged bytes.now ≡ Ok (asked_of head)) }
    ensures err { IfErr result (λ refusal. judged bytes.now ≡ Err refusal) }
{
    if line_feeds(bytes) > MAX_LINES {
        return Err(Refusal::HeadTooLarge);
    }
    let mut room = [EMPTY_HEADER_SPAN; MAX_FIELDS];
    match parse_head(bytes, &mut room) {
        Some(spans) => judge_parts(
            bytes,
            spans.method.of(bytes),
            spans.path.of(bytes),
            spans.version,
            &room[..spans.headers],
        ),
        None => Err(Refusal::BadRequest),
    }
}
