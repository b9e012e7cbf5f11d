// Fields of a head, looked up by name over the offsets that httparse gives.
ghost use Rattle.std.specs.Prelude.{◌≡◌, All, length, map, codes};
ghost use Rattle.std.specs.List.{list_all, list_any};
ghost use Rattle.httparse.specs.Spans.{IsHeaderWithin, header_bytes};
ghost use Rattle.http1.specs.Fields.{is_named};
ghost use Rattle.http_front.specs.Fields.{first_named, is_short, bearer_token};
ghost use Rattle.http_front.specs.Taking.{borrowed};

use http1::text::eq_ignore_case;
use httparse::spans::HeaderSpan;

/// Whether the field has this name, in any ASCII case.
fn is_named(head: &[u8], field: HeaderSpan, name: &[u8]) -> bool
    requires { IsHeaderWithin (length head.now) field }
    ensures { result ≡ is_named name.now (header_bytes head.now field) }
{
    eq_ignore_case(field.name.of(head), name)
}

/// The value of the first field of this name.
pub(crate) fn first_named<'a>(
    head: &'a [u8],
    fields: &[HeaderSpan],
    name: &[u8],
) -> Option<&'a [u8]>
    requires { All (IsHeaderWithin (length head.now)) fields.now }
    ensures { borrowed result ≡ first_named name.now (map (header_bytes head.now) fields.now) }
{
    for field in fields {
        if is_named(head, *field, name) {
            return Some(field.value.of(head));
        }
    }
    None
}

/// Whether a field has this name.
pub(crate) fn has_field(head: &[u8], fields: &[HeaderSpan], name: &[u8]) -> bool
    requires { All (IsHeaderWithin (length head.now)) fields.now }
    ensures { result
        ≡ list_any (is_named name.now) (map (header_bytes head.now) fields.now) }
{
    for field in fields {
        if is_named(head, *field, name) {
            return true;
        }
    }
    false
}

/// Whether the field is no Content-Length of more than 15 bytes.
fn is_short(head: &[u8], field: HeaderSpan) -> bool
    requires { IsHeaderWithin (length head.now) field }
    ensures { result ≡ is_short (header_bytes head.now field) }
{
    !is_named(head, field, b"content-length") || field.value.of(head).len() <= 15
}

/// Whether no Content-Length has more than 15 bytes.
pub(crate) fn has_short_lengths(head: &[u8], fields: &[HeaderSpan]) -> bool
    requires { All (IsHeaderWithin (length head.now)) fields.now }
    ensures { result ≡ list_all is_short (map (header_bytes head.now) fields.now) }
{
    for field in fields {
        if !is_short(head, *field) {
            return false;
        }
    }
    true
}

/// The token of an Authorization field's value: `Bearer`, in any ASCII case, one space and the
/// token (RFC 6750, section 2.1).
pub fn bearer_token(value: &[u8]) -> Option<&[u8]>
    ensures { borrowed result ≡ bearer_token value.now }
{
    if value.len() < 7 || !eq_ignore_case(&value[..7], b"bearer ") {
        return None;
    }
    Some(&value[7..])
}
