// The lines of a request's text, and the attributes that they give.
ghost use Rattle.std.specs.Prelude.{◌≡◌, ◌∷◌, ◌==◌, ◌<◌, true, false, length, option_copied, IfSome, IfNone};
ghost use Rattle.std.specs.List.{before_first, after_first};
ghost use Rattle.std.specs.Str.Lines.{lines, strip_carriage_return};
ghost use Rattle.policy_front.specs.Attributes.{is_closed, has_equals, has_form, attribute};

use memchr::memchr;

/// The bytes before the first separator, and the bytes after it; all the bytes and none if there is
/// no separator.
fn around_first(separator: u8, bytes: &[u8]) -> (&[u8], &[u8])
    ensures before { result.0.now ≡ before_first (λ b. b == separator) bytes.now }
    ensures after { result.1.now ≡ after_first (λ b. b == separator) bytes.now }
{
    match memchr(separator, bytes) {
        Some(at) => (&bytes[..at], &bytes[at + 1..]),
        None => (bytes, &[]),
    }
}

/// The bytes without the one CR at their end, if they have one.
fn without_cr(bytes: &[u8]) -> &[u8]
    ensures { result.now ≡ strip_carriage_return bytes.now }
{
    match bytes {
        [kept @ .., b'\r'] => kept,
        _ => bytes,
    }
}

/// The first line of a text, without its end, and the bytes after that; `None` if the text has no
/// line feed.
fn first_line(text: &[u8]) -> Option<(&[u8], &[u8])>
    ensures lines { IfSome result (λ r. lines text.now ≡ r.0.now ∷ lines r.1.now) }
    ensures shorter { IfSome result (λ r. length r.1.now < length text.now) }
    ensures none { IfNone result (is_closed text.now ≡ false) }
{
    match memchr(b'\n', text) {
        Some(end) => Some((without_cr(&text[..end]), &text[end + 1..])),
        None => None,
    }
}

/// Whether the line has an `=`.
fn has_equals(line: &[u8]) -> bool
    ensures { result ≡ has_equals line.now }
{
    line.contains(&b'=')
}

/// Whether the text is attributes, and then the empty line that closes it.
pub(crate) fn has_form(text: &[u8]) -> bool
    ensures form { result ≡ has_form text.now }
    ensures closed { result ≡ true → is_closed text.now ≡ true }
{
    let mut rest = text;
    while let Some((line, after)) = first_line(rest) {
        if line.is_empty() {
            return after.is_empty();
        }
        if !has_equals(line) {
            return false;
        }
        rest = after;
    }
    false
}

/// The value of the first attribute of this name, in a text that its one empty line closes.
pub(crate) fn attribute<'a>(text: &'a [u8], name: &[u8]) -> Option<&'a [u8]>
    requires { is_closed text.now ≡ true }
    ensures { option_copied result ≡ attribute text.now name.now }
{
    let mut rest = text;
    while let Some((line, after)) = first_line(rest) {
        if line.is_empty() {
            return None;
        }
        let (given, value) = around_first(b'=', line);
        if given == name {
            return Some(value);
        }
        rest = after;
    }
    None
}
