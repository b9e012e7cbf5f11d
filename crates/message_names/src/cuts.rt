ghost use Rattle.std.specs.Prelude.{◌≡◌, ◌==◌};
ghost use Rattle.std.specs.List.{before_first, after_first};
ghost use Rattle.message_names.specs.FlagLetters.{after_two};

use memchr::memchr;

/// The bytes before the first separator, and the bytes after it; all the bytes and none if there is
/// no separator.
pub(crate) fn around_first(separator: u8, bytes: &[u8]) -> (&[u8], &[u8])
    ensures before { result.0.now ≡ before_first (λ b. b == separator) bytes.now }
    ensures after { result.1.now ≡ after_first (λ b. b == separator) bytes.now }
{
    match memchr(separator, bytes) {
        Some(at) => (&bytes[..at], &bytes[at + 1..]),
        None => (bytes, &[]),
    }
}

/// The bytes after a leading `2,` of an info part; none if the part begins with something else.
pub(crate) fn after_two(info: &[u8]) -> &[u8]
    ensures { result.now ≡ after_two info.now }
{
    match info {
        [b'2', b',', rest @ ..] => rest,
        _ => &[],
    }
}
