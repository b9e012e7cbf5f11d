ghost use Rattle.std.specs.Prelude.{◌≡◌};
ghost use Rattle.quota_units.specs.Resources.{resource_of};

/// What a quota root can limit.
#[derive(Clone, Copy, Debug, PartialEq, Eq)]
pub enum Resource {
    /// STORAGE: the octets of the messages, in units of 1024 octets (RFC 9208, section 5.1).
    Storage,
    /// MESSAGE: the number of messages (RFC 9208, section 5.2).
    Message,
}

/// The resource of this name: `STORAGE` or `MESSAGE`, in any ASCII case; `None` for every other
/// name.
pub fn resource_named(name: &[u8]) -> Option<Resource>
    ensures { result ≡ resource_of name.now }
{
    if name.eq_ignore_ascii_case(b"STORAGE") {
        Some(Resource::Storage)
    } else if name.eq_ignore_ascii_case(b"MESSAGE") {
        Some(Resource::Message)
    } else {
        None
    }
}
