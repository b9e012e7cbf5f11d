ghost use Rattle.std.specs.Prelude.{◌≡◌};
ghost use Rattle.message_names.specs.Parts.{unique_of, base_of, info_of};
ghost use Rattle.message_names.specs.Sizes.{size_named, IsSizeNamed};
ghost use Rattle.message_names.specs.FlagLetters.{flags_of};

use crate::cuts::{after_two, around_first};
use crate::sizes::size_in_fields;
use quota_units::Flags;

/// What a message file name holds. The parts are borrowed from the name.
#[derive(Clone, Copy, Debug, PartialEq, Eq)]
pub struct NameParts<'a> {
    /// The bytes before the first `:`, or the whole name.
    pub unique: &'a [u8],
    /// The bytes before the first `,` of the unique part, or that whole part.
    pub base: &'a [u8],
    /// The octets that the unique part states, cut at 1099511627775.
    pub size: Option<u64>,
    /// The bytes after the first `:`, or none.
    pub info: &'a [u8],
    /// The flags that the info part states: the letters after its leading `2,`.
    pub flags: Flags,
}

/// The parts of a message file name (Maildir++). Every list of bytes is a name. Parsing allocates
/// no memory.
///
/// The size is stated at the first place in the unique part where `,S=` is followed by one or more
/// digits and then by a comma or the end of the part.
pub fn parse_name(name: &[u8]) -> NameParts<'_>
    ensures unique { result.unique.now ≡ unique_of name.now }
    ensures base { result.base.now ≡ base_of name.now }
    ensures info { result.info.now ≡ info_of name.now }
    ensures flags { result.flags ≡ flags_of name.now }
    ensures size { result.size ≡ size_named (unique_of name.now) }
    // The size is that of the first place that qualifies, and there is none exactly if no place
    // does.
    ensures first_place { IsSizeNamed (unique_of name.now) result.size }
{
    let (unique, info) = around_first(b':', name);
    let (base, fields) = around_first(b',', unique);
    NameParts {
        unique,
        base,
        size: size_in_fields(fields),
        info,
        flags: Flags::among(after_two(info)),
    }
}

/// The base of a message file name: the bytes before the first `,` of its unique part, or that
/// whole part. Size and flags are not read. This allocates no memory.
pub fn base_of(name: &[u8]) -> &[u8]
    ensures { result.now ≡ base_of name.now }
{
    let (unique, _info) = around_first(b':', name);
    let (base, _fields) = around_first(b',', unique);
    base
}
