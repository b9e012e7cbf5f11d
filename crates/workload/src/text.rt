// Text with a number in it.
ghost use Rattle.std.specs.Prelude.{◌≡◌, ◌++◌, OnOk};
ghost use Rattle.workload.specs.Texts.{numbered};

use itoa::Buffer;
use std::alloc::AllocError;

/// Appends `before`, then the number in decimal digits, and then `after`.
pub(crate) fn push_numbered(
    out: &mut Vec<u8>,
    before: &[u8],
    number: u64,
    after: &[u8],
) -> Result<(), AllocError>
    ensures { OnOk result (out.new.items ≡ out.old.items
        ++ numbered before.now number after.now) }
{
    out.extend_from_slice(before)?;
    out.extend_from_slice(Buffer::new().format(number).as_bytes())?;
    out.extend_from_slice(after)
}
