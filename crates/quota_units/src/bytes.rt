ghost use Rattle.std.specs.Prelude.{◌≡◌};
ghost use Rattle.quota_units.specs.Bytes.{is_printable};

/// Whether a byte is printing ASCII or a space: 0x20 to 0x7E.
pub fn is_printable(byte: u8) -> bool
    ensures { result ≡ is_printable byte }
{
    (0x20..=0x7E).contains(&byte)
}
