ghost use Rattle.std.specs.Prelude.{◌≡◌};
ghost use Rattle.quota_units.specs.Units.{IsLeastUnits, units_of};

/// The storage units that hold `octets` octets: the least number of 1024-octet units (RFC 9208,
/// section 5.1).
///
/// Any number of octets is allowed. 0 octets need 0 units, and 1 octet needs 1 unit.
pub fn units_up(octets: u64) -> u64
    ensures least { IsLeastUnits octets result }
    ensures value { result ≡ units_of octets }
{
    octets.div_ceil(1024)
}
