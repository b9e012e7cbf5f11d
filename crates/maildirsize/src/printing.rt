ghost use Rattle.std.specs.Prelude.{◌≡◌, ◌+◌, ◌<◌, ◌≤◌, ◌^◌, pos, [], ◌∷◌, ◌++◌, length, decimal};
ghost use Rattle.maildirsize.specs.Written.{written_definition, written_line, written_ledger, IsSmall};

use crate::text::Text;
use itoa::Buffer;
use quota_units::{Limits, Totals};

/// Sets the text to the written definition of the limits, such as `10000000S,1000C`; `0S` if none
/// is set.
///
/// The text has no line feed (Maildir++).
pub fn print_definition(limits: &Limits, out: &mut Text)
    ensures { out.new ≡ written_definition limits.now }
{
    out.clear();
    push_definition(limits, out);
}

/// Sets the text to the written sum line of these octets and messages, such as `-1234 -1`, with its
/// line feed. Both numbers must be below 10^18 in magnitude.
pub fn print_line(octets: i64, count: i64, out: &mut Text)
    requires { IsSmall (record { octets = octets; count = count }) }
    ensures { out.new ≡ written_line (record { octets = octets; count = count }) }
{
    out.clear();
    push_line(octets, count, out);
}

/// Sets the text to a whole ledger: the written definition of the limits, and one sum line of the
/// totals.
///
/// Each of the two lines has a line feed. Both totals must be below 2^63.
pub fn print_folded(limits: &Limits, totals: &Totals, out: &mut Text)
    requires octets { totals.now.octets < 2 ^ 63 }
    requires count { totals.now.count < 2 ^ 63 }
    ensures { out.new ≡ written_ledger limits.now
        (record { octets = pos totals.now.octets; count = pos totals.now.count } ∷ []) }
{
    out.clear();
    push_definition(limits, out);
    out.push(b"\n");
    push_line(totals.octets as i64, totals.count as i64, out);
}

/// Adds the written definition to the empty text.
fn push_definition(limits: &Limits, out: &mut Text)
    requires { out.old ≡ [] }
    ensures text { out.new ≡ written_definition limits.now }
    ensures short { length out.new ≤ 43 }
{
    match (limits.octets(), limits.count()) {
        (None, None) => out.push(b"0S"),
        (Some(octets), None) => push_limit(octets, b"S", out),
        (None, Some(count)) => push_limit(count, b"C", out),
        (Some(octets), Some(count)) => {
            push_limit(octets, b"S,", out);
            push_limit(count, b"C", out);
        }
    }
}

/// Adds a limit's number and letter at the end.
fn push_limit(number: u64, letter: &[u8], out: &mut Text)
    requires { length out.old + length letter.now ≤ 100 }
    ensures text { out.new ≡ out.old ++ (decimal number ++ letter.now) }
    ensures short { length out.new ≤ length out.old + length letter.now + 20 }
{
    out.push(Buffer::new().format(number).as_bytes());
    out.push(letter);
}

/// Adds the written sum line at the end.
fn push_line(octets: i64, count: i64, out: &mut Text)
    requires { length out.old ≤ 86 }
    ensures { out.new ≡ out.old ++ written_line (record { octets = octets; count = count }) }
{
    out.push(Buffer::new().format(octets).as_bytes());
    out.push(b" ");
    out.push(Buffer::new().format(count).as_bytes());
    out.push(b"\n");
}
