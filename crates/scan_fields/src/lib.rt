// Fields read from a slice, at a place: a name, a number, and the text that has to follow it.
#![tactic(auto)]

ghost use Rattle.std.specs.Prelude.{◌≡◌};
ghost use Rattle.scan_fields.specs.Fields.{hex_field, decimal_field};

use scan::Wrong;

// Reads a name, a decimal number and an end, and returns the number and the place after the end.
#[tactic(auto, unfolding(crate::specs::Fields::decimal_field))]
pub fn decimal_field(s: &[u8], at: usize, name: &[u8], end: &[u8]) -> Result<(u64, usize), Wrong>
    ensures { result ≡ decimal_field name.now end.now s.now at }
{
    let p = scan::read_bytes(s, at, name)?;
    let (n, q) = scan_digits::read_decimal(s, p)?;
    Ok((n, scan::read_bytes(s, q, end)?))
}

// Reads a name, 16 hexadecimal digits and an end, and returns their number and the place after the end.
#[tactic(auto, unfolding(crate::specs::Fields::hex_field))]
pub fn hex_field(s: &[u8], at: usize, name: &[u8], end: &[u8]) -> Result<(u64, usize), Wrong>
    ensures { result ≡ hex_field name.now end.now s.now at }
{
    let p = scan::read_bytes(s, at, name)?;
    let (bits, q) = scan_digits::read_hex(s, p)?;
    Ok((bits, scan::read_bytes(s, q, end)?))
}
