// Numbers read from a slice, at a place.
#![tactic(auto)]

ghost use Rattle.std.specs.Prelude.{◌≡◌, ◌<◌, ◌≤◌, drop, MatchOption};
ghost use Rattle.std.specs.Float.Ieee.{of_bits};
ghost use Rattle.std.specs.Float.{binary64};
ghost use Rattle.scan_digits.specs.Read.{hex_value, read_hex, decimal_value, held, more_decimal, read_decimal};

use scan::Wrong;

// The value of a lowercase hexadecimal digit.
#[tactic(auto, unfolding(crate::specs::Read::hex_value))]
fn hex_value(b: u8) -> Option<u64>
    ensures { MatchOption result (16 ≤ hex_value b) (λ d. (d ≡ hex_value b) × (d < 16)) }
{
    match b {
        b'0'..=b'9' => Some((b - b'0') as u64),
        b'a'..=b'f' => Some((b - b'a' + 10) as u64),
        _ => None,
    }
}

// Reads 16 lowercase hexadecimal digits, and returns their number and the place after them.
pub fn read_hex(s: &[u8], at: usize) -> Result<(u64, usize), Wrong>
    ensures { result ≡ read_hex 16 (drop at s.now) at 0 }
{
    let mut p = at;
    let mut acc = 0u64;
    for _ in 0..16usize {
        if s.len() <= p {
            return Err(Wrong { at: p });
        }
        let Some(d) = hex_value(s[p]) else {
            return Err(Wrong { at: p });
        };
        acc = acc * 16 + d;
        p += 1;
    }
    Ok((acc, p))
}

// The value of a decimal digit.
#[tactic(auto, unfolding(crate::specs::Read::decimal_value))]
fn decimal_value(b: u8) -> Option<u64>
    ensures { MatchOption result (10 ≤ decimal_value b) (λ d. (d ≡ decimal_value b) × (d < 10)) }
{
    match b {
        b'0'..=b'9' => Some((b - b'0') as u64),
        _ => None,
    }
}

// The number, held at 2 to the 32.
fn held_at(n: u64) -> u64
    ensures { (result ≡ held n) × (result ≤ 4294967296) }
{
    if 4294967296 < n {
        return 4294967296;
    }
    n
}

// Reads the digits that follow those of `first`, and returns the number and the place after it.
fn more_decimal(s: &[u8], at: usize, first: u64) -> (u64, usize)
    requires { first ≤ 4294967296 }
    ensures { Ok result ≡ more_decimal (drop at s.now) at first }
{
    let mut acc = first;
    for p in at..s.len() {
        let Some(d) = decimal_value(s[p]) else {
            return (acc, p);
        };
        acc = held_at(acc * 10 + d);
    }
    (acc, at.max(s.len()))
}

// Reads a decimal number without leading zeros, held at 2 to the 32, and returns it and the place after it.
pub fn read_decimal(s: &[u8], at: usize) -> Result<(u64, usize), Wrong>
    ensures { result ≡ read_decimal (drop at s.now) at }
{
    if s.len() <= at {
        return Err(Wrong { at });
    }
    match decimal_value(s[at]) {
        None => Err(Wrong { at }),
        Some(0) => Ok((0, at + 1)),
        Some(d) => Ok(more_decimal(s, at + 1, d)),
    }
}

// The float of a bit pattern; every NaN's pattern gives the one NaN.
pub fn of_bits(n: u64) -> f64
    ensures { result ≡ of_bits binary64 n }
{
    // `from_bits` takes no NaN: an exponent of all ones with a fraction that is not 0.
    if n % 9223372036854775808 / 4503599627370496 != 2047 {
        return f64::from_bits(n);
    }
    if n % 4503599627370496 == 0 {
        return f64::from_bits(n);
    }
    0.0 / 0.0
}
