// Numbers put in digits: hexadecimal and decimal, with or without a sign.
#![tactic(auto)]

ghost use Rattle.std.specs.Prelude.{◌≡◌, ◌<◌, ◌≤◌, length};
ghost use Rattle.std.specs.Float.Ieee.{to_bits};
ghost use Rattle.std.specs.Float.{binary64};
ghost use Rattle.put.specs.Put.{Put, Room};
ghost use Rattle.digits.specs.Digits.{hex_of, hex_from, decimal_of, signed_of};

// The bits of a float; every NaN has those of one.
pub fn bits_of(x: f64) -> u64
    ensures { result ≡ to_bits binary64 x }
{
    // Only a NaN differs from itself, and `to_bits` takes none.
    if x == x {
        return f64::to_bits(x);
    }
    0x7ff8000000000000
}

// The lowercase hexadecimal digit of a number below 16.
fn hex_digit(d: u64) -> u8
    requires { d < 16 }
    ensures { result ≡ hex_of d }
{
    if d < 10 {
        return 48 + d as u8;
    }
    87 + d as u8
}

// Puts the 16 hexadecimal digits of a number.
pub fn put_hex(buf: &mut [u8], at: usize, n: u64) -> usize
    requires { Room buf.old at (hex_from 16 n) }
    ensures { Put buf.old at (hex_from 16 n) result buf.new }
{
    let mut p = at;
    for k in (0..16u64).rev() {
        buf[p] = hex_digit((n >> (4 * k)) % 16);
        p += 1;
    }
    p
}

// How many decimal digits a number has.
pub fn decimal_len(n: u64) -> usize
    ensures { (result ≡ length (decimal_of n)) × (result ≤ 20) }
{
    let mut left = n;
    let mut k = 1usize;
    // Each turn takes a digit off.
    while 10 <= left {
        left /= 10;
        k += 1;
    }
    k
}

// Puts a number in decimal.
pub fn put_decimal(buf: &mut [u8], at: usize, n: u64) -> usize
    requires { Room buf.old at (decimal_of n) }
    ensures { Put buf.old at (decimal_of n) result buf.new }
{
    if n < 10 {
        return put::put_byte(buf, at, 48 + n as u8);
    }
    let p = put_decimal(buf, at, n / 10);
    put::put_byte(buf, p, 48 + (n % 10) as u8)
}

// Puts a signed number in decimal, with a minus sign where it is below zero.
pub fn put_signed(buf: &mut [u8], at: usize, n: i64) -> usize
    requires { Room buf.old at (signed_of n) }
    ensures { Put buf.old at (signed_of n) result buf.new }
{
    if n < 0 {
        let p = put::put_byte(buf, at, 45);
        // The lowest number has no opposite of its type.
        return put_decimal(buf, p, (-1 - n) as u64 + 1);
    }
    put_decimal(buf, at, n as u64)
}
