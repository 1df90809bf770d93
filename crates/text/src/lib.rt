// Lines of text, put into a buffer at a place.
#![tactic(auto)]

ghost use Rattle.std.specs.Float.Ieee.{to_bits};
ghost use Rattle.std.specs.Float.{binary64};
ghost use Rattle.put.specs.Put.{Put, Room};
ghost use Rattle.text.specs.Lines.{float_line, decimal_line};

// Puts a line: a name, the 16 digits of a float's bits, a newline.
pub fn put_float_line(buf: &mut [u8], at: usize, name: &[u8], x: f64) -> usize
    requires { Room buf.old at (float_line name.now (to_bits binary64 x)) }
    ensures { Put buf.old at (float_line name.now (to_bits binary64 x)) result buf.new }
{
    let p = put::put_bytes(buf, at, name);
    let q = digits::put_hex(buf, p, digits::bits_of(x));
    put::put_byte(buf, q, 10)
}

// Puts a line: a name, a number in decimal, a newline.
pub fn put_decimal_line(buf: &mut [u8], at: usize, name: &[u8], n: u64) -> usize
    requires { Room buf.old at (decimal_line name.now n) }
    ensures { Put buf.old at (decimal_line name.now n) result buf.new }
{
    let p = put::put_bytes(buf, at, name);
    let q = digits::put_decimal(buf, p, n);
    put::put_byte(buf, q, 10)
}
