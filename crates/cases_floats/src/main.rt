// Replays cases of the float helpers: a case a line on standard input, its answer a line on
// standard output, in the form of oracle/README.md.
#![tactic(auto)]

use scan::Wrong;
use std::io;
use std::io::{Stdout, Write};

// The float at a place; NaN where no 16 digits stand there.
fn float_at(s: &[u8], at: usize) -> f64 {
    match scan_digits::read_hex(s, at) {
        Ok((bits, _)) => scan_digits::of_bits(bits),
        Err(_) => 0.0 / 0.0,
    }
}

// The number after a float and a space at a place.
fn number_after(s: &[u8], at: usize) -> Result<u64, Wrong> {
    let (_, p) = scan_digits::read_hex(s, at)?;
    let q = scan::read_bytes(s, p, b" ")?;
    Ok(scan_digits::read_decimal(s, q)?.0)
}

fn print_float(out: &mut Stdout, x: f64) -> io::Result<()> {
    let mut line = [0u8; 17];
    text::put_float_line(&mut line, 0, b"", x);
    out.write_all(&line)
}

fn print_signed(out: &mut Stdout, n: i32) -> io::Result<()> {
    let mut line = [0u8; 22];
    let p = digits::put_signed(&mut line, 0, n as i64);
    let q = put::put_byte(&mut line, p, 10);
    out.write_all(&line[..q])
}

// Answers the case that starts at a place; a line that is no case has the answer "?".
fn answer(out: &mut Stdout, s: &[u8], at: usize) -> io::Result<()> {
    if let Ok(p) = scan::read_bytes(s, at, b"magnitude ") {
        return print_float(out, floats::magnitude(float_at(s, p)));
    }
    if let Ok(p) = scan::read_bytes(s, at, b"floor ") {
        return print_signed(out, floats::floor(float_at(s, p)));
    }
    if let Ok(p) = scan::read_bytes(s, at, b"root ") {
        return print_float(out, root::root(float_at(s, p)));
    }
    if let Ok(p) = scan::read_bytes(s, at, b"power ") {
        let exponent = (number_after(s, p).unwrap_or(0) % 4294967296) as u32;
        return print_float(out, floats::power(float_at(s, p), exponent));
    }
    out.write_all(b"?\n")
}

// Answers each line.
fn answer_all(out: &mut Stdout, s: &[u8]) -> io::Result<()> {
    let mut at = 0;
    // Where a line ends the next one starts.
    while at < s.len() {
        answer(out, s, at)?;
        let end = scan::line_end(s, at);
        if s.len() <= end {
            return Ok(());
        }
        at = end + 1;
    }
    Ok(())
}

fn main(rt: HostRuntime) -> io::Result<()> {
    let mut cases = [0u8; 131072];
    let n = streams::read_full(&mut rt.stdin(), &mut cases)?;
    answer_all(&mut rt.stdout(), &cases[..n])
}
