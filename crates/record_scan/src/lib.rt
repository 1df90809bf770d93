// The lines of a record, read one by one. A line is right where it is, byte for byte, the line that the writer puts for the
// number that stands in it, and the number is one that the line may hold.
#![tactic(auto)]

ghost use Rattle.std.specs.Prelude.{◌≡◌, ◌+◌, ◌<◌, ◌≤◌};
ghost use Rattle.record_lines.specs.Table.{whole_slot, term_slot};
ghost use Rattle.record_scan.specs.Slots.{test_of, real_slot, step_of, missed_line, read_slot};

use sip_terms::Term;

// Where the next line starts and its number; once a line was wrong, where that one starts.
#[derive(Clone, Copy)]
pub struct Spot {
    pub at: usize,
    pub line: u32,
    pub good: bool,
}

// The number of a line, and where the next one starts.
#[derive(Clone, Copy)]
pub struct Line {
    pub value: u64,
    pub next: Spot,
}

// What the float of a line may be.
#[derive(Clone, Copy)]
pub enum Test {
    Position,
    Finite,
    Any,
    Kept,
}

impl Test {
    // Whether a float passes.
    fn holds(self, x: f64) -> bool
        ensures { result ≡ test_of self x }
    {
        match self {
            Test::Position => domain::is_position(x),
            Test::Finite => domain::is_finite(x),
            Test::Any => true,
            Test::Kept => sip_terms::is_kept(x),
        }
    }
}

// A line that does not stand: it shows the blank number, and is wrong if it must stand.
fn missed(c: Spot, must: bool, blank: u64) -> Line
    ensures { result ≡ missed_line c must blank }
{
    Line {
        value: blank,
        next: Spot {
            at: c.at,
            line: c.line,
            good: c.good & !must,
        },
    }
}

// A line that stands up to a place, and may hold its number or not.
fn step(c: Spot, must: bool, blank: u64, ok: bool, value: u64, next: usize) -> Line
    requires { c.line < 1000 }
    ensures { result ≡ step_of c must blank ok value (Ok next) }
{
    if !(c.good & ok) {
        return missed(c, must, blank);
    }
    Line {
        value,
        next: Spot {
            at: next,
            line: c.line + 1,
            good: true,
        },
    }
}

// A line with a decimal number from a least to a most.
pub fn whole_line(s: &[u8], c: Spot, name: &[u8], least: u64, most: u64) -> Line
    requires { (c.line < 1000) × (least ≤ most) × (most < 4294967296) }
    ensures { (result ≡ read_slot (whole_slot name.now least most) s.now c)
        × (result.next.line ≤ c.line + 1) × (least ≤ result.value) × (result.value ≤ most) }
{
    match scan_fields::decimal_field(s, c.at, name, b"\n") {
        Err(_) => missed(c, true, least),
        Ok((n, next)) => step(c, true, least, (least <= n) & (n <= most), n, next),
    }
}

// A line with a float that passes a test.
pub fn real_line(s: &[u8], c: Spot, name: &[u8], must: bool, test: Test) -> Line
    requires { c.line < 1000 }
    ensures { (result ≡ read_slot (real_slot name.now must test) s.now c) × (result.next.line ≤ c.line + 1) }
{
    match scan_fields::hex_field(s, c.at, name, b"\n") {
        Err(_) => missed(c, must, 0),
        Ok((bits, next)) => {
            let x = scan_digits::of_bits(bits);
            // The writer puts one pattern for every NaN.
            let ok = (digits::bits_of(x) == bits) & test.holds(x);
            step(c, must, 0, ok, bits, next)
        }
    }
}

// A coefficient's line, which may be left out, and holds a number that is kept.
pub fn term_line(s: &[u8], c: Spot, letter: u8, t: Term) -> Line
    requires { (t.p + t.q < 10) × (c.line < 1000) }
    ensures { (result ≡ read_slot (term_slot letter t) s.now c) × (result.next.line ≤ c.line + 1) }
{
    real_line(s, c, &record_lines::term_name(letter, t), false, Test::Kept)
}
