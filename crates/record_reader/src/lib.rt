// A record, read part by part. A part is read where the one before it ends; once a line was wrong, all parts after it are
// read from the same place, and none of them moves it.
#![tactic(auto)]

ghost use Rattle.std.specs.Prelude.{◌≡◌, map, ◌+◌, ◌≤◌, length};
ghost use Rattle.sip_terms.specs.Terms.{first_term};
ghost use Rattle.record_format.specs.Formats.{format_of, solved_by};
ghost use Rattle.record_scan.specs.Slots.{read_slots};
ghost use Rattle.record_reader.specs.Reading.{start_spot, reals_in, record_in};
ghost use Rattle.record_reader.specs.Loaded.{start_in, cd_in, errors_in, shown_whole, shown_in, OrderShown, shown_terms};
ghost use Rattle.record_lines.specs.Table.{start_slots, cd_slots, term_slots, error_slots};

use record_format::Format;
use record_scan::{Spot, Test};
use sip_terms::{Sip, Term};
use wcs::Wcs;

// The format, the rows used and the reference pixel.
#[derive(Clone, Copy)]
struct Start {
    format: u32,
    rows: usize,
    crpix1: f64,
    crpix2: f64,
    next: Spot,
}

// The CD numbers and the order.
#[derive(Clone, Copy)]
struct Factors {
    cd1_1: f64,
    cd1_2: f64,
    cd2_1: f64,
    cd2_2: f64,
    order: u32,
    next: Spot,
}

// The errors.
#[derive(Clone, Copy)]
struct Errors {
    linear_rms: f64,
    rms: f64,
    wrms: f64,
    next: Spot,
}

// What a text shows beside the coefficients: its format, what a fit hands back, the WCS and the order.
#[derive(Clone, Copy)]
pub struct Shown {
    pub format: u32,
    pub fit: Sip,
    pub wcs: Wcs,
    pub order: u32,
}

// Why it shows nothing: the number of its first wrong line.
#[derive(Clone, Copy)]
pub struct WrongLine {
    pub line: u32,
}

// How many coefficients a text shows on each axis; one with a wrong line shows none.
pub fn terms(shown: Result<Shown, WrongLine>) -> usize
    requires { OrderShown shown }
    ensures { (result ≡ shown_terms shown) × (result ≤ 18) }
{
    match shown {
        Ok(is) => sip_terms::term_count(is.order),
        Err(_) => 0,
    }
}

// The format, the rows used and the reference pixel.
fn read_start(s: &[u8]) -> Start
    ensures { (result ≡ start_in (read_slots start_slots s.now start_spot)) × (result.next.line ≤ 5) }
{
    let begin = Spot {
        at: 0,
        line: 1,
        good: true,
    };
    let format = record_scan::whole_line(s, begin, b"format=", 1, Format::NEWEST as u64);
    let rows = record_scan::whole_line(s, format.next, b"rows=", 0, 100);
    let x = record_scan::real_line(s, rows.next, b"crpix1=", true, Test::Position);
    let y = record_scan::real_line(s, x.next, b"crpix2=", true, Test::Position);
    let next = y.next;
    Start {
        format: format.value as u32,
        rows: rows.value as usize,
        crpix1: scan_digits::of_bits(x.value),
        crpix2: scan_digits::of_bits(y.value),
        next,
    }
}

// The CD numbers and the order, in a format.
fn read_cd(s: &[u8], c: Spot, number: u32) -> Factors
    requires { c.line ≤ 5 }
    ensures { (result ≡ cd_in (read_slots (cd_slots (format_of number)) s.now c)) × (result.next.line ≤ 10)
        × (2 ≤ result.order) × (result.order ≤ 5) }
{
    let format = Format::of(number);
    let xx = record_scan::real_line(s, c, b"cd1_1=", true, Test::Finite);
    let xy = record_scan::real_line(s, xx.next, b"cd1_2=", true, Test::Finite);
    let yx = record_scan::real_line(s, xy.next, b"cd2_1=", true, Test::Finite);
    let yy = record_scan::real_line(s, yx.next, b"cd2_2=", true, Test::Finite);
    let least = format.least_order as u64;
    let order = record_scan::whole_line(s, yy.next, b"order=", least, format.most_order as u64);
    let next = order.next;
    Factors {
        cd1_1: scan_digits::of_bits(xx.value),
        cd1_2: scan_digits::of_bits(xy.value),
        cd2_1: scan_digits::of_bits(yx.value),
        cd2_2: scan_digits::of_bits(yy.value),
        order: order.value as u32,
        next,
    }
}

// The solved coefficients of an axis, in a format, as many as the list has places.
fn read_terms(s: &[u8], c: Spot, number: u32, letter: u8, out: &mut [f64]) -> Spot
    requires { (length out.old ≤ 18) × (c.line ≤ 100) }
    ensures { (result ≡ (read_slots (term_slots letter first_term (length out.old)) s.now c).next)
        × (out.new ≡ map (solved_by (format_of number))
        (reals_in (read_slots (term_slots letter first_term (length out.old)) s.now c)))
        × (result.line ≤ c.line + 18) }
{
    let format = Format::of(number);
    let mut here = c;
    let mut t = Term::first();
    for x in out {
        let l = record_scan::term_line(s, here, letter, t);
        *x = format.solved(scan_digits::of_bits(l.value));
        here = l.next;
        t = t.next();
    }
    here
}

// The errors.
fn read_errors(s: &[u8], c: Spot) -> Errors
    requires { c.line ≤ 100 }
    ensures { result ≡ errors_in (read_slots error_slots s.now c) }
{
    let linear = record_scan::real_line(s, c, b"linear_rms=", true, Test::Any);
    let plain = record_scan::real_line(s, linear.next, b"rms=", true, Test::Any);
    let weighted = record_scan::real_line(s, plain.next, b"wrms=", true, Test::Any);
    let next = weighted.next;
    Errors {
        linear_rms: scan_digits::of_bits(linear.value),
        rms: scan_digits::of_bits(plain.value),
        wrms: scan_digits::of_bits(weighted.value),
        next,
    }
}

// What a text of a length shows, of which all lines were read: nothing may follow the last one.
fn whole(len: usize, start: Start, cd: Factors, errors: Errors) -> Result<Shown, WrongLine>
    ensures { result ≡ shown_whole len start cd errors }
{
    let end = errors.next;
    if !(end.good & (len <= end.at)) {
        return Err(WrongLine { line: end.line });
    }
    let fit = Sip {
        rows_used: start.rows,
        linear_rms: errors.linear_rms,
        rms: errors.rms,
        wrms: errors.wrms,
    };
    let wcs = Wcs {
        crpix1: start.crpix1,
        crpix2: start.crpix2,
        cd1_1: cd.cd1_1,
        cd1_2: cd.cd1_2,
        cd2_1: cd.cd2_1,
        cd2_2: cd.cd2_2,
    };
    Ok(Shown {
        format: start.format,
        fit,
        wcs,
        order: cd.order,
    })
}

// Reads a text, its coefficients to the front of two lists.
pub fn load(s: &[u8], xs: &mut [f64], ys: &mut [f64]) -> Result<Shown, WrongLine>
    requires { (length xs.old ≡ 18) × (length ys.old ≡ 18) }
    ensures { (shown_in result xs.new ys.new ≡ record_in s.now)
        × OrderShown result × (length xs.new ≡ 18) × (length ys.new ≡ 18) }
{
    let start = read_start(s);
    let cd = read_cd(s, start.next, start.format);
    let n = sip_terms::term_count(cd.order);
    let here = read_terms(s, cd.next, start.format, b'a', &mut xs[..n]);
    let there = read_terms(s, here, start.format, b'b', &mut ys[..n]);
    let errors = read_errors(s, there);
    whole(s.len(), start, cd, errors)
}
