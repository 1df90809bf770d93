// The lines of a record, put into lent bytes at a place. Each function returns the place after its text.
#![tactic(auto)]

ghost use Rattle.std.specs.Prelude.{◌≡◌, map, ◌+◌, ◌<◌, ◌≤◌, length};
ghost use Rattle.put.specs.Put.{Put, Room};
ghost use Rattle.sip_terms.specs.Terms.{first_term};
ghost use Rattle.record_format.specs.Formats.{format_of, held_by};
ghost use Rattle.record_lines.specs.Names.{term_name};
ghost use Rattle.record_lines.specs.Lines.{text_of};
ghost use Rattle.record_lines.specs.Parts.{start_lines, cd_lines, head_lines, kept_line, numbers_of, axis_lines, error_lines, term_lines};

use record_format::Format;
use sip_terms::{Sip, Term};
use wcs::Wcs;

// The numbers of the lines before the terms.
#[derive(Clone, Copy)]
pub struct Head {
    pub format: u32,
    pub rows: usize,
    pub wcs: Wcs,
    pub order: u32,
}

// What the lines of one axis hold: its letter, and how many numbers stand in the list, one for each term.
#[derive(Clone, Copy)]
pub struct Axis {
    pub letter: u8,
    pub terms: usize,
    pub numbers: [f64; 18],
}

impl Axis {
    // What the lines of a format hold of a list of solved coefficients.
    pub fn of(number: u32, letter: u8, cs: &[f64]) -> Axis
        requires { length cs.now ≤ 18 }
        ensures { (result.letter ≡ letter) × (result.terms ≤ 18) × (numbers_of result ≡ map (held_by (format_of number)) cs.now) }
    {
        let format = Format::of(number);
        let mut numbers = [0.0f64; 18];
        for (i, c) in cs.iter().enumerate() {
            numbers[i] = format.held(*c);
        }
        Axis {
            letter,
            terms: cs.len(),
            numbers,
        }
    }
}

// The format, the rows used, and the reference pixel.
fn put_start(buf: &mut [u8], at: usize, h: Head) -> usize
    requires { Room buf.old at (text_of (start_lines h)) }
    ensures { Put buf.old at (text_of (start_lines h)) result buf.new }
{
    let wcs = h.wcs;
    let p = text::put_decimal_line(buf, at, b"format=", h.format as u64);
    let q = text::put_decimal_line(buf, p, b"rows=", h.rows as u64);
    let r = text::put_float_line(buf, q, b"crpix1=", wcs.crpix1);
    text::put_float_line(buf, r, b"crpix2=", wcs.crpix2)
}

// The CD numbers.
fn put_cd(buf: &mut [u8], at: usize, wcs: Wcs) -> usize
    requires { Room buf.old at (text_of (cd_lines wcs)) }
    ensures { Put buf.old at (text_of (cd_lines wcs)) result buf.new }
{
    let p = text::put_float_line(buf, at, b"cd1_1=", wcs.cd1_1);
    let q = text::put_float_line(buf, p, b"cd1_2=", wcs.cd1_2);
    let r = text::put_float_line(buf, q, b"cd2_1=", wcs.cd2_1);
    text::put_float_line(buf, r, b"cd2_2=", wcs.cd2_2)
}

// All lines before the terms.
pub fn put_head(buf: &mut [u8], at: usize, h: Head) -> usize
    requires { Room buf.old at (text_of (head_lines h)) }
    ensures { Put buf.old at (text_of (head_lines h)) result buf.new }
{
    let p = put_start(buf, at, h);
    let q = put_cd(buf, p, h.wcs);
    text::put_decimal_line(buf, q, b"order=", h.order as u64)
}

// The name of a term's line.
pub fn term_name(letter: u8, t: Term) -> [u8; 6]
    requires { t.p + t.q < 10 }
    ensures { result ≡ term_name letter t }
{
    [letter, b'_', 48 + t.p as u8, b'_', 48 + t.q as u8, b'=']
}

// The line of one coefficient, where it is kept.
fn put_term(buf: &mut [u8], at: usize, letter: u8, t: Term, c: f64) -> usize
    requires { (t.p + t.q < 10) × Room buf.old at (kept_line letter t c) }
    ensures { Put buf.old at (kept_line letter t c) result buf.new }
{
    if sip_terms::is_kept(c) {
        return text::put_float_line(buf, at, &term_name(letter, t), c);
    }
    at
}

// The lines of a list of coefficients, one number for each term.
fn put_terms(buf: &mut [u8], at: usize, letter: u8, cs: &[f64]) -> usize
    requires { (length cs.now ≤ 18) × Room buf.old at (text_of (term_lines letter first_term cs.now)) }
    ensures { Put buf.old at (text_of (term_lines letter first_term cs.now)) result buf.new }
{
    let mut m = at;
    let mut t = Term::first();
    for c in cs {
        m = put_term(buf, m, letter, t, *c);
        t = t.next();
    }
    m
}

// The lines of an axis.
pub fn put_axis(buf: &mut [u8], at: usize, x: Axis) -> usize
    requires { (x.terms ≤ 18) × Room buf.old at (text_of (axis_lines x)) }
    ensures { Put buf.old at (text_of (axis_lines x)) result buf.new }
{
    let n = x.terms;
    let cs = x.numbers;
    put_terms(buf, at, x.letter, &cs[..n])
}

// The errors.
pub fn put_errors(buf: &mut [u8], at: usize, fit: Sip) -> usize
    requires { Room buf.old at (text_of (error_lines fit)) }
    ensures { Put buf.old at (text_of (error_lines fit)) result buf.new }
{
    let p = text::put_float_line(buf, at, b"linear_rms=", fit.linear_rms);
    let q = text::put_float_line(buf, p, b"rms=", fit.rms);
    text::put_float_line(buf, q, b"wrms=", fit.wrms)
}
