// The program `record_check` over slices: a text is read as a record, and what it shows is written, or its first wrong line.
#![tactic(auto)]

ghost use Rattle.std.specs.Prelude.{◌≡◌, ◌+◌, ◌<◌, ◌≤◌, length, take, drop};
ghost use Rattle.put.specs.Put.{Put, Room};
ghost use Rattle.sip_terms.specs.Terms.{first_term};
ghost use Rattle.record_lines.specs.Lines.{text_of, number_line};
ghost use Rattle.record_lines.specs.Names.{term_name};
ghost use Rattle.record.specs.Record.{solution};
ghost use Rattle.record_program.specs.Program.{all_lines, shown_text, wrong_text, program_text};

use record_lines::Head;
use record_load::LoadError;
use sip_terms::{Sip, Term};
use wcs::Wcs;

// Puts the line of one coefficient.
fn put_number(buf: &mut [u8], at: usize, letter: u8, t: Term, c: f64) -> usize
    requires { (t.p + t.q < 10) × Room buf.old at (number_line (term_name letter t) c) }
    ensures { Put buf.old at (number_line (term_name letter t) c) result buf.new }
{
    text::put_float_line(buf, at, &record_lines::term_name(letter, t), c)
}

// Puts the lines of a list of coefficients, one number for each term.
fn put_numbers(buf: &mut [u8], at: usize, letter: u8, cs: &[f64]) -> usize
    requires { (length cs.now ≤ 18) × Room buf.old at (text_of (all_lines letter first_term cs.now)) }
    ensures { Put buf.old at (text_of (all_lines letter first_term cs.now)) result buf.new }
{
    let mut m = at;
    let mut t = Term::first();
    for c in cs {
        m = put_number(buf, m, letter, t, *c);
        t = t.next();
    }
    m
}

// Puts the numbers that were read.
fn put_shown(
    buf: &mut [u8],
    format: u32,
    fit: Sip,
    wcs: Wcs,
    order: u32,
    a: &[f64],
    b: &[f64],
) -> usize
    requires { (length a.now ≤ 18) × (length b.now ≤ 18)
        × Room buf.old 0 (shown_text format (solution fit wcs order a.now b.now)) }
    ensures { Put buf.old 0
        (shown_text format (solution fit wcs order a.now b.now)) result buf.new }
{
    let head = Head {
        format,
        rows: fit.rows_used,
        wcs,
        order,
    };
    let p = text::put_decimal_line(buf, 0, b"status=", 0);
    let q = record_lines::put_head(buf, p, head);
    let r = put_numbers(buf, q, b'a', a);
    let s = put_numbers(buf, r, b'b', b);
    record_lines::put_errors(buf, s, fit)
}

// Puts the number of the first wrong line.
fn put_wrong(buf: &mut [u8], line: u32) -> usize
    requires { Room buf.old 0 (wrong_text line) }
    ensures { Put buf.old 0 (wrong_text line) result buf.new }
{
    let p = text::put_decimal_line(buf, 0, b"status=", 10);
    text::put_decimal_line(buf, p, b"line=", line as u64)
}

// Puts the text that the program prints for a text at the front of out, and says how long it is.
pub fn answer(s: &[u8], out: &mut [u8; 1074]) -> usize
    ensures text { take result out.new ≡ program_text s.now }
    ensures count { result ≡ length (program_text s.now) }
    ensures rest { drop result out.new ≡ drop result out.old }
    ensures fits { (result ≤ length out.new) × (result ≡ length (take result out.new)) }
{
    let mut a = [0.0f64; 18];
    let mut b = [0.0f64; 18];
    match record_load::read_record(s, &mut a, &mut b) {
        Ok(is) => {
            let n = sip_terms::term_count(is.order);
            put_shown(out, is.format, is.fit, is.wcs, is.order, &a[..n], &b[..n])
        }
        Err(LoadError::Wrong(wrong)) => put_wrong(out, wrong.line),
        // Eighteen places are room for every order: no text leads here.
        Err(LoadError::Refused(_)) => 0,
    }
}
