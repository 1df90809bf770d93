// `write_record`: the record of a solution, written into lent bytes.
#![tactic(auto)]

ghost use Rattle.std.specs.Prelude.{◌≡◌, ◌≤◌, length};
ghost use Rattle.answer.specs.Answers.{room_for, lent_after};
ghost use Rattle.put.specs.Put.{Put, Room};
ghost use Rattle.record.specs.Record.{solution, is_order, lengths_fit, input_answer, Passed, line_size, terms_size, record_size};
ghost use Rattle.record.specs.Record.{record_text, written_after, record_done, record_answer};

use answer::Refusal;
use record_format::Format;
use record_lines::{Axis, Head};
use sip_terms::Sip;
use wcs::Wcs;

// The most rows that a fit uses.
pub const MOST_ROWS: usize = 100;

// The bytes of the lines that every record has, but for the digits of the rows used.
const FIXED_SIZE: usize = 234;

// The bytes of a coefficient's line.
const LINE_SIZE: usize = 23;

// Whether an order is fitted.
fn is_order(order: u32) -> bool
    ensures { result ≡ is_order order }
{
    (Sip::LEAST_ORDER <= order) & (order <= Sip::MOST_ORDER)
}

// Whether there are as many coefficients as terms; an order that is not fitted has none, and nothing is compared.
fn lengths_fit(order: u32, a: usize, b: usize) -> bool
    ensures { result ≡ lengths_fit order a b }
{
    if !is_order(order) {
        return true;
    }
    let n = sip_terms::term_count(order);
    (a == n) & (b == n)
}

// The tests of the input, in their order.
fn check_input(fit: Sip, wcs: Wcs, order: u32, a: usize, b: usize) -> Result<(), Refusal>
    ensures { result ≡ input_answer fit wcs order a b }
{
    if MOST_ROWS < fit.rows_used {
        return Err(Refusal::Count);
    }
    if !lengths_fit(order, a, b) {
        return Err(Refusal::Lengths);
    }
    if !wcs.is_taken() {
        return Err(Refusal::Value);
    }
    if !is_order(order) {
        return Err(Refusal::Order);
    }
    Ok(())
}

// The bytes that a coefficient takes.
fn line_size(c: f64) -> usize
    ensures { (result ≡ line_size c) × (result ≤ 23) }
{
    if sip_terms::is_kept(c) {
        return LINE_SIZE;
    }
    0
}

// The bytes that a list of coefficients takes.
fn terms_size(cs: &[f64]) -> usize
    requires { length cs.now ≤ 18 }
    ensures { (result ≡ terms_size cs.now) × (result ≤ 414) }
{
    let mut m = 0usize;
    for c in cs {
        m += line_size(*c);
    }
    m
}

// The bytes of a record, known before the first is written.
fn record_size(rows: usize, a: &[f64], b: &[f64]) -> usize
    requires { (length a.now ≤ 18) × (length b.now ≤ 18) }
    ensures { result ≡ record_size rows a.now b.now }
{
    let digits = digits::decimal_len(rows as u64);
    FIXED_SIZE + digits + terms_size(a) + terms_size(b)
}

// Writes a record that has the room.
fn put_record(fit: Sip, wcs: Wcs, order: u32, a: &[f64], b: &[f64], text: &mut [u8]) -> usize
    requires { Passed (solution fit wcs order a.now b.now)
        × Room text.old 0 (record_text (solution fit wcs order a.now b.now)) }
    ensures { Put text.old 0
        (record_text (solution fit wcs order a.now b.now)) result text.new }
{
    let start = Head {
        format: Format::NEWEST,
        rows: fit.rows_used,
        wcs,
        order,
    };
    let first = Axis::of(Format::NEWEST, b'a', a);
    let second = Axis::of(Format::NEWEST, b'b', b);
    record_writer::write_lines(text, start, first, second, fit)
}

// Writes the record of an input that passed its tests, where it has the room.
fn write_checked(
    fit: Sip,
    wcs: Wcs,
    order: u32,
    a: &[f64],
    b: &[f64],
    text: &mut [u8],
) -> Result<usize, Refusal>
    requires { Passed (solution fit wcs order a.now b.now) }
    ensures { (result ≡ written_after
        (room_for (length (record_text (solution fit wcs order a.now b.now))) (length text.old))
        (length (record_text (solution fit wcs order a.now b.now))))
        × (text.new ≡ lent_after
        (room_for (length (record_text (solution fit wcs order a.now b.now))) (length text.old))
        (record_text (solution fit wcs order a.now b.now)) text.old) }
{
    let size = record_size(fit.rows_used, a, b);
    answer::room_for(size, text.len())?;
    Ok(put_record(fit, wcs, order, a, b, text))
}

// Writes the record of a solution, in the newest format, from the front of the text: what a fit hands back, the WCS that it
// stands on, its order and its coefficients as they were solved, one for each term, dropped ones included.
pub fn write_record(
    fit: Sip,
    wcs: Wcs,
    order: u32,
    a: &[f64],
    b: &[f64],
    text: &mut [u8],
) -> Result<usize, Refusal>
    ensures answer { result ≡ record_answer (solution fit wcs order a.now b.now) (length text.old) }
    ensures text { text.new ≡ lent_after
        (record_done (solution fit wcs order a.now b.now) (length text.old))
        (record_text (solution fit wcs order a.now b.now)) text.old }
{
    check_input(fit, wcs, order, a.len(), b.len())?;
    write_checked(fit, wcs, order, a, b, text)
}
