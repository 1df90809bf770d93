// The record writer: it keeps the caller's buffer and the next free place together. Each function over it takes it apart and
// calls one of record_lines on the slice and the number; `write_lines` has plain parameters, so that its callers see no writer.
#![tactic(auto)]

ghost use Rattle.std.specs.Prelude.{◌≡◌, ◌≤◌};
ghost use Rattle.put.specs.Put.{Put, Room};
ghost use Rattle.record_lines.specs.Lines.{text_of};
ghost use Rattle.record_lines.specs.Parts.{head_lines, axis_lines, error_lines};
ghost use Rattle.record_writer.specs.Wrote.{wrote, parts_text};

use record_lines::{Axis, Head};
use sip_terms::Sip;

// The lent bytes, and the place of the next one.
#[derive(Drop)]
pub struct Writer<'a> {
    pub buf: &'a mut [u8],
    pub at: usize,
}

// A writer at the first place.
pub fn new<'a>(buf: &'a mut [u8]) -> Writer<'a>
    ensures { (result.buf ≡ buf.entry) × (result.at ≡ 0) }
{
    Writer { buf: buf, at: 0 }
}

// Writes the lines before the terms.
pub fn head<'a>(w: Writer<'a>, part: Head) -> Writer<'a>
    requires { Room w.buf.now w.at (text_of (head_lines part)) }
    ensures { result ≡ wrote w.entry (text_of (head_lines part)) }
{
    let at = w.at;
    let next = record_lines::put_head(&mut *w.buf, at, part);
    Writer {
        buf: w.buf,
        at: next,
    }
}

// Writes the lines of an axis.
pub fn axis<'a>(w: Writer<'a>, part: Axis) -> Writer<'a>
    requires { (part.terms ≤ 18) × Room w.buf.now w.at (text_of (axis_lines part)) }
    ensures { result ≡ wrote w.entry (text_of (axis_lines part)) }
{
    let at = w.at;
    let next = record_lines::put_axis(&mut *w.buf, at, part);
    Writer {
        buf: w.buf,
        at: next,
    }
}

// Writes the errors.
pub fn errors<'a>(w: Writer<'a>, part: Sip) -> Writer<'a>
    requires { Room w.buf.now w.at (text_of (error_lines part)) }
    ensures { result ≡ wrote w.entry (text_of (error_lines part)) }
{
    let at = w.at;
    let next = record_lines::put_errors(&mut *w.buf, at, part);
    Writer {
        buf: w.buf,
        at: next,
    }
}

// How far it came; the bytes stay.
pub fn finish<'a>(w: Writer<'a>) -> usize
    ensures { (result ≡ w.entry.at) × (w.exit.0.now ≡ w.entry.buf.now) }
{
    w.at
}

// Takes a writer over the bytes through each part of a record. The writer that it hands on holds the same bytes, lent for as long.
fn write_parts<'a>(buf: &'a mut [u8], start: Head, a: Axis, b: Axis, fit: Sip) -> Writer<'a>
    requires { (a.terms ≤ 18) × (b.terms ≤ 18) × Room buf.old 0 (parts_text start a b fit) }
    ensures same_reference { result.buf.ghost_name ≡ buf.entry.ghost_name }
    ensures wrote { Put buf.old 0 (parts_text start a b fit) result.at result.buf.now }
{
    let w = head(new(buf), start);
    let w = axis(w, a);
    let w = axis(w, b);
    errors(w, fit)
}

// Writes a whole record through a writer, and says how long it is.
pub fn write_lines(buf: &mut [u8], start: Head, a: Axis, b: Axis, fit: Sip) -> usize
    requires { (a.terms ≤ 18) × (b.terms ≤ 18) × Room buf.old 0 (parts_text start a b fit) }
    ensures { Put buf.old 0 (parts_text start a b fit) result buf.new }
{
    let w = write_parts(buf, start, a, b, fit);
    finish(w)
}
