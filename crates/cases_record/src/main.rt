// Replays cases of the record: a case a line on standard input, its answer a line on standard output,
// in the form of oracle/README.md. A lent output starts filled with the byte a5, as there.
#![tactic(auto)]

use std::io;
use std::io::{Stdout, Write};

// ---- write_record

fn call_record(
    out: &mut Stdout,
    rows_used: u64,
    wcs: &[f64],
    order: u32,
    a: &[f64],
    b: &[f64],
    sums: &[f64],
    text: &mut [u8],
) -> io::Result<()> {
    let mut written = 0xa5a5a5a5a5a5a5a5u64;
    let number = record_face::write_record(rows_used, wcs, order, a, b, sums, text, &mut written);
    cases::print_number(out, number as u64)?;
    cases::print_bytes(out, text)?;
    cases::print_field(out, written)?;
    cases::print_end(out)
}

fn write_record(out: &mut Stdout, s: &[u8], at: usize) -> io::Result<()> {
    let mut wcs = [0.0; 16];
    let mut a = [0.0; 32];
    let mut b = [0.0; 32];
    let mut sums = [0.0; 16];
    let mut text = [0xa5u8; 1200];
    let rows_used = cases::number_at(s, at);
    let w = cases::list_at(s, cases::field(s, at, 1), &mut wcs);
    let order = cases::word_at(s, cases::field(s, at, 2));
    let m = cases::list_at(s, cases::field(s, at, 3), &mut a);
    let n = cases::list_at(s, cases::field(s, at, 4), &mut b);
    let k = cases::list_at(s, cases::field(s, at, 5), &mut sums);
    let room = cases::room(s, cases::field(s, at, 6), &text);
    call_record(
        out,
        rows_used,
        &wcs[..w],
        order,
        &a[..m],
        &b[..n],
        &sums[..k],
        &mut text[..room],
    )
}

// ---- read_record

fn call_read(
    out: &mut Stdout,
    text: &[u8],
    wcs: &mut [f64],
    a: &mut [f64],
    b: &mut [f64],
    sums: &mut [f64],
) -> io::Result<()> {
    let mut format = 0xa5a5a5a5u32;
    let mut rows_used = 0xa5a5a5a5a5a5a5a5u64;
    let mut order = 0xa5a5a5a5u32;
    let mut line = 0xa5a5a5a5a5a5a5a5u64;
    let number = record_face::read_record(
        text,
        &mut format,
        &mut rows_used,
        wcs,
        &mut order,
        a,
        b,
        sums,
        &mut line,
    );
    cases::print_number(out, number as u64)?;
    cases::print_field(out, format as u64)?;
    cases::print_field(out, rows_used)?;
    cases::print_floats(out, wcs)?;
    cases::print_field(out, order as u64)?;
    cases::print_floats(out, a)?;
    cases::print_floats(out, b)?;
    cases::print_floats(out, sums)?;
    cases::print_field(out, line)?;
    cases::print_end(out)
}

fn read_record(out: &mut Stdout, s: &[u8], at: usize) -> io::Result<()> {
    let pattern = scan_digits::of_bits(0xa5a5a5a5a5a5a5a5);
    let mut text = [0u8; 2048];
    let mut wcs = [pattern; 32];
    let mut a = [pattern; 64];
    let mut b = [pattern; 64];
    let mut sums = [pattern; 32];
    let n = cases::list_at(s, at, &mut text);
    let w = cases::room(s, cases::field(s, at, 1), &wcs);
    let p = cases::room(s, cases::field(s, at, 2), &a);
    let q = cases::room(s, cases::field(s, at, 3), &b);
    let r = cases::room(s, cases::field(s, at, 4), &sums);
    call_read(
        out,
        &text[..n],
        &mut wcs[..w],
        &mut a[..p],
        &mut b[..q],
        &mut sums[..r],
    )
}

// ---- lines

// Answers the case that starts at a place; a line that is no case has the answer "?".
fn answer(out: &mut Stdout, s: &[u8], at: usize) -> io::Result<()> {
    if let Ok(p) = scan::read_bytes(s, at, b"write_record ") {
        return write_record(out, s, p);
    }
    if let Ok(p) = scan::read_bytes(s, at, b"read_record ") {
        return read_record(out, s, p);
    }
    out.write_all(b"?\n")
}

// Answers each line, of so many at most.
fn main(rt: HostRuntime) -> io::Result<()> {
    let mut input = rt.reader();
    let mut out = rt.stdout();
    let mut line = [0u8; 16384];
    for _ in 0..100000usize {
        let n = cases::read_line(&mut input, &mut line)?;
        if n == 0 {
            return Ok(());
        }
        answer(&mut out, &line[..n], 0)?;
    }
    Ok(())
}
