// Replays cases of the SIP fit: a case a line on standard input, its answer a line on standard output,
// in the form of oracle/README.md. A lent output starts filled with the byte a5, as there.
#![tactic(auto)]

ghost use Rattle.std.specs.Prelude.{◌≡◌, length};

use std::io;
use std::io::{Stdout, Write};

fn call_sip(
    out: &mut Stdout,
    px: &[f64],
    py: &[f64],
    xi: &[f64],
    eta: &[f64],
    snr: &[f64],
    wcs: &[f64],
    order: u32,
    a: &mut [f64],
    b: &mut [f64],
    sums: &mut [f64],
) -> io::Result<()> {
    let mut rows_used = 0xa5a5a5a5a5a5a5a5u64;
    let number = sip_face::fit_sip(px, py, xi, eta, snr, wcs, order, a, b, &mut rows_used, sums);
    cases::print_number(out, number as u64)?;
    cases::print_floats(out, a)?;
    cases::print_floats(out, b)?;
    cases::print_field(out, rows_used)?;
    cases::print_floats(out, sums)?;
    cases::print_end(out)
}

// What is lent, of the lengths that the case names.
fn lend_lists(
    out: &mut Stdout,
    s: &[u8],
    at: usize,
    px: &[f64],
    py: &[f64],
    xi: &[f64],
    eta: &[f64],
    snr: &[f64],
    wcs: &[f64],
) -> io::Result<()> {
    let pattern = scan_digits::of_bits(0xa5a5a5a5a5a5a5a5);
    let mut a = [pattern; 64];
    let mut b = [pattern; 64];
    let mut sums = [pattern; 16];
    let rooms = cases::field(s, at, 7);
    let p = cases::room(s, rooms, &a);
    let q = cases::room(s, cases::member(s, rooms, 1), &b);
    let r = cases::room(s, cases::member(s, rooms, 2), &sums);
    let order = cases::word_at(s, cases::field(s, at, 6));
    call_sip(
        out,
        px,
        py,
        xi,
        eta,
        snr,
        wcs,
        order,
        &mut a[..p],
        &mut b[..q],
        &mut sums[..r],
    )
}

fn fit_sip(
    out: &mut Stdout,
    s: &[u8],
    at: usize,
    px: &[f64],
    py: &[f64],
    xi: &[f64],
    eta: &[f64],
) -> io::Result<()> {
    let mut snr = [0.0; 102];
    let mut wcs = [0.0; 16];
    let n = cases::list_at(s, cases::field(s, at, 4), &mut snr);
    let k = cases::list_at(s, cases::field(s, at, 5), &mut wcs);
    lend_lists(out, s, at, px, py, xi, eta, &snr[..n], &wcs[..k])
}

// Every case begins with the four lists of rows.
fn read_rows(out: &mut Stdout, s: &[u8], at: usize) -> io::Result<()> {
    let mut px = [0.0; 102];
    let mut py = [0.0; 102];
    let mut xi = [0.0; 102];
    let mut eta = [0.0; 102];
    let a = cases::list_at(s, at, &mut px);
    let b = cases::list_at(s, cases::field(s, at, 1), &mut py);
    let c = cases::list_at(s, cases::field(s, at, 2), &mut xi);
    let d = cases::list_at(s, cases::field(s, at, 3), &mut eta);
    fit_sip(out, s, at, &px[..a], &py[..b], &xi[..c], &eta[..d])
}

// Answers the case that starts at a place; a line that is no case has the answer "?".
fn answer(out: &mut Stdout, s: &[u8], at: usize) -> io::Result<()> {
    if let Ok(p) = scan::read_bytes(s, at, b"fit_sip ") {
        return read_rows(out, s, p);
    }
    out.write_all(b"?\n")
}

// Answers each line.
fn answer_all(out: &mut Stdout, s: &[u8]) -> io::Result<()> {
    let mut at = 0;
    // Where a line ends the next one starts.
    while at < s.len() {
        answer(out, s, at)?;
        let end = scan::line_end(s, at);
        if s.len() <= end {
            return Ok(());
        }
        at = end + 1;
    }
    Ok(())
}

// Room for all cases. The length is promised, so that no proof about the room writes its bytes out.
fn room() -> [u8; 524288]
    ensures { 524288 ≡ length result }
{
    [0; 524288]
}

fn main(rt: HostRuntime) -> io::Result<()> {
    let mut cases = room();
    let n = streams::read_full(&mut rt.stdin(), &mut cases)?;
    answer_all(&mut rt.stdout(), &cases[..n])
}
