// Replays cases of the CD run and of the clip: a case a line on standard input, its answer a line on
// standard output, in the form of oracle/README.md. A lent output starts filled with the byte a5, as there.
#![tactic(auto)]

use std::io;
use std::io::{Stdout, Write};

// ---- the run

fn call_run(
    out: &mut Stdout,
    px: &[f64],
    py: &[f64],
    xi: &[f64],
    eta: &[f64],
    votes: &[u32],
    limit: f64,
    trials: u32,
    mask: &mut [u8],
) -> io::Result<()> {
    let mut tested = 0xa5u8;
    let mut on = 0xa5a5a5a5a5a5a5a5u64;
    let number = run_face::ransac_fit(
        px,
        py,
        xi,
        eta,
        votes,
        limit,
        trials,
        mask,
        &mut tested,
        &mut on,
    );
    cases::print_number(out, number as u64)?;
    cases::print_bytes(out, mask)?;
    cases::print_field(out, tested as u64)?;
    cases::print_field(out, on)?;
    cases::print_end(out)
}

fn ransac_fit(
    out: &mut Stdout,
    s: &[u8],
    at: usize,
    px: &[f64],
    py: &[f64],
    xi: &[f64],
    eta: &[f64],
) -> io::Result<()> {
    let mut votes = [0u32; 101];
    let n = cases::list_at(s, cases::field(s, at, 4), &mut votes);
    let limit = cases::float_at(s, cases::field(s, at, 5));
    let trials = cases::word_at(s, cases::field(s, at, 6));
    let mut mask = [0xa5u8; 128];
    let room = cases::room(s, cases::field(s, at, 7), &mask);
    call_run(
        out,
        px,
        py,
        xi,
        eta,
        &votes[..n],
        limit,
        trials,
        &mut mask[..room],
    )
}

// ---- the clip

fn call_clip(
    out: &mut Stdout,
    px: &[f64],
    py: &[f64],
    xi: &[f64],
    eta: &[f64],
    mask: &mut [u8],
    cd: &mut [f64],
    weights: &[f64],
) -> io::Result<()> {
    let number = clip_face::sigma_clip_loop_weighted(px, py, xi, eta, mask, cd, weights);
    cases::print_number(out, number as u64)?;
    cases::print_bytes(out, mask)?;
    cases::print_floats(out, cd)?;
    cases::print_end(out)
}

fn sigma_clip_loop_weighted(
    out: &mut Stdout,
    s: &[u8],
    at: usize,
    px: &[f64],
    py: &[f64],
    xi: &[f64],
    eta: &[f64],
) -> io::Result<()> {
    let mut mask = [0u8; 101];
    let mut cd = [0.0; 16];
    let mut weights = [0.0; 101];
    let a = cases::list_at(s, cases::field(s, at, 4), &mut mask);
    let b = cases::list_at(s, cases::field(s, at, 5), &mut cd);
    let c = cases::list_at(s, cases::field(s, at, 6), &mut weights);
    call_clip(
        out,
        px,
        py,
        xi,
        eta,
        &mut mask[..a],
        &mut cd[..b],
        &weights[..c],
    )
}

// ---- lines

// Every case begins with the four lists of rows; its call has a number.
fn read_rows(out: &mut Stdout, s: &[u8], at: usize, call: u8) -> io::Result<()> {
    let mut px = [0.0; 101];
    let mut py = [0.0; 101];
    let mut xi = [0.0; 101];
    let mut eta = [0.0; 101];
    let a = cases::list_at(s, at, &mut px);
    let b = cases::list_at(s, cases::field(s, at, 1), &mut py);
    let c = cases::list_at(s, cases::field(s, at, 2), &mut xi);
    let d = cases::list_at(s, cases::field(s, at, 3), &mut eta);
    if call == 0 {
        return ransac_fit(out, s, at, &px[..a], &py[..b], &xi[..c], &eta[..d]);
    }
    sigma_clip_loop_weighted(out, s, at, &px[..a], &py[..b], &xi[..c], &eta[..d])
}

// Answers the case that starts at a place; a line that is no case has the answer "?".
fn answer(out: &mut Stdout, s: &[u8], at: usize) -> io::Result<()> {
    if let Ok(p) = scan::read_bytes(s, at, b"ransac_fit ") {
        return read_rows(out, s, p, 0);
    }
    if let Ok(p) = scan::read_bytes(s, at, b"sigma_clip_loop_weighted ") {
        return read_rows(out, s, p, 1);
    }
    out.write_all(b"?\n")
}

// Answers each line, of so many at most.
fn main(rt: HostRuntime) -> io::Result<()> {
    let mut input = rt.reader();
    let mut out = rt.stdout();
    let mut line = [0u8; 16384];
    for _ in 0..100000usize {
        let n = cases::read_line(&mut input, &mut line)?;
        if n == 0 {
            return Ok(());
        }
        answer(&mut out, &line[..n], 0)?;
    }
    Ok(())
}
