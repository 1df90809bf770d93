// Replays cases of the solvers: a case a line on standard input, its answer a line on standard output,
// in the form of oracle/README.md. A lent output starts filled with the byte a5, as there.
#![tactic(auto)]

ghost use Rattle.std.specs.Prelude.{◌≡◌, length};

use std::io;
use std::io::{Stdout, Write};

// ---- calls on rows

fn print_answer(out: &mut Stdout, number: u32, list: &[f64]) -> io::Result<()> {
    cases::print_number(out, number as u64)?;
    cases::print_floats(out, list)?;
    cases::print_end(out)
}

fn call_fit(
    out: &mut Stdout,
    px: &[f64],
    py: &[f64],
    xi: &[f64],
    eta: &[f64],
    mask: &[u8],
    cd: &mut [f64],
) -> io::Result<()> {
    let number = fit_face::fit_cd_matrix_6(px, py, xi, eta, mask, cd);
    print_answer(out, number, cd)
}

fn fit_cd_matrix_6(
    out: &mut Stdout,
    s: &[u8],
    at: usize,
    px: &[f64],
    py: &[f64],
    xi: &[f64],
    eta: &[f64],
    mask: &[u8],
) -> io::Result<()> {
    let pattern = scan_digits::of_bits(0xa5a5a5a5a5a5a5a5);
    let mut cd = [pattern; 16];
    let room = cases::room(s, cases::field(s, at, 5), &cd);
    call_fit(out, px, py, xi, eta, mask, &mut cd[..room])
}

fn call_weighted(
    out: &mut Stdout,
    px: &[f64],
    py: &[f64],
    xi: &[f64],
    eta: &[f64],
    mask: &[u8],
    weights: &[f64],
    cd: &mut [f64],
) -> io::Result<()> {
    let number = fit_face::fit_cd_weighted(px, py, xi, eta, mask, weights, cd);
    print_answer(out, number, cd)
}

fn fit_cd_weighted(
    out: &mut Stdout,
    s: &[u8],
    at: usize,
    px: &[f64],
    py: &[f64],
    xi: &[f64],
    eta: &[f64],
    mask: &[u8],
) -> io::Result<()> {
    let pattern = scan_digits::of_bits(0xa5a5a5a5a5a5a5a5);
    let mut weights = [0.0; 101];
    let n = cases::list_at(s, cases::field(s, at, 5), &mut weights);
    let mut cd = [pattern; 16];
    let room = cases::room(s, cases::field(s, at, 6), &cd);
    call_weighted(out, px, py, xi, eta, mask, &weights[..n], &mut cd[..room])
}

fn call_errors(
    out: &mut Stdout,
    px: &[f64],
    py: &[f64],
    xi: &[f64],
    eta: &[f64],
    mask: &[u8],
    cd: &[f64],
    errors: &mut [f64],
) -> io::Result<()> {
    let number = errors_face::compute_pixel_errors(px, py, xi, eta, mask, cd, errors);
    print_answer(out, number, errors)
}

fn compute_pixel_errors(
    out: &mut Stdout,
    s: &[u8],
    at: usize,
    px: &[f64],
    py: &[f64],
    xi: &[f64],
    eta: &[f64],
    mask: &[u8],
) -> io::Result<()> {
    let pattern = scan_digits::of_bits(0xa5a5a5a5a5a5a5a5);
    let mut cd = [0.0; 16];
    let n = cases::list_at(s, cases::field(s, at, 5), &mut cd);
    let mut errors = [pattern; 101];
    let room = cases::room(s, cases::field(s, at, 6), &errors);
    call_errors(out, px, py, xi, eta, mask, &cd[..n], &mut errors[..room])
}

fn call_residuals(
    out: &mut Stdout,
    px: &[f64],
    py: &[f64],
    xi: &[f64],
    eta: &[f64],
    wcs: &[f64],
    err_x: &mut [f64],
    err_y: &mut [f64],
    err_px: &mut [f64],
) -> io::Result<()> {
    let mut residuals = 0xa5a5a5a5a5a5a5a5u64;
    let number = errors_face::compute_residuals(
        px,
        py,
        xi,
        eta,
        wcs,
        err_x,
        err_y,
        err_px,
        &mut residuals,
    );
    cases::print_number(out, number as u64)?;
    cases::print_floats(out, err_x)?;
    cases::print_floats(out, err_y)?;
    cases::print_floats(out, err_px)?;
    cases::print_field(out, residuals)?;
    cases::print_end(out)
}

fn compute_residuals(
    out: &mut Stdout,
    s: &[u8],
    at: usize,
    px: &[f64],
    py: &[f64],
    xi: &[f64],
    eta: &[f64],
) -> io::Result<()> {
    let pattern = scan_digits::of_bits(0xa5a5a5a5a5a5a5a5);
    let mut wcs = [0.0; 16];
    let n = cases::list_at(s, cases::field(s, at, 4), &mut wcs);
    let mut x = [pattern; 101];
    let mut y = [pattern; 101];
    let mut all = [pattern; 101];
    let rooms = cases::field(s, at, 5);
    let a = cases::room(s, rooms, &x);
    let b = cases::room(s, cases::member(s, rooms, 1), &y);
    let c = cases::room(s, cases::member(s, rooms, 2), &all);
    call_residuals(
        out,
        px,
        py,
        xi,
        eta,
        &wcs[..n],
        &mut x[..a],
        &mut y[..b],
        &mut all[..c],
    )
}

// ---- calls without rows

fn print_rms(out: &mut Stdout, number: u32, rms: f64) -> io::Result<()> {
    cases::print_number(out, number as u64)?;
    cases::print_space(out)?;
    cases::print_float(out, rms)?;
    cases::print_end(out)
}

fn rms_error(out: &mut Stdout, s: &[u8], at: usize) -> io::Result<()> {
    let mut errors = [0.0; 101];
    let n = cases::list_at(s, at, &mut errors);
    let mut rms = scan_digits::of_bits(0xa5a5a5a5a5a5a5a5);
    let number = errors_face::rms_error(&errors[..n], &mut rms);
    print_rms(out, number, rms)
}

fn weighted_rms_error(out: &mut Stdout, s: &[u8], at: usize) -> io::Result<()> {
    let mut errors = [0.0; 101];
    let mut weights = [0.0; 102];
    let n = cases::list_at(s, at, &mut errors);
    let m = cases::list_at(s, cases::field(s, at, 1), &mut weights);
    let mut rms = scan_digits::of_bits(0xa5a5a5a5a5a5a5a5);
    let number = errors_face::weighted_rms_error(&errors[..n], &weights[..m], &mut rms);
    print_rms(out, number, rms)
}

fn call_solve(out: &mut Stdout, a: &[f64], b: &[f64], n: u32, x: &mut [f64]) -> io::Result<()> {
    let number = fit_face::solve_normal_equations(a, b, n, x);
    print_answer(out, number, x)
}

fn solve_normal_equations(out: &mut Stdout, s: &[u8], at: usize) -> io::Result<()> {
    let pattern = scan_digits::of_bits(0xa5a5a5a5a5a5a5a5);
    let mut a = [0.0; 3025];
    let mut b = [0.0; 101];
    let mut x = [pattern; 64];
    let p = cases::list_at(s, at, &mut a);
    let q = cases::list_at(s, cases::field(s, at, 1), &mut b);
    let n = cases::word_at(s, cases::field(s, at, 2));
    let room = cases::room(s, cases::field(s, at, 3), &x);
    call_solve(out, &a[..p], &b[..q], n, &mut x[..room])
}

// ---- lines

// Answers a case of rows with a mask, whose call has a number.
fn answer_masked(
    out: &mut Stdout,
    s: &[u8],
    at: usize,
    call: u8,
    px: &[f64],
    py: &[f64],
    xi: &[f64],
    eta: &[f64],
) -> io::Result<()> {
    let mut mask = [0u8; 101];
    let n = cases::list_at(s, cases::field(s, at, 4), &mut mask);
    if call == 0 {
        return fit_cd_matrix_6(out, s, at, px, py, xi, eta, &mask[..n]);
    }
    if call == 1 {
        return fit_cd_weighted(out, s, at, px, py, xi, eta, &mask[..n]);
    }
    compute_pixel_errors(out, s, at, px, py, xi, eta, &mask[..n])
}

// Answers a case of rows.
fn answer_rows(
    out: &mut Stdout,
    s: &[u8],
    at: usize,
    call: u8,
    px: &[f64],
    py: &[f64],
    xi: &[f64],
    eta: &[f64],
) -> io::Result<()> {
    if call == 3 {
        return compute_residuals(out, s, at, px, py, xi, eta);
    }
    answer_masked(out, s, at, call, px, py, xi, eta)
}

// Every case of rows begins with the four lists.
fn read_rows(out: &mut Stdout, s: &[u8], at: usize, call: u8) -> io::Result<()> {
    let mut px = [0.0; 101];
    let mut py = [0.0; 101];
    let mut xi = [0.0; 101];
    let mut eta = [0.0; 101];
    let a = cases::list_at(s, at, &mut px);
    let b = cases::list_at(s, cases::field(s, at, 1), &mut py);
    let c = cases::list_at(s, cases::field(s, at, 2), &mut xi);
    let d = cases::list_at(s, cases::field(s, at, 3), &mut eta);
    answer_rows(out, s, at, call, &px[..a], &py[..b], &xi[..c], &eta[..d])
}

// Answers the case that starts at a place; a line that is no case has the answer "?".
fn answer(out: &mut Stdout, s: &[u8], at: usize) -> io::Result<()> {
    if let Ok(p) = scan::read_bytes(s, at, b"fit_cd_matrix_6 ") {
        return read_rows(out, s, p, 0);
    }
    if let Ok(p) = scan::read_bytes(s, at, b"fit_cd_weighted ") {
        return read_rows(out, s, p, 1);
    }
    if let Ok(p) = scan::read_bytes(s, at, b"compute_pixel_errors ") {
        return read_rows(out, s, p, 2);
    }
    if let Ok(p) = scan::read_bytes(s, at, b"compute_residuals ") {
        return read_rows(out, s, p, 3);
    }
    if let Ok(p) = scan::read_bytes(s, at, b"rms_error ") {
        return rms_error(out, s, p);
    }
    if let Ok(p) = scan::read_bytes(s, at, b"weighted_rms_error ") {
        return weighted_rms_error(out, s, p);
    }
    if let Ok(p) = scan::read_bytes(s, at, b"solve_normal_equations ") {
        return solve_normal_equations(out, s, p);
    }
    out.write_all(b"?\n")
}

// Answers each line.
fn answer_all(out: &mut Stdout, s: &[u8]) -> io::Result<()> {
    let mut at = 0;
    // Where a line ends the next one starts.
    while at < s.len() {
        answer(out, s, at)?;
        let end = scan::line_end(s, at);
        if s.len() <= end {
            return Ok(());
        }
        at = end + 1;
    }
    Ok(())
}

// Room for all cases. The length is promised, so that no proof about the room writes its bytes out.
fn room() -> [u8; 524288]
    ensures { 524288 ≡ length result }
{
    [0; 524288]
}

fn main(rt: HostRuntime) -> io::Result<()> {
    let mut cases = room();
    let n = streams::read_full(&mut rt.stdin(), &mut cases)?;
    answer_all(&mut rt.stdout(), &cases[..n])
}
