// `fit_sip`: the SIP polynomials of rows under a WCS.
#![tactic(auto)]

ghost use Rattle.std.specs.Prelude.{◌≡◌, ◌+◌, ◌*◌, ◌≤◌, length, replicate};
ghost use Rattle.answer.specs.Answers.{lent_after};
ghost use Rattle.rows.specs.Rows.{rows};
ghost use Rattle.sip_sums.specs.Field.{field};
ghost use Rattle.sip_rounds.specs.Rounds.{rounds_of};
ghost use Rattle.sip.specs.Call.{sip_after, coefficients_a, coefficients_b, answer_of, sip_answer, sip_a, sip_b};

use answer::Refusal;
use sip_terms::Sip;
use wcs::Wcs;

// The most rows, the numbers of their lines, their powers, and the most terms.
const MOST_ROWS: usize = 100;

const MOST_NUMBERS: usize = 2000;

const MOST_POWERS: usize = 600;

const MOST_TERMS: usize = 18;

// The fit in n terms, by way of lent lists; every row is on.
fn fit_lent(
    px: &[f64],
    py: &[f64],
    xi: &[f64],
    eta: &[f64],
    snr: &[f64],
    wcs: Wcs,
    n: usize,
    lines: &mut [f64],
    up: &mut [f64],
    vp: &mut [f64],
    roots: &mut [f64],
    mask: &mut [u8],
    errors: &mut [f64],
    a: &mut [f64],
    b: &mut [f64],
) -> Result<Sip, Refusal>
    requires py_len_1 { length py.now ≡ length px.now }
    requires py_len_2 { length xi.now ≡ length px.now }
    requires py_len_3 { length eta.now ≡ length px.now }
    requires py_len_4 { length snr.now ≡ length px.now }
    requires py_len_5 { length px.now ≤ 100 }
    requires roots_len_1 { length roots.old ≡ length px.now }
    requires roots_len_2 { mask.old ≡ replicate (length px.now) 1 }
    requires roots_len_3 { length errors.old ≡ length px.now }
    requires n_bound_1 { n ≤ 18 }
    requires n_bound_2 { length a.old ≡ n }
    requires n_bound_3 { length b.old ≡ n }
    requires up_len_1 { length up.old ≡ 6 * length px.now }
    requires up_len_2 { length vp.old ≡ 6 * length px.now }
    requires up_len_3 { length lines.old ≡ length px.now * (n + 2) }
    ensures answer { result ≡ sip_after (field (rows px.now py.now xi.now eta.now) snr.now wcs)
        (rounds_of (field (rows px.now py.now xi.now eta.now) snr.now wcs) n) }
    ensures a { answer_of result ≡ Ok tt → a.new ≡ coefficients_a
        (rounds_of (field (rows px.now py.now xi.now eta.now) snr.now wcs) n) }
    ensures b { answer_of result ≡ Ok tt → b.new ≡ coefficients_b
        (rounds_of (field (rows px.now py.now xi.now eta.now) snr.now wcs) n) }
{
    sip_sums::put_lines(px, py, xi, eta, wcs, n, lines);
    sip_values::put_powers(px, py, xi, eta, wcs, up, vp);
    sip_clip::put_roots(snr, roots);
    let linear = sip_rms::linear_rms(px, py, xi, eta, wcs);
    sip_rounds::fit_rounds(
        px, py, xi, eta, snr, wcs, lines, up, vp, n, roots, mask, errors, a, b,
    )?;
    Ok(sip_rms::sip_of(linear, snr, mask, errors))
}

// The same with lists of its own.
fn fit_terms(
    px: &[f64],
    py: &[f64],
    xi: &[f64],
    eta: &[f64],
    snr: &[f64],
    wcs: Wcs,
    n: usize,
    a: &mut [f64],
    b: &mut [f64],
) -> Result<Sip, Refusal>
    requires py_len_1 { length py.now ≡ length px.now }
    requires py_len_2 { length xi.now ≡ length px.now }
    requires py_len_3 { length eta.now ≡ length px.now }
    requires py_len_4 { length snr.now ≡ length px.now }
    requires py_len_5 { length px.now ≤ 100 }
    requires n_bound_1 { n ≤ 18 }
    requires n_bound_2 { length a.old ≡ n }
    requires n_bound_3 { length b.old ≡ n }
    ensures answer { result ≡ sip_after (field (rows px.now py.now xi.now eta.now) snr.now wcs)
        (rounds_of (field (rows px.now py.now xi.now eta.now) snr.now wcs) n) }
    ensures a { answer_of result ≡ Ok tt → a.new ≡ coefficients_a
        (rounds_of (field (rows px.now py.now xi.now eta.now) snr.now wcs) n) }
    ensures b { answer_of result ≡ Ok tt → b.new ≡ coefficients_b
        (rounds_of (field (rows px.now py.now xi.now eta.now) snr.now wcs) n) }
{
    let count = px.len();
    let numbers = count * (n + 2);
    let powers = sip_terms::POWERS * count;
    let mut lines = [0.0; MOST_NUMBERS];
    let mut up = [0.0; MOST_POWERS];
    let mut vp = [0.0; MOST_POWERS];
    let mut roots = [0.0; MOST_ROWS];
    let mut mask: [u8; 100] = [1; MOST_ROWS];
    let mut errors = [0.0; MOST_ROWS];
    fit_lent(
        px,
        py,
        xi,
        eta,
        snr,
        wcs,
        n,
        &mut lines[..numbers],
        &mut up[..powers],
        &mut vp[..powers],
        &mut roots[..count],
        &mut mask[..count],
        &mut errors[..count],
        a,
        b,
    )
}

// The fit into lists that are lent; its coefficients are copied there only when it is done.
fn fit_into(
    px: &[f64],
    py: &[f64],
    xi: &[f64],
    eta: &[f64],
    snr: &[f64],
    wcs: Wcs,
    n: usize,
    x: &mut [f64],
    y: &mut [f64],
    a: &mut [f64],
    b: &mut [f64],
) -> Result<Sip, Refusal>
    requires py_len_1 { length py.now ≡ length px.now }
    requires py_len_2 { length xi.now ≡ length px.now }
    requires py_len_3 { length eta.now ≡ length px.now }
    requires py_len_4 { length snr.now ≡ length px.now }
    requires py_len_5 { length px.now ≤ 100 }
    requires n_bound_1 { n ≤ 18 }
    requires n_bound_2 { length x.old ≡ n }
    requires n_bound_3 { length y.old ≡ n }
    requires n_bound_4 { n ≤ length a.old }
    requires n_bound_5 { n ≤ length b.old }
    ensures answer { result ≡ sip_after (field (rows px.now py.now xi.now eta.now) snr.now wcs)
        (rounds_of (field (rows px.now py.now xi.now eta.now) snr.now wcs) n) }
    ensures a { a.new ≡ lent_after (answer_of result) (coefficients_a
        (rounds_of (field (rows px.now py.now xi.now eta.now) snr.now wcs) n)) a.old }
    ensures b { b.new ≡ lent_after (answer_of result) (coefficients_b
        (rounds_of (field (rows px.now py.now xi.now eta.now) snr.now wcs) n)) b.old }
{
    let sip = fit_terms(px, py, xi, eta, snr, wcs, n, x, y)?;
    elimination_rows::copy_row(&mut a[..n], x);
    elimination_rows::copy_row(&mut b[..n], y);
    Ok(sip)
}

// The fit of an input that passed its tests.
fn fit_checked(
    px: &[f64],
    py: &[f64],
    xi: &[f64],
    eta: &[f64],
    snr: &[f64],
    wcs: Wcs,
    n: usize,
    a: &mut [f64],
    b: &mut [f64],
) -> Result<Sip, Refusal>
    requires py_len_1 { length py.now ≡ length px.now }
    requires py_len_2 { length xi.now ≡ length px.now }
    requires py_len_3 { length eta.now ≡ length px.now }
    requires py_len_4 { length snr.now ≡ length px.now }
    requires py_len_5 { length px.now ≤ 100 }
    requires n_bound_1 { n ≤ 18 }
    requires n_bound_2 { n ≤ length a.old }
    requires n_bound_3 { n ≤ length b.old }
    ensures answer { result ≡ sip_after (field (rows px.now py.now xi.now eta.now) snr.now wcs)
        (rounds_of (field (rows px.now py.now xi.now eta.now) snr.now wcs) n) }
    ensures a { a.new ≡ lent_after (answer_of result) (coefficients_a
        (rounds_of (field (rows px.now py.now xi.now eta.now) snr.now wcs) n)) a.old }
    ensures b { b.new ≡ lent_after (answer_of result) (coefficients_b
        (rounds_of (field (rows px.now py.now xi.now eta.now) snr.now wcs) n)) b.old }
{
    let mut x = [0.0; MOST_TERMS];
    let mut y = [0.0; MOST_TERMS];
    fit_into(px, py, xi, eta, snr, wcs, n, &mut x[..n], &mut y[..n], a, b)
}

// Fits the A and B polynomials of an order to the rows: their coefficients, in the order of the terms,
// from the front of a and b, a dropped one as 0.0. On a refusal a and b keep their numbers.
pub fn fit_sip(
    px: &[f64],
    py: &[f64],
    xi: &[f64],
    eta: &[f64],
    snr: &[f64],
    wcs: Wcs,
    order: u32,
    a: &mut [f64],
    b: &mut [f64],
) -> Result<Sip, Refusal>
    ensures answer { result ≡ sip_answer (field (rows px.now py.now xi.now eta.now) snr.now wcs)
        order (length a.old) (length b.old) }
    ensures a { a.new ≡ lent_after (answer_of result)
        (sip_a (field (rows px.now py.now xi.now eta.now) snr.now wcs) order) a.old }
    ensures b { b.new ≡ lent_after (answer_of result)
        (sip_b (field (rows px.now py.now xi.now eta.now) snr.now wcs) order) b.old }
{
    sip_tests::check_call(px, py, xi, eta, snr, wcs, order, a.len(), b.len())?;
    let n = sip_terms::term_count(order);
    fit_checked(px, py, xi, eta, snr, wcs, n, a, b)
}
