// The errors of the rows under a SIP fit, and the clip that turns off the rows past its limit.
#![tactic(auto)]

ghost use Rattle.std.specs.Prelude.{◌≡◌, cond, ◌≤◌, length, replicate};
ghost use Rattle.rows.specs.Rows.{rows};
ghost use Rattle.cd_plate.specs.Plate.{nothing};
ghost use Rattle.cd_plate.specs.Filled.{filled};
ghost use Rattle.cd_mask.specs.Marks.{byte_of};
ghost use Rattle.sip_sums.specs.Normal.{plus_if};
ghost use Rattle.sip_values.specs.Values.{Powers};
ghost use Rattle.sip_clip.specs.Clip.{errors_of, weighed_to, limit_of, roots_of, clipped, clip_of};
ghost use Rattle.sip_clip.specs.Steps.{error_left, error_in, rejected_in, mask_in};

use sip_sums::Offset;
use sip_terms::Sip;
use wcs::Wcs;

// The most rows.
const MOST_ROWS: usize = 100;

// What is left of a row's offset once the values of both polynomials are taken away.
fn error_of(o: Offset, x: f64, y: f64) -> f64
    ensures { result ≡ error_left o x y }
{
    let ex = o.du - x;
    let ey = o.dv - y;
    root::root(ex * ex + ey * ey)
}

// The error of a row that is on; +0.0 for one that is off.
fn error_if(on: bool, o: Offset, x: f64, y: f64) -> f64
    ensures { result ≡ cond on (error_left o x y) nothing }
{
    if on { error_of(o, x, y) } else { 0.0 }
}

// The errors of all rows, from the values of both polynomials.
fn put_lengths(
    px: &[f64],
    py: &[f64],
    xi: &[f64],
    eta: &[f64],
    wcs: Wcs,
    mask: &[u8],
    x: &[f64],
    y: &[f64],
    errors: &mut [f64],
)
    requires py_len_1 { length py.now ≡ length px.now }
    requires py_len_2 { length xi.now ≡ length px.now }
    requires py_len_3 { length eta.now ≡ length px.now }
    requires py_len_4 { length mask.now ≡ length px.now }
    requires py_len_5 { length errors.old ≡ length px.now }
    requires x_len_1 { length x.now ≡ length px.now }
    requires x_len_2 { length y.now ≡ length px.now }
    ensures { errors.new ≡ filled (error_in (rows px.now py.now xi.now eta.now) wcs
        mask.now x.now y.now) (length px.now) }
{
    for k in 0..px.len() {
        let o = sip_sums::offset_at(px, py, xi, eta, wcs, k);
        errors[k] = error_if(mask[k] == 1, o, x[k], y[k]);
    }
}

// The errors of all rows, by way of two lent lists of zeros.
fn put_errors_in(
    px: &[f64],
    py: &[f64],
    xi: &[f64],
    eta: &[f64],
    wcs: Wcs,
    mask: &[u8],
    up: &[f64],
    vp: &[f64],
    a: &[f64],
    b: &[f64],
    x: &mut [f64],
    y: &mut [f64],
    errors: &mut [f64],
)
    requires py_len_1 { length py.now ≡ length px.now }
    requires py_len_2 { length xi.now ≡ length px.now }
    requires py_len_3 { length eta.now ≡ length px.now }
    requires py_len_4 { length mask.now ≡ length px.now }
    requires py_len_5 { length errors.old ≡ length px.now }
    requires a_len_bound { (length a.now ≤ 18) × (length b.now ≤ 18) × (length px.now ≤ 100) }
    requires powers { Powers (rows px.now py.now xi.now eta.now) wcs up.now vp.now }
    requires x_value_1 { x.old ≡ replicate (length px.now) nothing }
    requires x_value_2 { y.old ≡ replicate (length px.now) nothing }
    ensures { errors.new ≡ errors_of (rows px.now py.now xi.now eta.now) wcs
        mask.now a.now b.now }
{
    sip_values::put_values(a, up, vp, x);
    sip_values::put_values(b, up, vp, y);
    put_lengths(px, py, xi, eta, wcs, mask, x, y, errors);
}

// The same with lists of its own.
pub fn put_errors(
    px: &[f64],
    py: &[f64],
    xi: &[f64],
    eta: &[f64],
    wcs: Wcs,
    mask: &[u8],
    up: &[f64],
    vp: &[f64],
    a: &[f64],
    b: &[f64],
    errors: &mut [f64],
)
    requires py_len_1 { length py.now ≡ length px.now }
    requires py_len_2 { length xi.now ≡ length px.now }
    requires py_len_3 { length eta.now ≡ length px.now }
    requires py_len_4 { length mask.now ≡ length px.now }
    requires py_len_5 { length errors.old ≡ length px.now }
    requires a_len_bound { (length a.now ≤ 18) × (length b.now ≤ 18) × (length px.now ≤ 100) }
    requires powers { Powers (rows px.now py.now xi.now eta.now) wcs up.now vp.now }
    ensures { errors.new ≡ errors_of (rows px.now py.now xi.now eta.now) wcs
        mask.now a.now b.now }
{
    let count = px.len();
    let mut x = [0.0; MOST_ROWS];
    let mut y = [0.0; MOST_ROWS];
    put_errors_in(
        px,
        py,
        xi,
        eta,
        wcs,
        mask,
        up,
        vp,
        a,
        b,
        &mut x[..count],
        &mut y[..count],
        errors,
    )
}

// A sum with w * x * y more for a row that is on.
fn plus_if(on: bool, s: f64, w: f64, x: f64, y: f64) -> f64
    ensures { result ≡ plus_if on s w x y }
{
    if on { s + w * x * y } else { s }
}

// The weighted squares of the rows that are on.
fn weigh(snr: &[f64], mask: &[u8], errors: &[f64]) -> f64
    requires { (length mask.now ≡ length snr.now) × (length errors.now ≡ length snr.now) }
    ensures { result ≡ weighed_to snr.now mask.now errors.now (length snr.now) }
{
    let mut sum = 0.0;
    for k in 0..snr.len() {
        let s = snr[k];
        let e = errors[k];
        sum = plus_if(mask[k] == 1, sum, s * s, e, e);
    }
    sum
}

// The root of each weight.
pub fn put_roots(snr: &[f64], roots: &mut [f64])
    requires { length roots.old ≡ length snr.now }
    ensures { roots.new ≡ roots_of snr.now }
{
    for k in 0..snr.len() {
        let s = snr[k];
        roots[k] = root::root(s * s);
    }
}

// The limit of a clip: the factor times the root of the mean weighted square of n rows.
fn limit_of(sum: f64, n: usize) -> f64
    requires { n ≤ 100 }
    ensures { result ≡ limit_of sum n }
{
    Sip::FACTOR * root::root(sum / (n as u32) as f64)
}

// The byte of a test.
fn byte_of(on: bool) -> u8
    ensures { result ≡ byte_of on }
{
    if on { 1 } else { 0 }
}

// The same as a number.
fn number_of(on: bool) -> usize
    ensures { result ≡ byte_of on }
{
    if on { 1 } else { 0 }
}

// Turns off each row whose error times its weight's root is past the limit: how many there are.
fn reject(errors: &[f64], roots: &[f64], limit: f64, mask: &mut [u8]) -> usize
    requires { (length errors.now ≡ length mask.old) × (length roots.now ≡ length mask.old) }
    ensures { (result ≡ rejected_in mask.old errors.now roots.now limit (length mask.old))
        × (mask.new ≡ mask_in mask.old errors.now roots.now limit) }
{
    let n = mask.len();
    let mut rejected = 0usize;
    for k in 0..n {
        let on = mask[k] == 1;
        let past = errors[k] * roots[k] > limit;
        rejected += number_of(on & past);
        mask[k] = byte_of(on & !past);
    }
    rejected
}

// One clip: how many rows it turns off. The roots of the weights are lent beside the snr.
pub fn clip(snr: &[f64], roots: &[f64], errors: &[f64], mask: &mut [u8]) -> usize
    requires snr_len { (length snr.now ≡ length mask.old) × (length errors.now ≡ length mask.old) × (length mask.old ≤ 100) }
    requires roots_value { roots.now ≡ roots_of snr.now }
    ensures { clipped mask.new result ≡ clip_of snr.now mask.old errors.now }
{
    let n = cd_mask::count_on(mask);
    let limit = limit_of(weigh(snr, mask, errors), n);
    reject(errors, roots, limit, mask)
}
