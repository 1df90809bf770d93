// What a SIP fit says of itself: the rows used, and the root mean squares before and after.
#![tactic(auto)]

ghost use Rattle.std.specs.Prelude.{◌≡◌, ◌≤◌, length};
ghost use Rattle.rows.specs.Rows.{rows};
ghost use Rattle.sip_rms.specs.Rms.{root_mean, root_share, with_offset, linear_to, linear_rms_of, no_errors, with_error, with_error_if, totals_to, sip_of};

use sip_sums::Offset;
use sip_terms::Sip;
use wcs::Wcs;

// The root of the mean of n numbers; 0.0 where there is none.
fn root_mean(sum: f64, n: usize) -> f64
    requires { n ≤ 100 }
    ensures { result ≡ root_mean sum n }
{
    if n == 0 {
        return 0.0;
    }
    root::root(sum / (n as u32) as f64)
}

// The root of a weighted mean; 0.0 where the weights come to nothing.
fn root_share(sum: f64, weights: f64) -> f64
    ensures { result ≡ root_share sum weights }
{
    if weights > 0.0 {
        return root::root(sum / weights);
    }
    0.0
}

// A sum with the square of one offset more.
fn with_offset(sum: f64, o: Offset) -> f64
    ensures { result ≡ with_offset sum o }
{
    sum + (o.du * o.du + o.dv * o.dv)
}

// The squares of all offsets.
fn sum_linear(px: &[f64], py: &[f64], xi: &[f64], eta: &[f64], wcs: Wcs) -> f64
    requires fact_1 { length py.now ≡ length px.now }
    requires fact_2 { length xi.now ≡ length px.now }
    requires fact_3 { length eta.now ≡ length px.now }
    ensures { result ≡ linear_to (rows px.now py.now xi.now eta.now) wcs (length px.now) }
{
    let mut sum = 0.0;
    for k in 0..px.len() {
        sum = with_offset(sum, sip_sums::offset_at(px, py, xi, eta, wcs, k));
    }
    sum
}

// The root mean square of all offsets, before any fit.
pub fn linear_rms(px: &[f64], py: &[f64], xi: &[f64], eta: &[f64], wcs: Wcs) -> f64
    requires py_len_1 { length py.now ≡ length px.now }
    requires py_len_2 { length xi.now ≡ length px.now }
    requires py_len_3 { length eta.now ≡ length px.now }
    requires px_len_bound { length px.now ≤ 100 }
    ensures { result ≡ linear_rms_of (rows px.now py.now xi.now eta.now) wcs }
{
    let n = px.len();
    root_mean(sum_linear(px, py, xi, eta, wcs), n)
}

// The squares of errors, the weights, and the weighted squares.
#[derive(Clone, Copy)]
struct Totals {
    squares: f64,
    weights: f64,
    weighed: f64,
}

impl Totals {
    // Of no error.
    fn new() -> Totals
        ensures { result ≡ no_errors }
    {
        Totals {
            squares: 0.0,
            weights: 0.0,
            weighed: 0.0,
        }
    }

    // With one error more.
    fn with_error(self, w: f64, e: f64) -> Totals
        ensures { result ≡ with_error self w e }
    {
        Totals {
            squares: self.squares + e * e,
            weights: self.weights + w,
            weighed: self.weighed + w * e * e,
        }
    }

    // The same for a row that is on.
    fn with_error_if(self, on: bool, w: f64, e: f64) -> Totals
        ensures { result ≡ with_error_if on self w e }
    {
        if on { self.with_error(w, e) } else { self }
    }
}

// The sums over the rows that are on.
fn sum_errors(snr: &[f64], mask: &[u8], errors: &[f64]) -> Totals
    requires { (length mask.now ≡ length snr.now) × (length errors.now ≡ length snr.now) }
    ensures { result ≡ totals_to snr.now mask.now errors.now (length snr.now) }
{
    let mut t = Totals::new();
    for k in 0..snr.len() {
        let s = snr[k];
        t = t.with_error_if(mask[k] == 1, s * s, errors[k]);
    }
    t
}

// The numbers of a fit that ends with this mask and these errors.
pub fn sip_of(linear_rms: f64, snr: &[f64], mask: &[u8], errors: &[f64]) -> Sip
    requires { (length mask.now ≡ length snr.now) × (length errors.now ≡ length snr.now) × (length mask.now ≤ 100) }
    ensures { result ≡ sip_of linear_rms snr.now mask.now errors.now }
{
    let n = cd_mask::count_on(mask);
    let t = sum_errors(snr, mask, errors);
    let rms = root_mean(t.squares, n);
    let wrms = root_share(t.weighed, t.weights);
    Sip::new(n, linear_rms, rms, wrms)
}
