// The six outputs of the pairs, written from the front of lent lists.
#![tactic(auto)]

ghost use Rattle.std.specs.Prelude.{◌≡◌, ◌≤◌, length, get_or};
ghost use Rattle.std.specs.Float.{nan};
ghost use Rattle.aggregate_outputs.specs.Gather.{gathered};

use aggregate_choice::Picked;
use aggregate_votes::{DetectionId, ResultPlace};

// A value of a detection, and NaN past the end.
fn value_of(xs: &[f64], d: DetectionId) -> f64
    ensures { result ≡ get_or xs.now d.0 nan }
{
    let i = d.0 as usize;
    if i < xs.len() { xs[i] } else { 0.0 / 0.0 }
}

// A coordinate of a result, and NaN past the end.
fn coord(xs: &[f64], r: ResultPlace) -> f64
    ensures { result ≡ get_or xs.now r.0 nan }
{
    let i = r.0;
    if i < xs.len() { xs[i] } else { 0.0 / 0.0 }
}

// The values of the first n listed detections, to the front of a lent list.
fn put_values(out: &mut [f64], src: &[f64], order: &[u32], n: usize)
    requires fact_1 { n ≤ length order.now }
    requires fact_2 { n ≤ length out.old }
    ensures { out.new ≡ gathered (λ d. get_or src.now d nan) order.now n out.old }
{
    for p in 0..n {
        out[p] = value_of(src, aggregate_choice::detection_in(order, p));
    }
}

// The positions of their choices: `at` has the result of each detection.
fn put_positions(out: &mut [f64], src: &[f64], at: &[usize], order: &[u32], n: usize)
    requires fact_1 { n ≤ length order.now }
    requires fact_2 { n ≤ length out.old }
    ensures { out.new ≡ gathered (λ d. get_or src.now (get_or at.now d 0) nan) order.now n out.old }
{
    for p in 0..n {
        let d = aggregate_choice::detection_in(order, p);
        out[p] = coord(src, aggregate_best::choice_of(at, d));
    }
}

// Their votes.
fn put_votes(out: &mut [u32], src: &[u32], order: &[u32], n: usize)
    requires fact_1 { n ≤ length order.now }
    requires fact_2 { n ≤ length out.old }
    ensures { out.new ≡ gathered (λ d. get_or src.now d 0) order.now n out.old }
{
    for p in 0..n {
        out[p] = aggregate_best::votes_of(src, aggregate_choice::detection_in(order, p));
    }
}

// Writes the six outputs of the first n listed detections, from lists.
fn write_lists(
    order: &[u32],
    at: &[usize],
    counts: &[u32],
    n: usize,
    xs: &[f64],
    ys: &[f64],
    snrs: &[f64],
    ras: &[f64],
    decs: &[f64],
    px: &mut [f64],
    py: &mut [f64],
    ra: &mut [f64],
    dec: &mut [f64],
    votes: &mut [u32],
    snr: &mut [f64],
)
    requires { (n ≤ length order.now) × (n ≤ length px.old) × (n ≤ length py.old) × (n ≤ length ra.old) × (n ≤ length dec.old) × (n ≤ length votes.old) × (n ≤ length snr.old) }
    ensures px_after { px.new ≡ gathered (λ d. get_or xs.now d nan) order.now n px.old }
    ensures py_after { py.new ≡ gathered (λ d. get_or ys.now d nan) order.now n py.old }
    ensures ra_after { ra.new ≡ gathered (λ d. get_or ras.now (get_or at.now d 0) nan) order.now n ra.old }
    ensures dec_after { dec.new ≡ gathered (λ d. get_or decs.now (get_or at.now d 0) nan) order.now n dec.old }
    ensures votes_after { votes.new ≡ gathered (λ d. get_or counts.now d 0) order.now n votes.old }
    ensures snr_after { snr.new ≡ gathered (λ d. get_or snrs.now d nan) order.now n snr.old }
{
    put_values(px, xs, order, n);
    put_values(py, ys, order, n);
    put_positions(ra, ras, at, order, n);
    put_positions(dec, decs, at, order, n);
    put_votes(votes, counts, order, n);
    put_values(snr, snrs, order, n);
}

// The same from what the votes come to.
pub fn write_all(
    pick: Picked,
    xs: &[f64],
    ys: &[f64],
    snrs: &[f64],
    ras: &[f64],
    decs: &[f64],
    px: &mut [f64],
    py: &mut [f64],
    ra: &mut [f64],
    dec: &mut [f64],
    votes: &mut [u32],
    snr: &mut [f64],
)
    requires { (pick.n ≤ length pick.order) × (pick.n ≤ length px.old) × (pick.n ≤ length py.old) × (pick.n ≤ length ra.old) × (pick.n ≤ length dec.old) × (pick.n ≤ length votes.old) × (pick.n ≤ length snr.old) }
    ensures px_after { px.new ≡ gathered (λ d. get_or xs.now d nan) pick.order pick.n px.old }
    ensures py_after { py.new ≡ gathered (λ d. get_or ys.now d nan) pick.order pick.n py.old }
    ensures ra_after { ra.new ≡ gathered (λ d. get_or ras.now (get_or pick.at d 0) nan) pick.order pick.n ra.old }
    ensures dec_after { dec.new ≡ gathered (λ d. get_or decs.now (get_or pick.at d 0) nan) pick.order pick.n dec.old }
    ensures votes_after { votes.new ≡ gathered (λ d. get_or pick.votes d 0) pick.order pick.n votes.old }
    ensures snr_after { snr.new ≡ gathered (λ d. get_or snrs.now d nan) pick.order pick.n snr.old }
{
    let n = pick.n;
    let order = pick.order;
    let at = pick.at;
    let counts = pick.votes;
    write_lists(
        &order, &at, &counts, n, xs, ys, snrs, ras, decs, px, py, ra, dec, votes, snr,
    );
}
