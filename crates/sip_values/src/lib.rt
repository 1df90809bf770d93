// The values of a SIP polynomial at all rows at once, term by term, with the powers of the rows in two tables.
#![tactic(auto)]

ghost use Rattle.std.specs.Prelude.{◌≡◌, ◌+◌, ◌*◌, ◌≤◌, ◌<◌, length, replicate};
ghost use Rattle.rows.specs.Rows.{rows};
ghost use Rattle.cd_plate.specs.Plate.{nothing};
ghost use Rattle.cd_plate.specs.Filled.{filled};
ghost use Rattle.elimination_rows.specs.Matrix.{cells};
ghost use Rattle.elimination_rows.specs.Holds.{Holds};
ghost use Rattle.sip_values.specs.Values.{Powers, with_column, product_at, term_added, value_in};

use sip_terms::Term;
use wcs::Wcs;

// The powers 0 to 5 of x, each from the one before, down column k of a table of six lines.
fn put_column(x: f64, out: &mut [f64], w: usize, k: usize)
    requires out_len { length out.old ≡ 6 * w }
    requires k_lt_w { (k < w) × (w ≤ 100) }
    ensures { Holds out.new 6 w (with_column x k (cells out.old w)) }
{
    let mut r = 1.0;
    for p in 0..sip_terms::POWERS {
        let at = p * w + k;
        out[at] = r;
        r = r * x;
    }
}

// The powers of each row's u and v, a column to a row.
pub fn put_powers(
    px: &[f64],
    py: &[f64],
    xi: &[f64],
    eta: &[f64],
    wcs: Wcs,
    up: &mut [f64],
    vp: &mut [f64],
)
    requires py_len_1 { length py.now ≡ length px.now }
    requires py_len_2 { length xi.now ≡ length px.now }
    requires py_len_3 { length eta.now ≡ length px.now }
    requires py_len_4 { length px.now ≤ 100 }
    requires up_len_1 { length up.old ≡ 6 * length px.now }
    requires up_len_2 { length vp.old ≡ 6 * length px.now }
    ensures { Powers (rows px.now py.now xi.now eta.now) wcs up.new vp.new }
{
    let count = px.len();
    for k in 0..count {
        let o = sip_sums::offset_at(px, py, xi, eta, wcs, k);
        put_column(o.u, up, count, k);
        put_column(o.v, vp, count, k);
    }
}

// Adds c x y to each sum, from left to right.
fn add_products(c: f64, x: &[f64], y: &[f64], s: &mut [f64])
    requires { (length x.now ≡ length s.old) × (length y.now ≡ length s.old) }
    ensures { s.new ≡ filled (product_at c x.now y.now s.old) (length s.old) }
{
    let n = s.len();
    for k in 0..n {
        s[k] = s[k] + c * x[k] * y[k];
    }
}

// The sums with one term more, whose powers are lines of the tables; a dropped coefficient is skipped, not added.
fn add_term(c: f64, t: Term, up: &[f64], vp: &[f64], s: &mut [f64])
    requires p_bound { (t.p < 6) × (t.q < 6) × (length s.old ≤ 100) }
    requires up_len_1 { length up.now ≡ 6 * length s.old }
    requires up_len_2 { length vp.now ≡ 6 * length s.old }
    ensures { s.new ≡ filled
        (term_added c t (cells up.now (length s.old)) (cells vp.now (length s.old)) s.old)
        (length s.old) }
{
    if !sip_terms::is_kept(c) {
        return;
    }
    let w = s.len();
    let x = t.p * w;
    let y = t.q * w;
    let x_end = x + w;
    let y_end = y + w;
    add_products(c, &up[x..x_end], &vp[y..y_end], s);
}

// The polynomial at every row, from 0.0 in the order of the terms.
#[tactic(auto, using(sip_terms::proofs::Places::low_term))]
pub fn put_values(cs: &[f64], up: &[f64], vp: &[f64], s: &mut [f64])
    requires cs_len_bound { (length cs.now ≤ 18) × (length s.old ≤ 100) }
    requires up_len_1 { length up.now ≡ 6 * length s.old }
    requires up_len_2 { length vp.now ≡ 6 * length s.old }
    requires s_value { s.old ≡ replicate (length s.old) nothing }
    ensures { s.new ≡ filled
        (value_in cs.now (cells up.now (length s.old)) (cells vp.now (length s.old)) (length cs.now))
        (length s.old) }
{
    let mut t = Term::first();
    for c in cs {
        add_term(*c, t, up, vp, s);
        t = t.next();
    }
}
