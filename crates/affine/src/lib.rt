// The affine of three rows, and how many rows agree with an affine.
#![tactic(auto)]

ghost use Rattle.std.specs.Prelude.{◌≡◌, length};
ghost use Rattle.rows.specs.Rows.{rows};
ghost use Rattle.affine.specs.Affine.{area_of, affine_of, fit_of, determinant_of, inverse_of, is_near, near_rows, agreeing};

use answer::Refusal;
use rows::Row;

// From a pixel to the tangent plane: xi = a11 x + a12 y + tx, eta = a21 x + a22 y + ty.
#[derive(Clone, Copy)]
pub struct Affine {
    pub a11: f64,
    pub a12: f64,
    pub tx: f64,
    pub a21: f64,
    pub a22: f64,
    pub ty: f64,
}

impl Affine {
    // The word before the first draw.
    pub const START_WORD: u64 = 0xCAFE_BABE_DEAD_BEEF;
    // The trials of a run.
    pub const TRIALS: usize = 1000;
    // A row agrees when its error is below this, in pixels.
    pub const LIMIT: f64 = 10.0;
    // Three rows of a smaller determinant are not fitted.
    pub const LEAST_DETERMINANT: f64 = 1e-20;
    // No row agrees with an affine of a smaller determinant.
    pub const LEAST_INVERTED: f64 = 1e-30;

    // By its numbers. Every affine is made here.
    pub fn new(a11: f64, a12: f64, tx: f64, a21: f64, a22: f64, ty: f64) -> Affine
        ensures { result ≡ record { a11 = a11; a12 = a12; tx = tx; a21 = a21; a22 = a22; ty = ty } }
    {
        Affine {
            a11,
            a12,
            tx,
            a21,
            a22,
            ty,
        }
    }

    // The affine of three rows whose determinant is given.
    fn of(p: Row, q: Row, r: Row, area: f64) -> Affine
        ensures { result ≡ affine_of p q r area }
    {
        let inv = 1.0 / area;
        let a11 = ((q.xi - p.xi) * (r.py - p.py) - (r.xi - p.xi) * (q.py - p.py)) * inv;
        let a12 = ((r.xi - p.xi) * (q.px - p.px) - (q.xi - p.xi) * (r.px - p.px)) * inv;
        let a21 = ((q.eta - p.eta) * (r.py - p.py) - (r.eta - p.eta) * (q.py - p.py)) * inv;
        let a22 = ((r.eta - p.eta) * (q.px - p.px) - (q.eta - p.eta) * (r.px - p.px)) * inv;
        let tx = p.xi - a11 * p.px - a12 * p.py;
        let ty = p.eta - a21 * p.px - a22 * p.py;
        Affine::new(a11, a12, tx, a21, a22, ty)
    }
}

// From the tangent plane back to the pixels: the inverse of an affine's four factors.
#[derive(Clone, Copy)]
struct Inverse {
    i00: f64,
    i01: f64,
    i10: f64,
    i11: f64,
}

// The determinant of three rows' pixels.
fn area_of(p: Row, q: Row, r: Row) -> f64
    ensures { result ≡ area_of p q r }
{
    (q.px - p.px) * (r.py - p.py) - (r.px - p.px) * (q.py - p.py)
}

// The affine of three rows, or refusal 8. A determinant of exactly the least is fitted.
pub fn fit_rows(p: Row, q: Row, r: Row) -> Result<Affine, Refusal>
    ensures { result ≡ fit_of p q r }
{
    let area = area_of(p, q, r);
    if floats::magnitude(area) < Affine::LEAST_DETERMINANT {
        return Err(Refusal::Degenerate);
    }
    Ok(Affine::of(p, q, r, area))
}

// The determinant of an affine's four factors.
fn determinant_of(m: Affine) -> f64
    ensures { result ≡ determinant_of m }
{
    m.a11 * m.a22 - m.a12 * m.a21
}

// Their inverse. A factor is negated before it is divided.
fn inverse_of(m: Affine, det: f64) -> Inverse
    ensures { result ≡ inverse_of m det }
{
    Inverse {
        i00: m.a22 / det,
        i01: -m.a12 / det,
        i10: -m.a21 / det,
        i11: m.a11 / det,
    }
}

// Whether a row's squared error, in pixels, is below the squared limit.
fn is_near(m: Affine, v: Inverse, square: f64, row: Row) -> bool
    ensures { result ≡ is_near m v square row }
{
    let du = row.xi - (m.a11 * row.px + m.a12 * row.py + m.tx);
    let dv = row.eta - (m.a21 * row.px + m.a22 * row.py + m.ty);
    let dx = v.i00 * du + v.i01 * dv;
    let dy = v.i10 * du + v.i11 * dv;
    dx * dx + dy * dy < square
}

// How many rows are near. The loop has no branch, so that it compiles to vector code.
fn count_near(
    px: &[f64],
    py: &[f64],
    xi: &[f64],
    eta: &[f64],
    m: Affine,
    v: Inverse,
    square: f64,
) -> usize
    requires fact_1 { length py.now ≡ length px.now }
    requires fact_2 { length xi.now ≡ length px.now }
    requires fact_3 { length eta.now ≡ length px.now }
    ensures { result ≡ near_rows m v square (rows px.now py.now xi.now eta.now) (length px.now) }
{
    let mut count = 0usize;
    for i in 0..px.len() {
        count += is_near(m, v, square, rows::row_at(px, py, xi, eta, i)) as usize;
    }
    count
}

// How many rows agree with an affine within a limit; none where it cannot be inverted.
pub fn count_agreeing(
    px: &[f64],
    py: &[f64],
    xi: &[f64],
    eta: &[f64],
    m: Affine,
    limit: f64,
) -> usize
    requires fact_1 { length py.now ≡ length px.now }
    requires fact_2 { length xi.now ≡ length px.now }
    requires fact_3 { length eta.now ≡ length px.now }
    ensures { result ≡ agreeing (rows px.now py.now xi.now eta.now) limit m }
{
    let det = determinant_of(m);
    if floats::magnitude(det) < Affine::LEAST_INVERTED {
        return 0;
    }
    count_near(px, py, xi, eta, m, inverse_of(m, det), limit * limit)
}
