// The hash of a quad: where its other two stars lie by its spine.
#![tactic(auto)]

ghost use Rattle.std.specs.Prelude.{◌≡◌};
ghost use Rattle.quad_normal.specs.Normal.{along, across, c_first, hash_of, scaled_by, scaled_answer, normal_answer};

use answer::Refusal;
use quad_stars::{Four, Star};

// A quad: its hash, and the places of its stars.
#[derive(Clone, Copy)]
pub struct Quad {
    pub h0: f64,
    pub h1: f64,
    pub h2: f64,
    pub h3: f64,
    pub a: u8,
    pub b: u8,
    pub c: u8,
    pub d: u8,
}

impl Quad {
    // A squared spine below this cannot be divided by.
    pub const LEAST_SCALE: f64 = 1e-30;
}

// How far r lies along the spine from p to q.
fn along_of(p: Star, q: Star, r: Star, scale: f64) -> f64
    ensures { result ≡ along p q r scale }
{
    let dx = q.x - p.x;
    let dy = q.y - p.y;
    let px = r.x - p.x;
    let py = r.y - p.y;
    (px * dx + py * dy) / scale
}

// How far r lies across the spine from p to q.
fn across_of(p: Star, q: Star, r: Star, scale: f64) -> f64
    ensures { result ≡ across p q r scale }
{
    let dx = q.x - p.x;
    let dy = q.y - p.y;
    let px = r.x - p.x;
    let py = r.y - p.y;
    (py * dx - px * dy) / scale
}

// Whether C keeps its place before D.
fn c_first(cx: f64, cy: f64, dx: f64, dy: f64) -> bool
    ensures { result ≡ c_first cx cy dx dy }
{
    if cx < dx {
        return true;
    }
    if cx == dx {
        return cy <= dy;
    }
    false
}

// The quad with C and D in order.
fn hash_of(cx: f64, cy: f64, dx: f64, dy: f64, f: Four) -> Quad
    ensures { result ≡ hash_of cx cy dx dy f }
{
    let p = quad_stars::places_of(f);
    if c_first(cx, cy, dx, dy) {
        Quad {
            h0: cx,
            h1: cy,
            h2: dx,
            h3: dy,
            a: p.a,
            b: p.b,
            c: p.c,
            d: p.d,
        }
    } else {
        Quad {
            h0: dx,
            h1: dy,
            h2: cx,
            h3: cy,
            a: p.a,
            b: p.b,
            c: p.d,
            d: p.c,
        }
    }
}

// The hash of four stars whose spine is given, by its square, unless that is degenerate.
pub fn normalize(scale: f64, f: Four) -> Option<Quad>
    ensures { result ≡ scaled_by scale f }
{
    if scale < Quad::LEAST_SCALE {
        return None;
    }
    let cx = along_of(f.a, f.b, f.c, scale);
    let cy = across_of(f.a, f.b, f.c, scale);
    let dx = along_of(f.a, f.b, f.d, scale);
    let dy = across_of(f.a, f.b, f.d, scale);
    Some(hash_of(cx, cy, dx, dy, f))
}

// The public answer of what four stars come to.
fn answer_of(s: Option<Quad>) -> Result<Quad, Refusal>
    ensures { result ≡ scaled_answer s }
{
    match s {
        Some(quad) => Ok(quad),
        None => Err(Refusal::Degenerate),
    }
}

// The hash of the quad at four places, the spine first, and its places with C and D in order.
#[tactic(auto, unfolding(crate::specs::Normal::normal_answer, crate::specs::Normal::normal_of))]
pub fn normalize_quad_ordered(
    xs: &[f64],
    ys: &[f64],
    a: u8,
    b: u8,
    c: u8,
    d: u8,
) -> Result<Quad, Refusal>
    ensures { result ≡ normal_answer xs.now ys.now a b c d }
{
    quad_stars::check_four(xs, ys, a, b, c, d)?;
    let f = quad_stars::four_at(xs, ys, a, b, c, d);
    answer_of(normalize(quad_stars::dist_sq(f.a, f.b), f))
}
