// The calls on affines: the fit of three rows, and the count of the rows that agree with one.
#![tactic(auto)]

ghost use Rattle.std.specs.Prelude.{◌≡◌, length};
ghost use Rattle.rows.specs.Rows.{rows, row_at};
ghost use Rattle.affine.specs.Affine.{fit_of};
ghost use Rattle.verify_affine.specs.Calls.{places_answer, fit_after, fit_answer, is_affine, values_answer, inliers_answer};

use affine::Affine;
use answer::Refusal;

// The fit of three rows, once their places are tested.
fn fit_places(
    px: &[f64],
    py: &[f64],
    xi: &[f64],
    eta: &[f64],
    a: usize,
    b: usize,
    c: usize,
) -> Result<Affine, Refusal>
    requires fact_1 { length py.now ≡ length px.now }
    requires fact_2 { length xi.now ≡ length px.now }
    requires fact_3 { length eta.now ≡ length px.now }
    ensures { result ≡ fit_after (places_answer (length px.now) a b c)
        (fit_of (row_at (rows px.now py.now xi.now eta.now) a)
        (row_at (rows px.now py.now xi.now eta.now) b)
        (row_at (rows px.now py.now xi.now eta.now) c)) }
{
    let n = px.len();
    if n <= a {
        return Err(Refusal::Place);
    }
    if n <= b {
        return Err(Refusal::Place);
    }
    if n <= c {
        return Err(Refusal::Place);
    }
    let p = rows::row_at(px, py, xi, eta, a);
    let q = rows::row_at(px, py, xi, eta, b);
    let r = rows::row_at(px, py, xi, eta, c);
    affine::fit_rows(p, q, r)
}

// The affine of the rows at three places.
#[tactic(auto, unfolding(crate::specs::Calls::fit_answer))]
pub fn fit_affine_3pt(
    px: &[f64],
    py: &[f64],
    xi: &[f64],
    eta: &[f64],
    a: u8,
    b: u8,
    c: u8,
) -> Result<Affine, Refusal>
    ensures { result ≡ fit_answer (rows px.now py.now xi.now eta.now) a b c }
{
    rows::check_rows(px, py, xi, eta)?;
    fit_places(px, py, xi, eta, a as usize, b as usize, c as usize)
}

// Whether each of an affine's six numbers is finite.
fn is_affine(m: Affine) -> bool
    ensures { result ≡ is_affine m }
{
    let xi = domain::is_finite(m.a11) & (domain::is_finite(m.a12) & domain::is_finite(m.tx));
    let eta = domain::is_finite(m.a21) & (domain::is_finite(m.a22) & domain::is_finite(m.ty));
    xi & eta
}

// Whether an affine and a threshold are in the domain: refusal 3, or done.
fn check_values(m: Affine, threshold: f64) -> Result<(), Refusal>
    ensures { result ≡ values_answer m threshold }
{
    if is_affine(m) & domain::is_limit(threshold) {
        return Ok(());
    }
    Err(Refusal::Value)
}

// How many rows agree with an affine: their error, in pixels, is below the threshold.
#[tactic(auto, unfolding(crate::specs::Calls::inliers_answer))]
pub fn count_affine_inliers(
    px: &[f64],
    py: &[f64],
    xi: &[f64],
    eta: &[f64],
    affine: Affine,
    threshold: f64,
) -> Result<usize, Refusal>
    ensures { result ≡ inliers_answer (rows px.now py.now xi.now eta.now) affine threshold }
{
    rows::check_rows(px, py, xi, eta)?;
    check_values(affine, threshold)?;
    let count = affine::count_agreeing(px, py, xi, eta, affine, threshold);
    Ok(count)
}
