// The fits of a CD plate to the rows that are on, plain and weighted.
#![tactic(auto)]

ghost use Rattle.std.specs.Prelude.{◌≡◌, length};
ghost use Rattle.rows.specs.Rows.{rows};
ghost use Rattle.elimination_rows.specs.Matrix.{cells};
ghost use Rattle.elimination.specs.Elimination.{unknowns};
ghost use Rattle.cd_sums.specs.Both.{xi_part, eta_part};
ghost use Rattle.cd_fit.specs.Fit.{plate_in, plate_fit, fit_of, masked_answer, weighed_answer, fit_answer, weighted_answer};

use answer::Refusal;
use cd_plate::Cd;
use cd_sums::Sums;

// The longest list of weights.
const MOST_ROWS: usize = 100;

// The plate of the unknowns of both axes.
fn plate_in(x: &[f64; 3], y: &[f64; 3]) -> Cd
    ensures { result ≡ plate_in x.now y.now }
{
    Cd::new(x[0], x[1], x[2], y[0], y[1], y[2])
}

// A plate whose determinant's magnitude is above the least, or refusal 8; NaN is not above.
fn plate_fit(cd: Cd) -> Result<Cd, Refusal>
    ensures { result ≡ plate_fit cd }
{
    if floats::magnitude(cd.determinant()) > Cd::LEAST_DETERMINANT {
        return Ok(cd);
    }
    Err(Refusal::Degenerate)
}

// The plate of a reduced matrix of three rows of five, with the right sides of xi and eta last.
fn plate_of(m: &[f64]) -> Result<Cd, Refusal>
    requires { length m.now ≡ 15 }
    ensures { result ≡ plate_fit (plate_in (unknowns (cells m.now 5) 3 3) (unknowns (cells m.now 5) 3 4)) }
{
    let mut x = [0.0; 3];
    let mut y = [0.0; 3];
    elimination::unknowns(m, 3, 5, 3, &mut x);
    elimination::unknowns(m, 3, 5, 4, &mut y);
    plate_fit(plate_in(&x, &y))
}

// The plate of the sums: one elimination for both axes, which share the matrix.
pub fn solve_both(s: Sums) -> Result<Cd, Refusal>
    ensures { result ≡ fit_of (xi_part s) (eta_part s) }
{
    let mut m = [
        s.uu, s.uv, s.u, s.ub, s.uc, s.uv, s.vv, s.v, s.vb, s.vc, s.u, s.v, s.one, s.b, s.c,
    ];
    let mut held = [0.0; 5];
    match elimination::eliminate_in(&mut m, 3, 5, &mut held) {
        Err(_) => Err(Refusal::Degenerate),
        Ok(()) => plate_of(&m),
    }
}

// The tests of rows with a mask, in their order.
fn check_masked(px: &[f64], py: &[f64], xi: &[f64], eta: &[f64], mask: &[u8]) -> Result<(), Refusal>
    ensures { result ≡ masked_answer (rows px.now py.now xi.now eta.now) mask.now }
{
    if !cd_plate::few_masked(px, py, xi, eta, mask) {
        return Err(Refusal::Count);
    }
    if !cd_plate::even_masked(px, py, xi, eta, mask) {
        return Err(Refusal::Lengths);
    }
    if !cd_plate::good_masked(px, py, xi, eta, mask) {
        return Err(Refusal::Value);
    }
    Ok(())
}

// The tests of rows with a mask and weights, in their order.
pub fn check_weighed(
    px: &[f64],
    py: &[f64],
    xi: &[f64],
    eta: &[f64],
    mask: &[u8],
    weights: &[f64],
) -> Result<(), Refusal>
    ensures { result ≡ weighed_answer (rows px.now py.now xi.now eta.now) mask.now weights.now }
{
    if !(cd_plate::few_masked(px, py, xi, eta, mask) & (weights.len() <= MOST_ROWS)) {
        return Err(Refusal::Count);
    }
    if !(cd_plate::even_masked(px, py, xi, eta, mask) & (weights.len() == px.len())) {
        return Err(Refusal::Lengths);
    }
    if !(cd_plate::good_masked(px, py, xi, eta, mask) & domain::all_weights(weights)) {
        return Err(Refusal::Value);
    }
    Ok(())
}

// The plate that fits the rows that are on.
pub fn fit_cd_matrix_6(
    px: &[f64],
    py: &[f64],
    xi: &[f64],
    eta: &[f64],
    mask: &[u8],
) -> Result<Cd, Refusal>
    ensures { result ≡ fit_answer (rows px.now py.now xi.now eta.now) mask.now }
{
    check_masked(px, py, xi, eta, mask)?;
    solve_both(cd_sums::sum_rows(px, py, xi, eta, mask))
}

// The plate that fits the rows that are on, each by its weight.
pub fn fit_cd_weighted(
    px: &[f64],
    py: &[f64],
    xi: &[f64],
    eta: &[f64],
    mask: &[u8],
    weights: &[f64],
) -> Result<Cd, Refusal>
    ensures { result ≡ weighted_answer (rows px.now py.now xi.now eta.now) mask.now weights.now }
{
    check_weighed(px, py, xi, eta, mask, weights)?;
    solve_both(cd_sums::sum_weighted(px, py, xi, eta, mask, weights))
}
