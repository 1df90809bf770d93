// Rows: four lists of one length, with a pixel and a point of the tangent plane for each row.
#![tactic(auto)]

ghost use Rattle.std.specs.Prelude.{◌≡◌, ◌<◌, length};
ghost use Rattle.rows.specs.Rows.{rows, row_at, few_rows, even_rows, position_rows, rows_answer};

use answer::Refusal;

// The longest list of rows.
const MOST_ROWS: usize = 100;

// One row.
#[derive(Clone, Copy)]
pub struct Row {
    pub px: f64,
    pub py: f64,
    pub xi: f64,
    pub eta: f64,
}

// The row at a place of the lists.
pub fn row_at(px: &[f64], py: &[f64], xi: &[f64], eta: &[f64], i: usize) -> Row
    requires { (i < length px.now) × ((i < length py.now) × ((i < length xi.now) × (i < length eta.now))) }
    ensures { result ≡ row_at (rows px.now py.now xi.now eta.now) i }
{
    Row {
        px: px[i],
        py: py[i],
        xi: xi[i],
        eta: eta[i],
    }
}

// Whether no list has more than 100 rows.
pub fn few_rows(px: &[f64], py: &[f64], xi: &[f64], eta: &[f64]) -> bool
    ensures { result ≡ few_rows (rows px.now py.now xi.now eta.now) }
{
    let pixels = (px.len() <= MOST_ROWS) & (py.len() <= MOST_ROWS);
    let plane = (xi.len() <= MOST_ROWS) & (eta.len() <= MOST_ROWS);
    pixels & plane
}

// Whether the lists are of one length.
pub fn even_rows(px: &[f64], py: &[f64], xi: &[f64], eta: &[f64]) -> bool
    ensures { result ≡ even_rows (rows px.now py.now xi.now eta.now) }
{
    let n = px.len();
    (py.len() == n) & ((xi.len() == n) & (eta.len() == n))
}

// Whether every number is a position.
pub fn position_rows(px: &[f64], py: &[f64], xi: &[f64], eta: &[f64]) -> bool
    ensures { result ≡ position_rows (rows px.now py.now xi.now eta.now) }
{
    let pixels = domain::all_positions(px) & domain::all_positions(py);
    let plane = domain::all_positions(xi) & domain::all_positions(eta);
    pixels & plane
}

// Whether the lists are rows: the first of refusals 1, 2 and 3, or done.
pub fn check_rows(px: &[f64], py: &[f64], xi: &[f64], eta: &[f64]) -> Result<(), Refusal>
    ensures { result ≡ rows_answer (rows px.now py.now xi.now eta.now) }
{
    if !few_rows(px, py, xi, eta) {
        return Err(Refusal::Count);
    }
    if !even_rows(px, py, xi, eta) {
        return Err(Refusal::Lengths);
    }
    if !position_rows(px, py, xi, eta) {
        return Err(Refusal::Value);
    }
    Ok(())
}
