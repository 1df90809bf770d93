// The residuals of rows in degrees under a WCS.
#![tactic(auto)]

ghost use Rattle.std.specs.Prelude.{◌≡◌, ◌≤◌, length};
ghost use Rattle.answer.specs.Answers.{written, lent_after};
ghost use Rattle.rows.specs.Rows.{rows};
ghost use Rattle.cd_plate.specs.Filled.{filled};
ghost use Rattle.cd_residuals.specs.Residuals.{input_answer, found_of, residual_of, x_at, y_at, px_at, room_answer};
ghost use Rattle.cd_residuals.specs.Residuals.{residuals_done, residuals_answer, found_after, residuals_x, residuals_y, residuals_px};

use answer::Refusal;
use cd_plate::{Cd, Inverse};
use rows::Row;
use wcs::Wcs;

// What a row's pixel is away from where its point goes: in x, in y, and in all.
#[derive(Clone, Copy)]
struct Residual {
    x: f64,
    y: f64,
    px: f64,
}

// The residual of one row.
fn residual_of(wcs: Wcs, v: Inverse, row: Row) -> Residual
    ensures { result ≡ residual_of wcs v row }
{
    let x = row.px - (v.i00 * row.xi + v.i01 * row.eta + wcs.crpix1);
    let y = row.py - (v.i10 * row.xi + v.i11 * row.eta + wcs.crpix2);
    let px = root::root(x * x + y * y);
    Residual { x, y, px }
}

// The tests of the input, in their order.
fn check_input(px: &[f64], py: &[f64], xi: &[f64], eta: &[f64], wcs: Wcs) -> Result<(), Refusal>
    ensures { result ≡ input_answer (rows px.now py.now xi.now eta.now) wcs }
{
    if !rows::few_rows(px, py, xi, eta) {
        return Err(Refusal::Count);
    }
    if !rows::even_rows(px, py, xi, eta) {
        return Err(Refusal::Lengths);
    }
    if !(rows::position_rows(px, py, xi, eta) & wcs.is_taken()) {
        return Err(Refusal::Value);
    }
    Ok(())
}

// How many of n rows have a residual: none where the factors cannot be inverted. NaN passes.
fn found_of(wcs: Wcs, n: usize) -> usize
    ensures { result ≡ found_of wcs n }
{
    if floats::magnitude(wcs.plate().determinant()) < Cd::LEAST_DETERMINANT {
        return 0;
    }
    n
}

// Whether the three lists have the places that they need.
fn room_of(need: usize, x: usize, y: usize, px: usize) -> Result<(), Refusal>
    ensures { result ≡ room_answer need x y px }
{
    if (x < need) | (y < need) {
        return Err(Refusal::Room);
    }
    answer::room_for(need, px)
}

// Writes the residuals of the first n rows from the front of three lists that have the room.
fn put_residuals(
    px: &[f64],
    py: &[f64],
    xi: &[f64],
    eta: &[f64],
    n: usize,
    wcs: Wcs,
    v: Inverse,
    err_x: &mut [f64],
    err_y: &mut [f64],
    err_px: &mut [f64],
)
    requires py_len_1 { length py.now ≡ length px.now }
    requires py_len_2 { length xi.now ≡ length px.now }
    requires py_len_3 { length eta.now ≡ length px.now }
    requires n_in_bounds_1 { n ≤ length px.now }
    requires n_in_bounds_2 { n ≤ length err_x.old }
    requires n_in_bounds_3 { n ≤ length err_y.old }
    requires n_in_bounds_4 { n ≤ length err_px.old }
    ensures { (err_x.new ≡ written
        (filled (x_at (rows px.now py.now xi.now eta.now) wcs v) n) err_x.old)
        × (err_y.new ≡ written
        (filled (y_at (rows px.now py.now xi.now eta.now) wcs v) n) err_y.old)
        × (err_px.new ≡ written
        (filled (px_at (rows px.now py.now xi.now eta.now) wcs v) n) err_px.old) }
{
    for i in 0..n {
        let e = residual_of(wcs, v, rows::row_at(px, py, xi, eta, i));
        err_x[i] = e.x;
        err_y[i] = e.y;
        err_px[i] = e.px;
    }
}

// The residuals of an input that passed its tests: counted first, so that nothing is written without room.
fn write_residuals(
    px: &[f64],
    py: &[f64],
    xi: &[f64],
    eta: &[f64],
    wcs: Wcs,
    err_x: &mut [f64],
    err_y: &mut [f64],
    err_px: &mut [f64],
) -> Result<usize, Refusal>
    requires fact_1 { length py.now ≡ length px.now }
    requires fact_2 { length xi.now ≡ length px.now }
    requires fact_3 { length eta.now ≡ length px.now }
    ensures { (result ≡ found_after (room_answer (found_of wcs (length px.now))
        (length err_x.old) (length err_y.old) (length err_px.old)) (found_of wcs (length px.now)))
        × (err_x.new ≡ lent_after (room_answer (found_of wcs (length px.now))
        (length err_x.old) (length err_y.old) (length err_px.old))
        (residuals_x (rows px.now py.now xi.now eta.now) wcs) err_x.old)
        × (err_y.new ≡ lent_after (room_answer (found_of wcs (length px.now))
        (length err_x.old) (length err_y.old) (length err_px.old))
        (residuals_y (rows px.now py.now xi.now eta.now) wcs) err_y.old)
        × (err_px.new ≡ lent_after (room_answer (found_of wcs (length px.now))
        (length err_x.old) (length err_y.old) (length err_px.old))
        (residuals_px (rows px.now py.now xi.now eta.now) wcs) err_px.old) }
{
    let n = found_of(wcs, px.len());
    room_of(n, err_x.len(), err_y.len(), err_px.len())?;
    let v = wcs.plate().inverse();
    put_residuals(px, py, xi, eta, n, wcs, v, err_x, err_y, err_px);
    Ok(n)
}

// The residuals of rows in degrees, written from the front of three lists; none where the
// determinant's magnitude is below the least.
pub fn compute_residuals(
    px: &[f64],
    py: &[f64],
    xi: &[f64],
    eta: &[f64],
    wcs: Wcs,
    err_x: &mut [f64],
    err_y: &mut [f64],
    err_px: &mut [f64],
) -> Result<usize, Refusal>
    ensures answer { result ≡ residuals_answer (rows px.now py.now xi.now eta.now) wcs
        (length err_x.old) (length err_y.old) (length err_px.old) }
    ensures x { err_x.new ≡ lent_after
        (residuals_done (rows px.now py.now xi.now eta.now) wcs
        (length err_x.old) (length err_y.old) (length err_px.old))
        (residuals_x (rows px.now py.now xi.now eta.now) wcs) err_x.old }
    ensures y { err_y.new ≡ lent_after
        (residuals_done (rows px.now py.now xi.now eta.now) wcs
        (length err_x.old) (length err_y.old) (length err_px.old))
        (residuals_y (rows px.now py.now xi.now eta.now) wcs) err_y.old }
    ensures px { err_px.new ≡ lent_after
        (residuals_done (rows px.now py.now xi.now eta.now) wcs
        (length err_x.old) (length err_y.old) (length err_px.old))
        (residuals_px (rows px.now py.now xi.now eta.now) wcs) err_px.old }
{
    check_input(px, py, xi, eta, wcs)?;
    write_residuals(px, py, xi, eta, wcs, err_x, err_y, err_px)
}
