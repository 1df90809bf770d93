// The tests of a SIP fit's input, in the order of this call.
#![tactic(auto)]

ghost use Rattle.std.specs.Prelude.{◌≡◌};
ghost use Rattle.rows.specs.Rows.{rows};
ghost use Rattle.sip_sums.specs.Field.{field};
ghost use Rattle.sip_tests.specs.Tests.{field_answer, order_answer, tests_answer};

use answer::Refusal;
use cd_plate::Cd;
use sip_terms::Sip;
use wcs::Wcs;

// The most rows.
const MOST_ROWS: usize = 100;

// The tests of the lists and of the WCS, in their order.
fn check_field(
    px: &[f64],
    py: &[f64],
    xi: &[f64],
    eta: &[f64],
    snr: &[f64],
    wcs: Wcs,
) -> Result<(), Refusal>
    ensures { result ≡ field_answer (field (rows px.now py.now xi.now eta.now) snr.now wcs) }
{
    if !(rows::few_rows(px, py, xi, eta) & (snr.len() <= MOST_ROWS)) {
        return Err(Refusal::Count);
    }
    if !(rows::even_rows(px, py, xi, eta) & (snr.len() == px.len())) {
        return Err(Refusal::Lengths);
    }
    let numbers = rows::position_rows(px, py, xi, eta) & domain::all_snrs(snr);
    if !(numbers & wcs.is_taken()) {
        return Err(Refusal::Value);
    }
    Ok(())
}

// The tests that follow, of so many rows and places: the order, the rows, the room, the given factors.
fn check_order(count: usize, wcs: Wcs, order: u32, a: usize, b: usize) -> Result<(), Refusal>
    ensures { result ≡ order_answer count wcs order a b }
{
    if (order < Sip::LEAST_ORDER) | (Sip::MOST_ORDER < order) {
        return Err(Refusal::Order);
    }
    let n = sip_terms::term_count(order);
    if (count < Sip::LEAST_ROWS) | (count < n) {
        return Err(Refusal::Rows);
    }
    if (a < n) | (b < n) {
        return Err(Refusal::Room);
    }
    if floats::magnitude(wcs.plate().determinant()) > Cd::LEAST_DETERMINANT {
        return Ok(());
    }
    Err(Refusal::Degenerate)
}

// All tests before the fit, in their order.
pub fn check_call(
    px: &[f64],
    py: &[f64],
    xi: &[f64],
    eta: &[f64],
    snr: &[f64],
    wcs: Wcs,
    order: u32,
    a: usize,
    b: usize,
) -> Result<(), Refusal>
    ensures { result ≡ tests_answer (field (rows px.now py.now xi.now eta.now) snr.now wcs) order a b }
{
    check_field(px, py, xi, eta, snr, wcs)?;
    check_order(px.len(), wcs, order, a, b)
}
