// Errors, residuals and their root mean squares for C: each call answers its number, and writes its result into what is lent.
#![tactic(auto)]

ghost use Rattle.std.specs.Prelude.{◌≡◌, length};
ghost use Rattle.answer.specs.Answers.{answer_number, lent_after, number_after};
ghost use Rattle.rows.specs.Rows.{rows};
ghost use Rattle.wcs.specs.Wcs.{wcs_in};
ghost use Rattle.cd_residuals.specs.Residuals.{residuals_x, residuals_y, residuals_px, found_of};
ghost use Rattle.errors_face.specs.Face.{errors_face, errors_written, residuals_face, value_after, rms_done};
ghost use Rattle.errors_face.specs.Face.{rms_in, rms_face, rms_value, weighted_face, weighted_value};

use answer::Refusal;
use cd_plate::Cd;
use wcs::Wcs;

// The error of each row in pixels under a CD of six numbers.
pub fn compute_pixel_errors(
    px: &[f64],
    py: &[f64],
    xi: &[f64],
    eta: &[f64],
    mask: &[u8],
    cd: &[f64],
    errors: &mut [f64],
) -> u32
    ensures number { result ≡ answer_number
        (errors_face (rows px.now py.now xi.now eta.now) mask.now cd.now (length errors.old)) }
    ensures errors { errors.new ≡ lent_after
        (errors_face (rows px.now py.now xi.now eta.now) mask.now cd.now (length errors.old))
        (errors_written (rows px.now py.now xi.now eta.now) mask.now cd.now)
        errors.old }
{
    if cd.len() != 6 {
        if cd_plate::few_masked(px, py, xi, eta, mask) {
            return Refusal::Lengths.number();
        }
        return Refusal::Count.number();
    }
    answer::number(cd_errors::compute_pixel_errors(px, py, xi, eta, mask, Cd::of(cd), errors))
}

// The residuals of rows in degrees under a WCS of six numbers, and how many they are.
pub fn compute_residuals(
    px: &[f64],
    py: &[f64],
    xi: &[f64],
    eta: &[f64],
    wcs: &[f64],
    x: &mut [f64],
    y: &mut [f64],
    all: &mut [f64],
    residuals: &mut u64,
) -> u32
    ensures number { result ≡ answer_number
        (residuals_face (rows px.now py.now xi.now eta.now) wcs.now (length x.old) (length y.old) (length all.old)) }
    ensures x { x.new ≡ lent_after
        (residuals_face (rows px.now py.now xi.now eta.now) wcs.now (length x.old) (length y.old) (length all.old))
        (residuals_x (rows px.now py.now xi.now eta.now) (wcs_in wcs.now))
        x.old }
    ensures y { y.new ≡ lent_after
        (residuals_face (rows px.now py.now xi.now eta.now) wcs.now (length x.old) (length y.old) (length all.old))
        (residuals_y (rows px.now py.now xi.now eta.now) (wcs_in wcs.now))
        y.old }
    ensures all { all.new ≡ lent_after
        (residuals_face (rows px.now py.now xi.now eta.now) wcs.now (length x.old) (length y.old) (length all.old))
        (residuals_px (rows px.now py.now xi.now eta.now) (wcs_in wcs.now))
        all.old }
    ensures residuals { residuals.new ≡ number_after
        (residuals_face (rows px.now py.now xi.now eta.now) wcs.now (length x.old) (length y.old) (length all.old))
        (found_of (wcs_in wcs.now) (length px.now))
        residuals.old }
{
    if wcs.len() != 6 {
        if rows::few_rows(px, py, xi, eta) {
            return Refusal::Lengths.number();
        }
        return Refusal::Count.number();
    }
    match cd_residuals::compute_residuals(px, py, xi, eta, Wcs::of(wcs), x, y, all) {
        Err(why) => why.number(),
        Ok(count) => {
            *residuals = count as u64;
            0
        }
    }
}

// Hands out a root mean square, where there is one.
fn put_rms(found: Result<f64, Refusal>, rms: &mut f64) -> u32
    ensures number { result ≡ answer_number (rms_done found) }
    ensures rms { rms.new ≡ value_after (rms_done found) (rms_in found) rms.old }
{
    match found {
        Err(why) => why.number(),
        Ok(value) => {
            *rms = value;
            0
        }
    }
}

// The root mean square of errors.
pub fn rms_error(errors: &[f64], rms: &mut f64) -> u32
    ensures number { result ≡ answer_number (rms_face errors.now) }
    ensures rms { rms.new ≡ value_after (rms_face errors.now) (rms_value errors.now) rms.old }
{
    put_rms(cd_rms::rms_error(errors), rms)
}

// The weighted root mean square of errors.
pub fn weighted_rms_error(errors: &[f64], weights: &[f64], rms: &mut f64) -> u32
    ensures number { result ≡ answer_number (weighted_face errors.now weights.now) }
    ensures rms { rms.new ≡ value_after
        (weighted_face errors.now weights.now)
        (weighted_value errors.now weights.now)
        rms.old }
{
    put_rms(cd_rms::weighted_rms_error(errors, weights), rms)
}
