// The pixel errors of rows under a CD plate.
#![tactic(auto)]

ghost use Rattle.std.specs.Prelude.{◌≡◌, length};
ghost use Rattle.answer.specs.Answers.{lent_after};
ghost use Rattle.rows.specs.Rows.{rows};
ghost use Rattle.cd_errors.specs.Errors.{errors_answer, pixel_errors};

use answer::Refusal;
use cd_plate::Cd;

// The tests of the input, in their order, and the room for the errors.
fn check_errors(
    px: &[f64],
    py: &[f64],
    xi: &[f64],
    eta: &[f64],
    mask: &[u8],
    cd: Cd,
    places: usize,
) -> Result<(), Refusal>
    ensures { result ≡ errors_answer (rows px.now py.now xi.now eta.now) mask.now cd places }
{
    if !cd_plate::few_masked(px, py, xi, eta, mask) {
        return Err(Refusal::Count);
    }
    if !cd_plate::even_masked(px, py, xi, eta, mask) {
        return Err(Refusal::Lengths);
    }
    if !(cd_plate::good_masked(px, py, xi, eta, mask) & cd.is_finite()) {
        return Err(Refusal::Value);
    }
    answer::room_for(px.len(), places)
}

// The error of each row in pixels, +0.0 where it is off, written from the front of a list.
pub fn compute_pixel_errors(
    px: &[f64],
    py: &[f64],
    xi: &[f64],
    eta: &[f64],
    mask: &[u8],
    cd: Cd,
    errors: &mut [f64],
) -> Result<(), Refusal>
    ensures answer { result ≡ errors_answer
        (rows px.now py.now xi.now eta.now) mask.now cd (length errors.old) }
    ensures errors { errors.new ≡ lent_after
        (errors_answer (rows px.now py.now xi.now eta.now) mask.now cd (length errors.old))
        (pixel_errors (rows px.now py.now xi.now eta.now) mask.now cd)
        errors.old }
{
    check_errors(px, py, xi, eta, mask, cd, errors.len())?;
    cd_plate::put_errors(px, py, xi, eta, mask, cd.inverse(), errors);
    Ok(())
}
