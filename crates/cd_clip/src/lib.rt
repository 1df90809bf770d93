// The weighted clip: rounds that turn far rows off and fit the others anew.
#![tactic(auto)]

ghost use Rattle.std.specs.Prelude.{◌≡◌, length};
ghost use Rattle.rows.specs.Rows.{rows};
ghost use Rattle.cd_round.specs.Round.{roots_of};
ghost use Rattle.cd_clip.specs.Clip.{Checked, refit_of, ended, clip_from, clip_tests, sigma_clip, clip_number};

use answer::Refusal;
use cd_plate::Cd;
use cd_round::Clip;

// The most rows.
const MOST_ROWS: usize = 100;

// How a clip that is not refused ends: done, or stopped by a fit that is refused with 8, each with the
// last plate that is good.
#[derive(Clone, Copy)]
pub enum Clipped {
    Done(Cd),
    Stopped(Cd),
}

// The number of an answer: 0 is done.
pub fn number(answer: Result<Clipped, Refusal>) -> u32
    ensures { result ≡ clip_number answer }
{
    match answer {
        Ok(Clipped::Done(_)) => 0,
        Ok(Clipped::Stopped(_)) => Refusal::Degenerate.number(),
        Err(why) => why.number(),
    }
}

// The plate that fits the rows that are on, each by its weight.
fn refit(
    px: &[f64],
    py: &[f64],
    xi: &[f64],
    eta: &[f64],
    mask: &[u8],
    weights: &[f64],
) -> Result<Cd, Refusal>
    requires { Checked (rows px.now py.now xi.now eta.now) mask.now weights.now }
    ensures { result ≡ refit_of (rows px.now py.now xi.now eta.now) weights.now mask.now }
{
    cd_fit::solve_both(cd_sums::sum_weighted(px, py, xi, eta, mask, weights))
}

// The rounds, with the roots of the weights and a place for each error. Each goes over the rows twice,
// since what it rejects by comes of all their errors. They are left where fewer than three rows are on,
// where none is rejected, and where fewer than three are left.
fn clip_rounds(
    px: &[f64],
    py: &[f64],
    xi: &[f64],
    eta: &[f64],
    mask: &mut [u8],
    start: Cd,
    weights: &[f64],
    roots: &[f64],
    errors: &mut [f64],
) -> Result<Clipped, Refusal>
    requires fact_1 { Checked (rows px.now py.now xi.now eta.now) mask.old weights.now }
    requires fact_2 { roots.now ≡ roots_of weights.now }
    requires fact_3 { length errors.old ≡ length px.now }
    ensures { ended result mask.new ≡ clip_from 10
        (rows px.now py.now xi.now eta.now) weights.now mask.old start }
{
    let n = px.len();
    let mut cd = start;
    'rounds: for _ in 0..Clip::ROUNDS {
        let v = cd.inverse();
        let mut sum = 0.0;
        let mut on = 0usize;
        for i in 0..n {
            let b = mask[i];
            let e = cd_plate::error_if(b == 1, v, rows::row_at(px, py, xi, eta, i));
            errors[i] = e;
            sum = cd_round::with_square_if(sum, b == 1, weights[i], e);
            on += cd_mask::is_on(b);
        }
        if on < Clip::LEAST_ROWS {
            break 'rounds;
        }
        let clip = Clip::of(sum, on);
        let mut any = false;
        let mut left = 0usize;
        for i in 0..n {
            let b = mask[i];
            let out = clip.rejects(b == 1, errors[i], roots[i]);
            let kept = cd_round::byte_left(out, b);
            mask[i] = kept;
            any = any | out;
            left += cd_mask::is_on(kept);
        }
        if !any {
            break 'rounds;
        }
        if left < Clip::LEAST_ROWS {
            break 'rounds;
        }
        let Ok(next) = refit(px, py, xi, eta, mask, weights) else {
            return Ok(Clipped::Stopped(cd));
        };
        cd = next;
    }
    Ok(Clipped::Done(cd))
}

// The clip of rows that passed their tests. The roots of the weights are taken once.
fn clip_rows(
    px: &[f64],
    py: &[f64],
    xi: &[f64],
    eta: &[f64],
    mask: &mut [u8],
    cd: Cd,
    weights: &[f64],
) -> Result<Clipped, Refusal>
    requires { Checked (rows px.now py.now xi.now eta.now) mask.old weights.now }
    ensures { ended result mask.new ≡ clip_from 10
        (rows px.now py.now xi.now eta.now) weights.now mask.old cd }
{
    let n = px.len();
    let mut roots = [0.0; MOST_ROWS];
    let mut errors = [0.0; MOST_ROWS];
    cd_round::put_roots(weights, &mut roots);
    clip_rounds(
        px,
        py,
        xi,
        eta,
        mask,
        cd,
        weights,
        &roots[..n],
        &mut errors[..n],
    )
}

// The tests of the input, in their order; a plate that is not finite is refused with 3, as a row is.
#[tactic(auto, unfolding(crate::specs::Clip::clip_tests))]
fn check_clip(
    px: &[f64],
    py: &[f64],
    xi: &[f64],
    eta: &[f64],
    mask: &[u8],
    cd: Cd,
    weights: &[f64],
) -> Result<(), Refusal>
    ensures { result ≡ clip_tests (rows px.now py.now xi.now eta.now) mask.now cd weights.now }
{
    cd_fit::check_weighed(px, py, xi, eta, mask, weights)?;
    if cd.is_finite() {
        return Ok(());
    }
    Err(Refusal::Value)
}

// The weighted clip of rows under a plate: the mask keeps the rows that are left, and the answer
// hands the plate back.
pub fn sigma_clip_loop_weighted(
    px: &[f64],
    py: &[f64],
    xi: &[f64],
    eta: &[f64],
    mask: &mut [u8],
    cd: Cd,
    weights: &[f64],
) -> Result<Clipped, Refusal>
    ensures answer { result ≡ (sigma_clip
        (rows px.now py.now xi.now eta.now) mask.old cd weights.now).answer }
    ensures mask { mask.new ≡ (sigma_clip
        (rows px.now py.now xi.now eta.now) mask.old cd weights.now).mask }
{
    check_clip(px, py, xi, eta, mask, cd, weights)?;
    clip_rows(px, py, xi, eta, mask, cd, weights)
}
