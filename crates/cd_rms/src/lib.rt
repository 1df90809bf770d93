// The root mean square of residuals, plain and weighted.
#![tactic(auto)]

ghost use Rattle.std.specs.Prelude.{◌≡◌, ◌≤◌, length};
ghost use Rattle.cd_rms.specs.Rms.{squares_to, rms_of, rms_answer, no_weights, with_error, weighted_to, weighted_of, weighted_answer};

use answer::Refusal;

// The longest list of residuals.
const MOST_ERRORS: usize = 100;

// The sum of the squares, from the first on.
fn sum_squares(errors: &[f64]) -> f64
    ensures { result ≡ squares_to errors.now (length errors.now) }
{
    let mut sum = 0.0;
    for e in errors {
        sum = sum + e * e;
    }
    sum
}

// The root of the mean square; 0.0 where there is no error.
fn rms_of(errors: &[f64]) -> f64
    requires { length errors.now ≤ 100 }
    ensures { result ≡ rms_of errors.now }
{
    let n = errors.len();
    if n == 0 {
        return 0.0;
    }
    root::root(sum_squares(errors) / (n as u32) as f64)
}

// The root mean square of errors.
pub fn rms_error(err_px: &[f64]) -> Result<f64, Refusal>
    ensures { result ≡ rms_answer err_px.now }
{
    if MOST_ERRORS < err_px.len() {
        return Err(Refusal::Count);
    }
    Ok(rms_of(err_px))
}

// The sum of weights, and that of the weighted squares.
#[derive(Clone, Copy)]
struct Weighed {
    w: f64,
    we2: f64,
}

impl Weighed {
    // Of no error.
    fn new() -> Weighed
        ensures { result ≡ no_weights }
    {
        Weighed { w: 0.0, we2: 0.0 }
    }

    // With one error more.
    fn with_error(self, w: f64, e: f64) -> Weighed
        ensures { result ≡ with_error self w e }
    {
        Weighed {
            w: self.w + w,
            we2: self.we2 + w * e * e,
        }
    }
}

// Both sums, from the first error on.
fn sum_weighted(errors: &[f64], weights: &[f64]) -> Weighed
    requires { length weights.now ≡ length errors.now }
    ensures { result ≡ weighted_to errors.now weights.now (length errors.now) }
{
    let mut s = Weighed::new();
    for i in 0..errors.len() {
        s = s.with_error(weights[i], errors[i]);
    }
    s
}

// The root of the weighted mean square; 0.0 where the weights come to nothing.
fn weighted_of(errors: &[f64], weights: &[f64]) -> f64
    requires { length weights.now ≡ length errors.now }
    ensures { result ≡ weighted_of errors.now weights.now }
{
    let s = sum_weighted(errors, weights);
    if s.w > 0.0 {
        return root::root(s.we2 / s.w);
    }
    0.0
}

// The weighted root mean square of errors.
pub fn weighted_rms_error(err_px: &[f64], weights: &[f64]) -> Result<f64, Refusal>
    ensures { result ≡ weighted_answer err_px.now weights.now }
{
    if (MOST_ERRORS < err_px.len()) | (MOST_ERRORS < weights.len()) {
        return Err(Refusal::Count);
    }
    if weights.len() != err_px.len() {
        return Err(Refusal::Lengths);
    }
    Ok(weighted_of(err_px, weights))
}
