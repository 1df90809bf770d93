// A round of the weighted clip at one row: its square in the sum, whether it is rejected, and the byte that is left.
#![tactic(auto)]

ghost use Rattle.std.specs.Prelude.{◌≡◌, cond, ◌&&◌, ◌≤◌, length};
ghost use Rattle.std.specs.Float.Ieee.{lt};
ghost use Rattle.answer.specs.Answers.{written};
ghost use Rattle.floats.specs.Rounded.{◌⊕◌, ◌⊗◌};
ghost use Rattle.cd_round.specs.Round.{roots_of, clip_of};

// What a round rejects by: a row's error times the root of its weight may not be above the limit.
#[derive(Clone, Copy)]
pub struct Clip {
    pub limit: f64,
}

impl Clip {
    // How many times the weighted rms the limit is.
    pub const FACTOR: f64 = 3.0;
    // The most rounds of a clip.
    pub const ROUNDS: usize = 10;
    // With fewer rows on the clip is done.
    pub const LEAST_ROWS: usize = 3;

    // Of the sum of the weighted squares, and how many rows are on.
    pub fn of(sum: f64, on: usize) -> Clip
        requires { on ≤ 100 }
        ensures { result ≡ clip_of sum on }
    {
        Clip {
            limit: Clip::FACTOR * root::root(sum / (on as u32) as f64),
        }
    }

    // Whether a row is rejected: one that is on, past the limit.
    pub fn rejects(self, on: bool, error: f64, root: f64) -> bool
        ensures { result ≡ (on && lt self.limit (error ⊗ root)) }
    {
        on & (error * root > self.limit)
    }
}

// Writes the roots of the weights from the front of a list that has the room.
pub fn put_roots(weights: &[f64], roots: &mut [f64])
    requires { length weights.now ≤ length roots.old }
    ensures { roots.new ≡ written (roots_of weights.now) roots.old }
{
    for (i, w) in weights.iter().enumerate() {
        roots[i] = root::root(*w);
    }
}

// The sum with the weighted square of a row that is on.
pub fn with_square_if(sum: f64, on: bool, w: f64, e: f64) -> f64
    ensures { result ≡ cond on (sum ⊕ w ⊗ e ⊗ e) sum }
{
    if on { sum + w * e * e } else { sum }
}

// The byte of a row after the round: off where it is rejected, and else as it was.
pub fn byte_left(out: bool, b: u8) -> u8
    ensures { result ≡ cond out 0 b }
{
    if out { 0 } else { b }
}
