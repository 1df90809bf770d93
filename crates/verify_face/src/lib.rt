// The calls on affines for C: each answers its number, and writes its result into what is lent.
#![tactic(auto)]

ghost use Rattle.std.specs.Prelude.{◌≡◌, ◌≤◌, length};
ghost use Rattle.answer.specs.Answers.{answer_number, room_for, lent_after, number_after};
ghost use Rattle.rows.specs.Rows.{rows};
ghost use Rattle.verify_order.specs.Sorted.{sorted_rows};
ghost use Rattle.verify.specs.Score.{NoneBetter};
ghost use Rattle.verify_face.specs.Face.{affine_numbers, affine_in, affine_face, affine_written, inliers_face, inliers_count};
ghost use Rattle.verify_face.specs.Face.{score_face, score_count};

use affine::Affine;
use answer::Refusal;

// Writes the six numbers of an affine into the front of a list that has the room.
fn put_affine(out: &mut [f64], m: Affine) -> Result<(), Refusal>
    ensures answer { result ≡ room_for 6 (length out.old) }
    ensures after { out.new ≡ lent_after (room_for 6 (length out.old)) (affine_numbers m) out.old }
{
    if out.len() < 6 {
        return Err(Refusal::Room);
    }
    out[0] = m.a11;
    out[1] = m.a12;
    out[2] = m.tx;
    out[3] = m.a21;
    out[4] = m.a22;
    out[5] = m.ty;
    Ok(())
}

// The affine that six numbers make.
fn affine_in(m: &[f64]) -> Affine
    requires { 6 ≤ length m.now }
    ensures { result ≡ affine_in m.now }
{
    Affine::new(m[0], m[1], m[2], m[3], m[4], m[5])
}

// The affine of the rows at three places.
pub fn fit_affine_3pt(
    px: &[f64],
    py: &[f64],
    xi: &[f64],
    eta: &[f64],
    a: u8,
    b: u8,
    c: u8,
    affine: &mut [f64],
) -> u32
    ensures number { result ≡ answer_number
        (affine_face (rows px.now py.now xi.now eta.now) a b c (length affine.old)) }
    ensures affine { affine.new ≡ lent_after
        (affine_face (rows px.now py.now xi.now eta.now) a b c (length affine.old))
        (affine_written (rows px.now py.now xi.now eta.now) a b c)
        affine.old }
{
    match verify_affine::fit_affine_3pt(px, py, xi, eta, a, b, c) {
        Err(why) => {
            let room = answer::room_for(6, affine.len());
            answer::number(answer::in_turn(why, room))
        }
        Ok(m) => answer::number(put_affine(affine, m)),
    }
}

// How many rows agree with an affine of six numbers.
pub fn count_affine_inliers(
    px: &[f64],
    py: &[f64],
    xi: &[f64],
    eta: &[f64],
    affine: &[f64],
    threshold: f64,
    inliers: &mut u64,
) -> u32
    ensures number { result ≡ answer_number
        (inliers_face (rows px.now py.now xi.now eta.now) affine.now threshold) }
    ensures inliers { inliers.new ≡ number_after
        (inliers_face (rows px.now py.now xi.now eta.now) affine.now threshold)
        (inliers_count (rows px.now py.now xi.now eta.now) affine.now threshold)
        inliers.old }
{
    if affine.len() != 6 {
        if rows::few_rows(px, py, xi, eta) {
            return Refusal::Lengths.number();
        }
        return Refusal::Count.number();
    }
    match verify_affine::count_affine_inliers(px, py, xi, eta, affine_in(affine), threshold) {
        Err(why) => why.number(),
        Ok(count) => {
            *inliers = count as u64;
            0
        }
    }
}

// The score of the rows: how many agree with the best affine of the draw. `best` says so of what is handed out: no drawn
// triple that can be fitted has more rows.
pub fn verify_pairs(px: &[f64], py: &[f64], xi: &[f64], eta: &[f64], score: &mut u64) -> u32
    ensures number { result ≡ answer_number (score_face (rows px.now py.now xi.now eta.now)) }
    ensures score { score.new ≡ number_after
        (score_face (rows px.now py.now xi.now eta.now))
        (score_count (rows px.now py.now xi.now eta.now))
        score.old }
    ensures best { result ≡ 0 → 3 ≤ length px.now
        → NoneBetter (sorted_rows (rows px.now py.now xi.now eta.now)) score.new }
{
    match verify::verify_pairs(px, py, xi, eta) {
        Err(why) => why.number(),
        Ok(count) => {
            *score = count as u64;
            0
        }
    }
}
