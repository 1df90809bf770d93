// The fits and the equations for C: each call answers its number, and writes its result into what is lent.
#![tactic(auto)]

ghost use Rattle.std.specs.Prelude.{◌≡◌, length};
ghost use Rattle.answer.specs.Answers.{answer_number, lent_after};
ghost use Rattle.rows.specs.Rows.{rows};
ghost use Rattle.cd_fit.specs.Fit.{fit_answer};
ghost use Rattle.cd_normal.specs.Normal.{normal_solved, unknowns_of, normal_answer};
ghost use Rattle.fit_face.specs.Face.{fit_face, fit_written, weighted_fit};

use answer::Refusal;
use cd_plate::Cd;

// What a fit comes to in a list that may lack room.
fn put_fit(fit: Result<Cd, Refusal>, cd: &mut [f64]) -> u32
    ensures number { result ≡ answer_number (fit_face fit (length cd.old)) }
    ensures cd { cd.new ≡ lent_after (fit_face fit (length cd.old)) (fit_written fit) cd.old }
{
    match fit {
        Err(why) => {
            let room = answer::room_for(6, cd.len());
            answer::number(answer::in_turn(why, room))
        }
        Ok(m) => answer::number(cd_plate::put_cd(cd, m)),
    }
}

// The CD of the rows that are on.
pub fn fit_cd_matrix_6(
    px: &[f64],
    py: &[f64],
    xi: &[f64],
    eta: &[f64],
    mask: &[u8],
    cd: &mut [f64],
) -> u32
    ensures number { result ≡ answer_number (fit_face (fit_answer (rows px.now py.now xi.now eta.now) mask.now) (length cd.old)) }
    ensures cd { cd.new ≡ lent_after
        (fit_face (fit_answer (rows px.now py.now xi.now eta.now) mask.now) (length cd.old))
        (fit_written (fit_answer (rows px.now py.now xi.now eta.now) mask.now))
        cd.old }
{
    put_fit(cd_fit::fit_cd_matrix_6(px, py, xi, eta, mask), cd)
}

// The same with a weight for each row.
pub fn fit_cd_weighted(
    px: &[f64],
    py: &[f64],
    xi: &[f64],
    eta: &[f64],
    mask: &[u8],
    weights: &[f64],
    cd: &mut [f64],
) -> u32
    ensures number { result ≡ answer_number
        (fit_face (weighted_fit (rows px.now py.now xi.now eta.now) mask.now weights.now) (length cd.old)) }
    ensures cd { cd.new ≡ lent_after
        (fit_face (weighted_fit (rows px.now py.now xi.now eta.now) mask.now weights.now) (length cd.old))
        (fit_written (weighted_fit (rows px.now py.now xi.now eta.now) mask.now weights.now))
        cd.old }
{
    put_fit(cd_fit::fit_cd_weighted(px, py, xi, eta, mask, weights), cd)
}

// The unknowns of n equations, a given row by row.
pub fn solve_normal_equations(a: &[f64], b: &[f64], n: u32, x: &mut [f64]) -> u32
    ensures number { result ≡ answer_number (normal_answer a.now b.now n (length x.old)) }
    ensures x { x.new ≡ lent_after
        (normal_answer a.now b.now n (length x.old))
        (unknowns_of (normal_solved a.now b.now n))
        x.old }
{
    answer::number(cd_normal::solve_normal_equations(a, b, n as usize, x))
}
