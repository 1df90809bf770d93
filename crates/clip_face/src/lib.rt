// The clip for C: it answers its number, and hands the plate back in the six numbers that are lent.
#![tactic(auto)]

ghost use Rattle.std.specs.Prelude.{◌≡◌, length};
ghost use Rattle.rows.specs.Rows.{rows};
ghost use Rattle.cd_clip.specs.Clip.{clip_number};
ghost use Rattle.cd_plate.specs.Six.{cd_numbers};
ghost use Rattle.clip_face.specs.Face.{plate_after, clip_face};

use answer::Refusal;
use cd_clip::Clipped;
use cd_plate::Cd;

// The longest list of weights.
const MOST_ROWS: usize = 100;

// Writes the numbers of a plate over six others, which is room enough.
fn put_plate(cd: &mut [f64], m: Cd)
    requires { length cd.old ≡ 6 }
    ensures { cd.new ≡ cd_numbers m }
{
    let _ = cd_plate::put_cd(cd, m);
}

// Writes the plate of a clip that hands one back; the number of the clip.
fn put_clip(end: Result<Clipped, Refusal>, cd: &mut [f64]) -> u32
    requires { length cd.old ≡ 6 }
    ensures number { result ≡ clip_number end }
    ensures cd { cd.new ≡ plate_after end cd.old }
{
    let number = cd_clip::number(end);
    match end {
        Ok(Clipped::Done(m)) => put_plate(cd, m),
        Ok(Clipped::Stopped(m)) => put_plate(cd, m),
        Err(_) => {}
    }
    number
}

// The weighted clip of rows under a CD of six numbers.
pub fn sigma_clip_loop_weighted(
    px: &[f64],
    py: &[f64],
    xi: &[f64],
    eta: &[f64],
    mask: &mut [u8],
    cd: &mut [f64],
    weights: &[f64],
) -> u32
    ensures number { result ≡ clip_number (clip_face
        (rows px.now py.now xi.now eta.now) mask.old cd.old weights.now).answer }
    ensures mask { mask.new ≡ (clip_face
        (rows px.now py.now xi.now eta.now) mask.old cd.old weights.now).mask }
    ensures cd { cd.new ≡ plate_after (clip_face
        (rows px.now py.now xi.now eta.now) mask.old cd.old weights.now).answer cd.old }
{
    if cd.len() != 6 {
        if cd_plate::few_masked(px, py, xi, eta, mask) & (weights.len() <= MOST_ROWS) {
            return Refusal::Lengths.number();
        }
        return Refusal::Count.number();
    }
    let m = Cd::of(cd);
    put_clip(
        cd_clip::sigma_clip_loop_weighted(px, py, xi, eta, mask, m, weights),
        cd,
    )
}
