// The CD run for C: it answers its number, and writes what it found into what is lent.
#![tactic(auto)]

ghost use Rattle.std.specs.Prelude.{◌≡◌, length};
ghost use Rattle.rows.specs.Rows.{rows};
ghost use Rattle.cd_run.specs.Run.{run_answer, run_number, mask_after};
ghost use Rattle.run_face.specs.Face.{tested_after, on_after};
ghost use Rattle.run_face.specs.Demand.{Demanded};

use cd_run::CdRun;

// The CD run over a mask, with whether it was tested and how many rows are on.
// `demand` is the demand on the run, in what is handed out here: the number, `tested`, `on` and the mask.
pub fn ransac_fit(
    px: &[f64],
    py: &[f64],
    xi: &[f64],
    eta: &[f64],
    votes: &[u32],
    limit: f64,
    trials: u32,
    mask: &mut [u8],
    tested: &mut u8,
    on: &mut u64,
) -> u32
    ensures number { result ≡ run_number
        (run_answer (rows px.now py.now xi.now eta.now) votes.now limit trials (length mask.old)) }
    ensures mask { mask.new
        ≡ mask_after (rows px.now py.now xi.now eta.now) votes.now limit trials mask.old }
    ensures tested { tested.new ≡ tested_after
        (run_answer (rows px.now py.now xi.now eta.now) votes.now limit trials (length mask.old))
        tested.old }
    ensures on { on.new ≡ on_after
        (run_answer (rows px.now py.now xi.now eta.now) votes.now limit trials (length mask.old))
        on.old }
    ensures demand { Demanded
        (rows px.now py.now xi.now eta.now) votes.now limit trials (length mask.old)
        result tested.new on.new mask.new }
{
    match cd_run::ransac_fit(px, py, xi, eta, votes, limit, trials as usize, mask) {
        Err(why) => why.number(),
        Ok(CdRun::Untested(count)) => {
            *tested = 0;
            *on = count as u64;
            0
        }
        Ok(CdRun::Fitted(count)) => {
            *tested = 1;
            *on = count as u64;
            0
        }
    }
}
