// The CD run: of the plates of a fixed draw, the one that the most rows are near to.
#![tactic(auto)]

ghost use Rattle.std.specs.Prelude.{◌≡◌, true, ℕ, ◌<◌, ◌≤◌, length, get_or, replicate};
ghost use Rattle.domain.specs.Domain.{is_limit};
ghost use Rattle.rows.specs.Rows.{rows};
ghost use Rattle.cd_pool.specs.Pool.{pool_of};
ghost use Rattle.cd_run.specs.Run.{tests_of, pool_end, end_answer, end_mask, run_answer, mask_after, run_number};
ghost use Rattle.cd_run.specs.Demand.{FittedBest, AllOn, NoneHasThree, StillFitted};

use answer::Refusal;
use cd_near::Reach;
use cd_plate::Cd;

// The longest list of votes.
const MOST_VOTES: usize = 100;

// The least rows of a pool that is searched, and of a plate that is fitted.
const LEAST_ROWS: usize = 3;

// What a run of ransac_fit that is not refused comes to, with how many rows are on.
#[derive(Clone, Copy)]
pub enum CdRun {
    Fitted(usize),
    Untested(usize),
}

// The number of an answer: 0 is done, fitted or untested.
pub fn number(answer: Result<CdRun, Refusal>) -> u32
    ensures { result ≡ run_number answer }
{
    match answer {
        Ok(CdRun::Fitted(_)) => 0,
        Ok(CdRun::Untested(_)) => 0,
        Err(why) => why.number(),
    }
}

// The tests of the input, in their order, and the room for the mask.
fn check_run(
    px: &[f64],
    py: &[f64],
    xi: &[f64],
    eta: &[f64],
    votes: usize,
    limit: f64,
    trials: usize,
    places: usize,
) -> Result<(), Refusal>
    ensures { result ≡ tests_of (rows px.now py.now xi.now eta.now) votes limit trials places }
{
    if !(rows::few_rows(px, py, xi, eta) & ((votes <= MOST_VOTES) & (trials <= Cd::MOST_TRIALS))) {
        return Err(Refusal::Count);
    }
    if !rows::even_rows(px, py, xi, eta) {
        return Err(Refusal::Lengths);
    }
    if !(rows::position_rows(px, py, xi, eta) & domain::is_limit(limit)) {
        return Err(Refusal::Value);
    }
    answer::room_for(px.len(), places)
}

// A run over a pool. The mask is written once, when nothing is left that could refuse.
fn run_pool(
    px: &[f64],
    py: &[f64],
    xi: &[f64],
    eta: &[f64],
    pool: &[usize],
    limit: f64,
    trials: usize,
    mask: &mut [u8],
) -> Result<CdRun, Refusal>
    requires py_len_1 { length py.now ≡ length px.now }
    requires py_len_2 { length xi.now ≡ length px.now }
    requires py_len_3 { length eta.now ≡ length px.now }
    requires px_len_bound_1 { length px.now ≤ 100 }
    requires px_len_bound_2 { length px.now ≤ length mask.old }
    requires px_len_bound_3 { is_limit limit ≡ true }
    requires px_len_bound_4 { ((k : ℕ) → k < length pool.now → get_or pool.now k 0 < length px.now) }
    ensures answer { result ≡ end_answer (rows px.now py.now xi.now eta.now) limit
        (pool_end (rows px.now py.now xi.now eta.now) limit pool.now trials) }
    ensures mask { mask.new ≡ end_mask (rows px.now py.now xi.now eta.now) limit
        (pool_end (rows px.now py.now xi.now eta.now) limit pool.now trials) mask.old }
{
    let n = px.len();
    if pool.len() < LEAST_ROWS {
        cd_mask::fill_ones(mask, n);
        return Ok(CdRun::Untested(n));
    }
    let reach = Reach::of(limit);
    let held = cd_trial::search(px, py, xi, eta, pool, reach, trials);
    let on = held.on;
    let f = held.fit;
    match f {
        Err(_) => Err(Refusal::Few),
        Ok(m) => {
            if on < LEAST_ROWS {
                return Err(Refusal::Few);
            }
            cd_near::mark_near(px, py, xi, eta, m, reach, mask);
            Ok(CdRun::Fitted(on))
        }
    }
}

// Room for the places of a pool. As a call, its list stays one name in a proof.
fn no_places() -> [usize; 100]
    ensures { result ≡ replicate 100 0 }
{
    [0usize; 100]
}

// The CD run: of the plates that a fixed draw gives, the one that the most rows are near to.
// `answer` shuts out a run that refuses all, and a row count that is made up: both are told on every input.
// `mask` shuts out one mask for all inputs, a mask that is not written, and one that is written before a refusal.
// `fitted` shuts out a run that fits only its first trial: no drawn triple that can be fitted has more rows.
// `untested` shuts out a tested pool that is read as untested, and a row that is then left off.
// `nine` shuts out number 9 where a drawn triple that can be fitted has three rows.
// `more` shuts out a run that fits with some trials and with more of them, up to 1,000, does not, or with fewer rows.
pub fn ransac_fit(
    px: &[f64],
    py: &[f64],
    xi: &[f64],
    eta: &[f64],
    votes: &[u32],
    limit: f64,
    trials: usize,
    mask: &mut [u8],
) -> Result<CdRun, Refusal>
    ensures answer { result ≡ run_answer (rows px.now py.now xi.now eta.now) votes.now limit trials (length mask.old) }
    ensures mask { mask.new ≡ mask_after (rows px.now py.now xi.now eta.now) votes.now limit trials mask.old }
    ensures fitted { (k : ℕ) → result ≡ Ok (CdRun.Fitted k)
        → FittedBest (rows px.now py.now xi.now eta.now) limit (pool_of votes.now (length px.now)) trials k mask.new }
    ensures untested { (k : ℕ) → result ≡ Ok (CdRun.Untested k)
        → AllOn (rows px.now py.now xi.now eta.now) (pool_of votes.now (length px.now)) k mask.new }
    ensures nine { result ≡ Err Refusal.Few
        → NoneHasThree (rows px.now py.now xi.now eta.now) limit (pool_of votes.now (length px.now)) trials }
    ensures more { (k : ℕ) → result ≡ Ok (CdRun.Fitted k)
        → StillFitted (λ n. run_answer
        (rows px.now py.now xi.now eta.now) votes.now limit n (length mask.old)) trials k }
{
    check_run(px, py, xi, eta, votes.len(), limit, trials, mask.len())?;
    let mut places = no_places();
    let count = cd_pool::pool_of(votes, px.len(), &mut places);
    run_pool(px, py, xi, eta, &places[..count], limit, trials, mask)
}
