// The best result of each detection, by the table of votes.
#![tactic(auto)]

ghost use Rattle.std.specs.Prelude.{◌≡◌, ℕ, ◌<◌, ◌≤◌, length, get_or};
ghost use Rattle.aggregate_best.specs.Best.{better, choose, best};
ghost use Rattle.aggregate_best.specs.Held.{held, row};

use aggregate_votes::{DetectionId, ResultPlace};

// A place in the results, and the votes of its id.
#[derive(Clone, Copy)]
pub struct Choice {
    pub at: ResultPlace,
    pub votes: u32,
}

// The choices of the detections, as plain numbers.
#[derive(Clone, Copy)]
pub struct Choices {
    pub at: [usize; 100],
    pub votes: [u32; 100],
}

impl Choice {
    // The votes that a pair needs.
    pub const LEAST_VOTES: u32 = 2;
}

// The result that a detection chose, and the first past the end.
pub fn choice_of(at: &[usize], d: DetectionId) -> ResultPlace
    ensures { result.0 ≡ get_or at.now d.0 0 }
{
    let i = d.0 as usize;
    if i < at.len() {
        ResultPlace(at[i])
    } else {
        ResultPlace(0)
    }
}

// The votes of its choice, and 0 past the end.
pub fn votes_of(votes: &[u32], d: DetectionId) -> u32
    ensures { result ≡ get_or votes.now d.0 0 }
{
    let i = d.0 as usize;
    if i < votes.len() { votes[i] } else { 0 }
}

// Whether result r, with v votes, is better than the choice so far.
fn is_better(results: &[i64], c: Choice, r: ResultPlace, v: u32) -> bool
    ensures { result ≡ better results.now c r.0 v }
{
    if c.votes < v {
        return true;
    }
    if c.votes == v {
        return aggregate_votes::less_at(results, r, c.at);
    }
    false
}

// The choice after result r, with v votes.
fn chosen(results: &[i64], c: Choice, r: ResultPlace, v: u32) -> Choice
    ensures { result ≡ choose results.now c r.0 v }
{
    if v == 0 {
        return c;
    }
    if is_better(results, c, r, v) {
        Choice { at: r, votes: v }
    } else {
        c
    }
}

// The votes of a detection for result r, by the table.
fn votes_at(table: &[u32], d: DetectionId, r: ResultPlace) -> u32
    requires { (d.0 < 100) × ((r.0 < 100) × (length table.now ≡ 10000)) }
    ensures { result ≡ row table.now d.0 r.0 }
{
    table[d.0 as usize * 100 + r.0]
}

// The best result of a detection.
fn best_of(results: &[i64], table: &[u32], d: DetectionId) -> Choice
    requires fact_1 { d.0 < 100 }
    requires fact_2 { length results.now ≤ 100 }
    requires fact_3 { length table.now ≡ 10000 }
    ensures { result ≡ best results.now (row table.now d.0) (length results.now) }
{
    let mut c = Choice {
        at: ResultPlace(0),
        votes: 0,
    };
    for r in 0..results.len() {
        c = chosen(
            results,
            c,
            ResultPlace(r),
            votes_at(table, d, ResultPlace(r)),
        );
    }
    c
}

// The choices of nd detections, each found once.
pub fn all_choices(results: &[i64], table: &[u32], nd: usize) -> Choices
    requires fact_1 { nd ≤ 100 }
    requires fact_2 { length results.now ≤ 100 }
    requires fact_3 { length table.now ≡ 10000 }
    ensures { (length result.at ≡ 100) × (length result.votes ≡ 100)
        × ((d : ℕ) → d < nd → held result.at result.votes d ≡ best results.now (row table.now d) (length results.now)) }
{
    let mut at = [0usize; 100];
    let mut votes = [0u32; 100];
    for d in 0..nd {
        let c = best_of(results, table, DetectionId(d as u32));
        let r = c.at;
        at[d] = r.0;
        votes[d] = c.votes;
    }
    Choices {
        at: at,
        votes: votes,
    }
}
