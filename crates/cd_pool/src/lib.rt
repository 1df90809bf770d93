// The pool of the CD run: the places of the rows that have enough votes.
#![tactic(auto)]

ghost use Rattle.std.specs.Prelude.{◌≡◌, ◌≤◌, length, take};
ghost use Rattle.cd_pool.specs.Pool.{greatest, is_taken, pool_of};

// The greatest of the votes; 0 of none.
fn greatest_of(votes: &[u32]) -> u32
    ensures { result ≡ greatest votes.now }
{
    let mut best = 0u32;
    for vote in votes {
        best = best.max(*vote);
    }
    best
}

// Whether the place of a vote is in the pool.
fn is_taken(vote: u32, least: u32, at: usize, rows: usize) -> bool
    ensures { result ≡ is_taken least rows at vote }
{
    (least <= vote) & (at < rows)
}

// The pool of the votes over so many rows, into the front of `places`; its length. Each place is stored,
// and the next one goes over it unless it was taken, so that no store hangs on a test.
pub fn pool_of(votes: &[u32], rows: usize, places: &mut [usize]) -> usize
    requires fact_1 { length votes.now ≤ 100 }
    requires fact_2 { length places.old ≡ 100 }
    ensures { (result ≡ length (pool_of votes.now rows)) × (take result places.new ≡ pool_of votes.now rows) × (result ≤ 100) }
{
    let least = greatest_of(votes) / 3;
    let mut count = 0usize;
    for (i, vote) in votes.iter().enumerate() {
        places[count] = i;
        count += is_taken(*vote, least, i, rows) as usize;
    }
    count
}
