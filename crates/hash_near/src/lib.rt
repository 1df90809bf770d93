// The quads that are near to a hash: how many of them there are, and which.
#![tactic(auto)]

ghost use Rattle.std.specs.Prelude.{◌≡◌, ◌++◌, ◌+◌, ◌-◌, ◌≤◌, ◌<◌, length, take};
ghost use Rattle.hash_near.specs.Near.{near_one, near_from, end_of};

use hash_lanes::Base;

// How many quads are looked at together.
const BLOCK: usize = 64;

// How many quads at from..to are near. The loop has no way out, so that it compiles to vector code.
pub fn count_near(lanes: &[u16], base: Base, from: usize, to: usize) -> u16
    requires fact_1 { length lanes.now ≡ 48000 }
    requires fact_2 { from ≤ to }
    requires fact_3 { to ≤ 12000 }
    ensures { result ≡ length (near_from lanes.now base from (to - from)) }
{
    let mut n = 0u16;
    for j in from..to {
        n += hash_lanes::is_near(lanes, base, j) as u16;
    }
    n
}

// Writes quad j with its key number after the first n of found, where it is near. The result is how
// many are then found.
fn gather_one(lanes: &[u16], base: Base, j: usize, found: &mut [u32], n: usize) -> usize
    requires fact_1 { length lanes.now ≡ 48000 }
    requires fact_2 { j < 12000 }
    requires fact_3 { n < length found.old }
    ensures { (result ≡ n + length (near_one lanes.now base j))
        × (take result found.new ≡ take n found.old ++ near_one lanes.now base j) }
{
    if hash_lanes::is_near(lanes, base, j) {
        found[n] = hash_lanes::steps(lanes, base, j) * 65536 + j as u32;
        return n + 1;
    }
    n
}

// The same for each of the quads at from..to.
fn gather_block(
    lanes: &[u16],
    base: Base,
    from: usize,
    to: usize,
    found: &mut [u32],
    n: usize,
) -> usize
    requires fact_1 { length lanes.now ≡ 48000 }
    requires fact_2 { from ≤ to }
    requires fact_3 { to ≤ 12000 }
    requires fact_4 { n + (to - from) ≤ length found.old }
    ensures { (result ≡ n + length (near_from lanes.now base from (to - from)))
        × (take result found.new ≡ take n found.old ++ near_from lanes.now base from (to - from)) }
{
    let mut k = n;
    for j in from..to {
        k = gather_one(lanes, base, j, found, k);
    }
    k
}

// The same, but that a block with none is passed over.
fn gather_some(
    lanes: &[u16],
    base: Base,
    from: usize,
    to: usize,
    found: &mut [u32],
    n: usize,
) -> usize
    requires fact_1 { length lanes.now ≡ 48000 }
    requires fact_2 { from ≤ to }
    requires fact_3 { to ≤ 12000 }
    requires fact_4 { n + (to - from) ≤ length found.old }
    ensures { (result ≡ n + length (near_from lanes.now base from (to - from)))
        × (take result found.new ≡ take n found.old ++ near_from lanes.now base from (to - from)) }
{
    if count_near(lanes, base, from, to) == 0 {
        return n;
    }
    gather_block(lanes, base, from, to, found, n)
}

// Where the block from `from` on ends, of m quads.
fn end_of(from: usize, m: usize) -> usize
    requires { from ≤ m }
    ensures { result ≡ end_of from m }
{
    if m - from < BLOCK { m } else { from + BLOCK }
}

// Writes the near ones of m quads, of which there are n, into the front of found.
pub fn gather(lanes: &[u16], base: Base, m: usize, n: usize, found: &mut [u32])
    requires fact_1 { length lanes.now ≡ 48000 }
    requires fact_2 { m ≤ 12000 }
    requires fact_3 { length found.old ≡ 12000 }
    requires fact_4 { n ≡ length (near_from lanes.now base 0 m) }
    ensures { take n found.new ≡ near_from lanes.now base 0 m }
{
    let mut k = 0usize;
    let mut from = 0usize;
    // a block at a time, until all are found
    while k < n {
        let to = end_of(from, m);
        k = gather_some(lanes, base, from, to, found, k);
        from = to;
    }
}
