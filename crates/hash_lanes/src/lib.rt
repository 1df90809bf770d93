// The lanes of a list of quads, and how near a quad's lanes are to those of a hash. Lane i of quad j stands
// at 12000 i + j, so that a loop over the quads of one lane compiles to vector code.
#![tactic(auto)]

ghost use Rattle.std.specs.Prelude.{◌≡◌, ◌+◌, ◌*◌, ◌<◌, ◌≤◌, length};
ghost use Rattle.hash_lanes.specs.Lanes.{hash_at, Laned, base_of, lane_of_key, with_lanes, above, near_lane, near_at, steps_at};

use quad_key::Hash;

// The lanes of a hash at the step -1, from which its three lanes start.
#[derive(Clone, Copy)]
pub struct Base {
    pub b0: u16,
    pub b1: u16,
    pub b2: u16,
    pub b3: u16,
}

// The hash of quad q.
pub fn hash_at(hashes: &[f64], q: usize) -> Hash
    requires { 4 * q + 4 ≤ length hashes.now }
    ensures { result ≡ hash_at hashes.now q }
{
    let p = 4 * q;
    Hash {
        h0: hashes[p],
        h1: hashes[p + 1],
        h2: hashes[p + 2],
        h3: hashes[p + 3],
    }
}

// The lane in the lowest 16 bits.
fn low_lane(key: u64) -> u16
    ensures { result ≡ lane_of_key key }
{
    (key % 65536) as u16
}

// Where the three lanes of quad q start.
pub fn base_at(hashes: &[f64], q: usize) -> Base
    requires { 4 * q + 4 ≤ length hashes.now }
    ensures { result ≡ base_of (hash_at hashes.now q) }
{
    let key = quad_key::discrete_hash_key(hash_at(hashes, q));
    Base {
        b0: std::num::wrapping_sub_u16(low_lane(key), 1),
        b1: std::num::wrapping_sub_u16(low_lane(key / 0x1_0000), 1),
        b2: std::num::wrapping_sub_u16(low_lane(key / 0x1_0000_0000), 1),
        b3: std::num::wrapping_sub_u16(low_lane(key / 0x1_0000_0000_0000), 1),
    }
}

// Writes the four lanes of a key as those of quad j.
fn put_lanes(lanes: &mut [u16], j: usize, key: u64)
    requires fact_1 { length lanes.old ≡ 48000 }
    requires fact_2 { j < 12000 }
    ensures { lanes.new ≡ with_lanes lanes.old j key }
{
    lanes[j] = low_lane(key);
    lanes[12000 + j] = low_lane(key / 0x1_0000);
    lanes[24000 + j] = low_lane(key / 0x1_0000_0000);
    lanes[36000 + j] = low_lane(key / 0x1_0000_0000_0000);
}

// Writes the lanes of the first n quads.
pub fn fill_lanes(hashes: &[f64], n: usize, lanes: &mut [u16])
    requires fact_1 { 4 * n ≤ length hashes.now }
    requires fact_2 { n ≤ 12000 }
    requires fact_3 { length lanes.old ≡ 48000 }
    ensures { Laned hashes.now n lanes.new }
{
    for j in 0..n {
        let key = quad_key::discrete_hash_key(hash_at(hashes, j));
        put_lanes(lanes, j, key);
    }
}

// Whether x is one of the three lanes from b on.
fn near_lane(x: u16, b: u16) -> bool
    ensures { result ≡ near_lane x b }
{
    std::num::wrapping_sub_u16(x, b) < 3
}

// Whether each lane of quad j is. There is no branch, so that a loop over it compiles to vector code.
pub fn is_near(lanes: &[u16], base: Base, j: usize) -> bool
    requires fact_1 { length lanes.now ≡ 48000 }
    requires fact_2 { j < 12000 }
    ensures { result ≡ near_at lanes.now base j }
{
    near_lane(lanes[j], base.b0)
        & near_lane(lanes[12000 + j], base.b1)
        & near_lane(lanes[24000 + j], base.b2)
        & near_lane(lanes[36000 + j], base.b3)
}

// How far x is above b, wrapped.
fn step(x: u16, b: u16) -> u32
    ensures { result ≡ above x b }
{
    std::num::wrapping_sub_u16(x, b) as u32
}

// The key number that four steps make.
pub fn steps(lanes: &[u16], base: Base, j: usize) -> u32
    requires fact_1 { length lanes.now ≡ 48000 }
    requires fact_2 { j < 12000 }
    ensures { result ≡ steps_at lanes.now base j }
{
    let d0 = step(lanes[j], base.b0);
    let d1 = step(lanes[12000 + j], base.b1);
    let d2 = step(lanes[24000 + j], base.b2);
    let d3 = step(lanes[36000 + j], base.b3);
    27 * d0 + 9 * d1 + 3 * d2 + d3
}
