// The lanes of a quad's hash and the keys made of them.
#![tactic(auto)]

ghost use Rattle.std.specs.Prelude.{◌≡◌, ◌+◌, ◌^◌, ◌<◌, ◌≤◌, length};
ghost use Rattle.std.proofs.lemmas.List.Edits.{sets};
ghost use Rattle.answer.specs.Answers.{lent_after};
ghost use Rattle.quad_key.specs.Key.{held_floor, pattern32, lane_sum, key_of, neighbour_keys, keys_answer};
ghost use Rattle.quad_key.specs.Steps.{lanes_of, three_keys, nine_keys, keys27};

use answer::Refusal;

// The four numbers of a quad's hash.
#[derive(Clone, Copy)]
pub struct Hash {
    pub h0: f64,
    pub h1: f64,
    pub h2: f64,
    pub h3: f64,
}

// The three lanes of a number: at the step -1, its own, and at the step 1.
#[derive(Clone, Copy)]
struct Lanes {
    less: u16,
    own: u16,
    more: u16,
}

// The pattern of the step -1.
const MINUS_ONE: u32 = 0xffff_ffff;

// The two's complement pattern of z.
fn pattern(z: i32) -> u32
    ensures { result ≡ pattern32 z }
{
    if z >= 0 {
        return z as u32;
    }
    0xffff_ffff - ((-1 - z) as u32)
}

// The floor of the rounded 100v, held to the range of an i32.
fn held_floor(v: f64) -> i32
    ensures { result ≡ held_floor v }
{
    floats::floor(v * 100.0)
}

// Its pattern.
fn floor_pattern(v: f64) -> u32
    ensures { result ≡ pattern32 (held_floor v) }
{
    pattern(held_floor(v))
}

// The lane of a floor at a step, both as patterns; each sum wraps.
fn lane(floor: u32, step: u32) -> u16
    ensures { result ≡ lane_sum floor step }
{
    let stepped = std::num::wrapping_add_u32(floor, step);
    (std::num::wrapping_add_u32(stepped, 500) % 65536) as u16
}

// The three lanes of v, by one floor.
fn three_lanes(v: f64) -> Lanes
    ensures { result ≡ lanes_of v }
{
    let floor = floor_pattern(v);
    Lanes {
        less: lane(floor, MINUS_ONE),
        own: lane(floor, 0),
        more: lane(floor, 1),
    }
}

// The key of a hash: its four lanes, lane 0 in the lowest 16 bits.
pub fn discrete_hash_key(h: Hash) -> u64
    ensures { result ≡ key_of h }
{
    let a = lane(floor_pattern(h.h0), 0) as u64;
    let b = lane(floor_pattern(h.h1), 0) as u64;
    let c = lane(floor_pattern(h.h2), 0) as u64;
    let d = lane(floor_pattern(h.h3), 0) as u64;
    a + b * 0x1_0000 + c * 0x1_0000_0000 + d * 0x1_0000_0000_0000
}

// Writes, from `at` on, the 3 keys with the lower three lanes of low and each of the lanes d.
fn write_3(keys: &mut [u64], at: usize, low: u64, d: Lanes)
    requires fact_1 { at + 3 ≤ length keys.old }
    requires fact_2 { low < 2 ^ 48 }
    ensures { keys.new ≡ sets keys.old at (three_keys low d) }
{
    keys[at] = low + d.less as u64 * 0x1_0000_0000_0000;
    keys[at + 1] = low + d.own as u64 * 0x1_0000_0000_0000;
    keys[at + 2] = low + d.more as u64 * 0x1_0000_0000_0000;
}

// Writes the 9 keys with the lower two lanes of low and each of the lanes c and d.
fn write_9(keys: &mut [u64], at: usize, low: u64, c: Lanes, d: Lanes)
    requires fact_1 { at + 9 ≤ length keys.old }
    requires fact_2 { low < 2 ^ 32 }
    ensures { keys.new ≡ sets keys.old at (nine_keys low c d) }
{
    write_3(keys, at, low + c.less as u64 * 0x1_0000_0000, d);
    write_3(keys, at + 3, low + c.own as u64 * 0x1_0000_0000, d);
    write_3(keys, at + 6, low + c.more as u64 * 0x1_0000_0000, d);
}

// Writes the 27 keys with the lane 0 of low and each of the lanes b, c and d.
fn write_27(keys: &mut [u64], at: usize, low: u64, b: Lanes, c: Lanes, d: Lanes)
    requires fact_1 { at + 27 ≤ length keys.old }
    requires fact_2 { low < 2 ^ 16 }
    ensures { keys.new ≡ sets keys.old at (keys27 low b c d) }
{
    write_9(keys, at, low + b.less as u64 * 0x1_0000, c, d);
    write_9(keys, at + 9, low + b.own as u64 * 0x1_0000, c, d);
    write_9(keys, at + 18, low + b.more as u64 * 0x1_0000, c, d);
}

// Writes the 81 neighbour keys of a hash, by their number, into the front of keys. There is no loop: straight stores are the fastest.
pub fn discrete_hash_key_neighbors(h: Hash, keys: &mut [u64]) -> Result<(), Refusal>
    ensures answer { result ≡ keys_answer (length keys.old) }
    ensures after { keys.new ≡ lent_after (keys_answer (length keys.old)) (neighbour_keys h) keys.old }
{
    if keys.len() < 81 {
        return Err(Refusal::Room);
    }
    let a = three_lanes(h.h0);
    let b = three_lanes(h.h1);
    let c = three_lanes(h.h2);
    let d = three_lanes(h.h3);
    write_27(keys, 0, a.less as u64, b, c, d);
    write_27(keys, 27, a.own as u64, b, c, d);
    write_27(keys, 54, a.more as u64, b, c, d);
    Ok(())
}
