// The catalogue quads near to an image quad, found in the table of their keys.
#![tactic(auto)]

ghost use Rattle.std.specs.Prelude.{◌≡◌, ℕ, ◌+◌, ◌-◌, ◌*◌, ◌^◌, ◌<◌, ◌≤◌, ◌&&◌, ltb, ◌++◌, length, take, if◌then◌else◌, nat_le, nat_lt, slice_index};
ghost use Rattle.quad_key.specs.Key.{neighbour_keys};
ghost use Rattle.hash_near.specs.Over.{over};
ghost use Rattle.index_table.specs.Table.{turned};
ghost use Rattle.index_near.specs.Near.{Ready, Lower, Between, inside, hit_at, hits, last_of, inner};
ghost use Rattle.index_near.specs.Near.{three_hits, upper_of, Nines, one_hits, key_hits, near_hits};

use index_table::chosen;
use quad_key::Hash;

// A range of more entries is not walked: nine searches cost what so many steps cost.
const CROWD: usize = 64;

// Past the next `half` entries from base on where all of them are below `key`, and else base.
fn past(table: &[u64], base: usize, half: usize, key: u64) -> usize
    requires { (0 < half) × (base + half ≤ length table.now) }
    ensures { result ≡ (if ltb (slice_index table.now (base + half - 1)) key then base + half else base) }
{
    chosen(table[base + half - 1] < key, base + half, base)
}

// Where the keys from `key` on start, which is from lo to hi. It halves as often for every key, so that no
// branch of it is guessed wrong.
fn lower(table: &[u64], m: usize, lo: usize, hi: usize, key: u64) -> usize
    requires fact_1 { Ready table.now m }
    requires fact_2 { Between table.now m lo hi key }
    ensures { Lower table.now m key result }
{
    let mut base = lo;
    let mut len = hi - lo;
    // halved, not counted
    while 0 < len {
        base = past(table, base, len - len / 2, key);
        len /= 2;
    }
    base
}

// Where the keys start from a first one on, and from those with the next two lanes 0: three searches side
// by side take the time of one.
fn lower_three(table: &[u64], m: usize, first: u64) -> [usize; 3]
    requires fact_1 { Ready table.now m }
    requires fact_2 { first + 0x2_0000_0000_0000 < 2 ^ 64 }
    ensures { (length result ≡ 3) × ((d : ℕ) → d < 3 → Lower table.now m (first + d * 2 ^ 48) (slice_index result d)) }
{
    let mut a = 0usize;
    let mut b = 0usize;
    let mut c = 0usize;
    let mut len = m;
    // halved, not counted
    while 0 < len {
        let half = len - len / 2;
        a = past(table, a, half, first);
        b = past(table, b, half, first + 0x1_0000_0000_0000);
        c = past(table, c, half, first + 0x2_0000_0000_0000);
        len /= 2;
    }
    [a, b, c]
}

// Whether entry k is there and its key is `to` at most.
fn is_within(table: &[u64], m: usize, to: u64, k: usize) -> bool
    requires { m ≤ length table.now }
    ensures { result ≡ (nat_lt k m && nat_le (slice_index table.now k) to) }
{
    if k >= m {
        return false;
    }
    table[k] <= to
}

// Whether a key of from..to is inside.
fn is_inside(from: u64, to: u64, v: u64) -> bool
    requires fact_1 { from ≤ v }
    requires fact_2 { v ≤ to }
    ensures { result ≡ inside from to v }
{
    let w = v - from;
    (w % 65536 < 3) & (w / 65536 % 65536 < 3)
}

// Writes the place of entry k after the first n of found, where its key is inside. The result is how
// many are then found.
fn gather_one(
    table: &[u64],
    m: usize,
    from: u64,
    to: u64,
    k: usize,
    found: &mut [u16],
    n: usize,
) -> usize
    requires fact_1 { Ready table.now m }
    requires fact_2 { k < m }
    requires fact_3 { from ≤ slice_index table.now k }
    requires fact_4 { slice_index table.now k ≤ to }
    requires fact_5 { n + length (hit_at table.now m from to k) ≤ length found.old }
    ensures { (result ≡ n + length (hit_at table.now m from to k))
        × (take result found.new ≡ take n found.old ++ hit_at table.now m from to k) }
{
    if is_inside(from, to, table[k]) {
        found[n] = table[m + k] as u16;
        return n + 1;
    }
    n
}

// Writes the places of the keys inside from..to after the first n of found. They start at entry `start`.
fn gather_from(
    table: &[u64],
    m: usize,
    from: u64,
    to: u64,
    start: usize,
    found: &mut [u16],
    n: usize,
) -> usize
    requires fact_1 { Ready table.now m }
    requires fact_2 { Lower table.now m from start }
    requires fact_3 { n + length (hits table.now m from to) ≤ length found.old }
    ensures { (result ≡ n + length (hits table.now m from to))
        × (take result found.new ≡ take n found.old ++ hits table.now m from to) }
{
    let mut k = start;
    let mut q = n;
    // as far as the keys are in the range
    while is_within(table, m, to, k) {
        q = gather_one(table, m, from, to, k, found, q);
        k += 1;
    }
    q
}

// Writes the places of the keys inside from..to after the first n of found. They start between lo and hi.
fn gather_range(
    table: &[u64],
    m: usize,
    lo: usize,
    hi: usize,
    from: u64,
    to: u64,
    found: &mut [u16],
    n: usize,
) -> usize
    requires { (Ready table.now m) × ((Between table.now m lo hi from) × (n + length (hits table.now m from to) ≤ length found.old)) }
    ensures { (result ≡ n + length (hits table.now m from to))
        × (take result found.new ≡ take n found.old ++ hits table.now m from to) }
{
    gather_from(table, m, from, to, lower(table, m, lo, hi, from), found, n)
}

// Writes the places of a first key's range, which starts at lo, by its nine runs of three keys.
fn gather_nine(table: &[u64], m: usize, lo: usize, from: u64, found: &mut [u16], n: usize) -> usize
    requires fact_1 { Ready table.now m }
    requires fact_2 { Lower table.now m from lo }
    requires fact_3 { last_of from < 2 ^ 64 }
    requires fact_4 { n + length (hits table.now m from (last_of from)) ≤ length found.old }
    ensures { (result ≡ n + length (hits table.now m from (last_of from)))
        × (take result found.new ≡ take n found.old ++ hits table.now m from (last_of from)) }
{
    let mut q = n;
    for e in 0..9u64 {
        let run = from + e / 3 * 0x1_0000_0000 + e % 3 * 0x1_0000;
        q = gather_range(table, m, lo, m, run, run + 2, found, q);
    }
    q
}

// Writes the places of a first key's range, which starts at lo: a crowded one goes by its runs, and any
// other is walked.
fn gather_lane(table: &[u64], m: usize, lo: usize, from: u64, found: &mut [u16], n: usize) -> usize
    requires { (Ready table.now m) × ((Lower table.now m from lo) × ((last_of from < 2 ^ 64) × (n + length (hits table.now m from (last_of from)) ≤ length found.old))) }
    ensures { (result ≡ n + length (hits table.now m from (last_of from)))
        × (take result found.new ≡ take n found.old ++ hits table.now m from (last_of from)) }
{
    if is_within(table, m, from + 0x2_0002_0002, lo + CROWD) {
        return gather_nine(table, m, lo, from, found, n);
    }
    gather_from(table, m, from, from + 0x2_0002_0002, lo, found, n)
}

// Writes the near places of a quad with no lane at an end: three ranges, one for each lane 0.
fn gather_three(table: &[u64], m: usize, first: u64, found: &mut [u16], n: usize) -> usize
    requires fact_1 { Ready table.now m }
    requires fact_2 { first + 0x2_0002_0002_0002 < 2 ^ 64 }
    requires fact_3 { n + length (three_hits table.now m first) ≤ length found.old }
    ensures { (result ≡ n + length (three_hits table.now m first))
        × (take result found.new ≡ take n found.old ++ three_hits table.now m first) }
{
    let starts = lower_three(table, m, first);
    let mut q = n;
    for d in 0..3usize {
        q = gather_lane(
            table,
            m,
            starts[d],
            first + d as u64 * 0x1_0000_0000_0000,
            found,
            q,
        );
    }
    q
}

// Writes the places of three keys in turn, as one run where each is the next number.
fn gather_keys_3(
    table: &[u64],
    m: usize,
    lo: usize,
    hi: usize,
    keys: &[u64],
    e: usize,
    found: &mut [u16],
    n: usize,
) -> usize
    requires fact_1 { Ready table.now m }
    requires fact_2 { e + 3 ≤ length keys.now }
    requires fact_3 { length keys.now ≡ 81 }
    requires fact_4 { ((j : ℕ) → j < 3 → Between table.now m lo hi (turned (slice_index keys.now (e + j)))) }
    requires fact_5 { n + length (over (one_hits table.now m (λ n. slice_index keys.now n)) e 3) ≤ length found.old }
    ensures { (result ≡ n + length (over (one_hits table.now m (λ n. slice_index keys.now n)) e 3))
        × (take result found.new ≡ take n found.old
        ++ over (one_hits table.now m (λ n. slice_index keys.now n)) e 3) }
{
    let a = index_table::turn(keys[e]);
    let b = index_table::turn(keys[e + 1]);
    let c = index_table::turn(keys[e + 2]);
    if (a < b) & (b < c) & (std::num::wrapping_sub_u64(c, a) == 2) {
        return gather_range(table, m, lo, hi, a, c, found, n);
    }
    let p = gather_range(table, m, lo, hi, a, a, found, n);
    let q = gather_range(table, m, lo, hi, b, b, found, p);
    gather_range(table, m, lo, hi, c, c, found, q)
}

// Writes the places of nine keys with one lane 0 and one lane 1, if any entry has both.
fn gather_keys_9(
    table: &[u64],
    m: usize,
    keys: &[u64],
    e: usize,
    found: &mut [u16],
    n: usize,
) -> usize
    requires fact_1 { Ready table.now m }
    requires fact_2 { e + 9 ≤ length keys.now }
    requires fact_3 { length keys.now ≡ 81 }
    requires fact_4 { ((j : ℕ) → j < 9 → upper_of (turned (slice_index keys.now (e + j))) ≡ upper_of (turned (slice_index keys.now e))) }
    requires fact_5 { n + length (over (one_hits table.now m (λ n. slice_index keys.now n)) e 9) ≤ length found.old }
    ensures { (result ≡ n + length (over (one_hits table.now m (λ n. slice_index keys.now n)) e 9))
        × (take result found.new ≡ take n found.old
        ++ over (one_hits table.now m (λ n. slice_index keys.now n)) e 9) }
{
    let first = index_table::turn(keys[e]) / 0x1_0000_0000 * 0x1_0000_0000;
    let last = first + 0xFFFF_FFFF;
    let lo = lower(table, m, 0, m, first);
    if !is_within(table, m, last, lo) {
        return n;
    }
    let hi = lower(table, m, lo, m, last);
    let p = gather_keys_3(table, m, lo, hi, keys, e, found, n);
    let q = gather_keys_3(table, m, lo, hi, keys, e + 3, found, p);
    gather_keys_3(table, m, lo, hi, keys, e + 6, found, q)
}

// Writes the places of 81 keys in turn, nine at a time.
fn gather_keys(table: &[u64], m: usize, keys: &[u64], found: &mut [u16], n: usize) -> usize
    requires fact_1 { Ready table.now m }
    requires fact_2 { length keys.now ≡ 81 }
    requires fact_3 { Nines (λ n. slice_index keys.now n) }
    requires fact_4 { n + length (key_hits table.now m (λ n. slice_index keys.now n)) ≤ length found.old }
    ensures { (result ≡ n + length (key_hits table.now m (λ n. slice_index keys.now n)))
        × (take result found.new ≡ take n found.old
        ++ key_hits table.now m (λ n. slice_index keys.now n)) }
{
    let mut q = n;
    for g in 0..9usize {
        q = gather_keys_9(table, m, keys, 9 * g, found, q);
    }
    q
}

// Whether no lane of a turned key is at an end.
fn is_inner(key: u64) -> bool
    ensures { result ≡ inner key }
{
    let a = key % 65536;
    let b = key / 0x1_0000 % 65536;
    let c = key / 0x1_0000_0000 % 65536;
    let d = key / 0x1_0000_0000_0000 % 65536;
    ((((0 < a) & (a < 65535)) & ((0 < b) & (b < 65535)))
        & (((0 < c) & (c < 65535)) & ((0 < d) & (d < 65535))))
}

// The 81 neighbour keys of a hash.
fn keys_of(h: Hash) -> [u64; 81]
    ensures { (length result ≡ 81) × (result ≡ neighbour_keys h) }
{
    let mut keys = [0u64; 81];
    let _ = quad_key::discrete_hash_key_neighbors(h, &mut keys);
    keys
}

// Writes the near places of quad i after the first n of found. The result is how many are then found.
pub fn gather_near(
    table: &[u64],
    m: usize,
    hashes: &[f64],
    i: usize,
    found: &mut [u16],
    n: usize,
) -> usize
    requires fact_1 { Ready table.now m }
    requires fact_2 { 4 * i + 4 ≤ length hashes.now }
    requires fact_3 { n + length (near_hits table.now m hashes.now i) ≤ length found.old }
    ensures { (result ≡ n + length (near_hits table.now m hashes.now i))
        × (take result found.new ≡ take n found.old ++ near_hits table.now m hashes.now i) }
{
    let key = index_table::key_at(hashes, i);
    if is_inner(key) {
        return gather_three(table, m, key - 0x1_0001_0001_0001, found, n);
    }
    let keys = keys_of(hash_lanes::hash_at(hashes, i));
    gather_keys(table, m, &keys, found, n)
}
