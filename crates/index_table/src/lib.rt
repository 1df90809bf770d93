// The index of a catalogue list: what its table is, and whether a list is it.
#![tactic(auto)]

ghost use Rattle.std.specs.Prelude.{◌≡◌, true, false, cond, ℕ, ◌+◌, ◌*◌, ◌<◌, ◌≤◌, length};
ghost use Rattle.index_table.specs.Table.{turned, quad_key, belongs};
ghost use Rattle.index_table.specs.Steps.{own_at, rises_at};

// A key with its lanes in the other order: lane 0 in its highest 16 bits.
pub fn turn(key: u64) -> u64
    ensures { result ≡ turned key }
{
    let a = key % 65536;
    let b = key / 0x1_0000 % 65536;
    let c = key / 0x1_0000_0000 % 65536;
    let d = key / 0x1_0000_0000_0000 % 65536;
    d + c * 0x1_0000 + b * 0x1_0000_0000 + a * 0x1_0000_0000_0000
}

// The turned key of quad j.
pub fn key_at(hashes: &[f64], j: usize) -> u64
    requires { 4 * j + 4 ≤ length hashes.now }
    ensures { result ≡ quad_key hashes.now j }
{
    turn(quad_key::discrete_hash_key(hash_lanes::hash_at(hashes, j)))
}

// One of two places, so that a loop that goes to the one or the other has no branch there.
pub fn chosen(first: bool, a: usize, b: usize) -> usize
    ensures { result ≡ cond first a b }
{
    if first { a } else { b }
}

// Whether entry k is that of one of n quads.
fn is_own(hashes: &[f64], n: usize, table: &[u64], k: usize) -> bool
    requires fact_1 { 4 * n ≤ length hashes.now }
    requires fact_2 { n ≤ 12000 }
    requires fact_3 { n + n ≤ length table.now }
    requires fact_4 { k < n }
    ensures { result ≡ own_at hashes.now n table.now k }
{
    let place = table[n + k];
    if place >= n as u64 {
        return false;
    }
    table[k] == key_at(hashes, place as usize)
}

// Whether entry k stands before the next.
fn rises(n: usize, table: &[u64], k: usize) -> bool
    requires fact_1 { n ≤ 12000 }
    requires fact_2 { n + n ≤ length table.now }
    requires fact_3 { k + 1 < n }
    ensures { result ≡ rises_at n table.now k }
{
    (table[k] < table[k + 1]) | ((table[k] == table[k + 1]) & (table[n + k] < table[n + (k + 1)]))
}

// Whether each of n entries is that of a quad.
fn all_own(hashes: &[f64], n: usize, table: &[u64]) -> bool
    requires fact_1 { 4 * n ≤ length hashes.now }
    requires fact_2 { n ≤ 12000 }
    requires fact_3 { n + n ≤ length table.now }
    ensures own { result ≡ true → (k : ℕ) → k < n → own_at hashes.now n table.now k ≡ true }
    ensures other { result ≡ false → (k : ℕ) × (k < n) × (own_at hashes.now n table.now k ≡ false) }
{
    for k in 0..n {
        if !is_own(hashes, n, table, k) {
            return false;
        }
    }
    true
}

// Whether each of n entries stands before the next.
fn all_rise(n: usize, table: &[u64]) -> bool
    requires fact_1 { n ≤ 12000 }
    requires fact_2 { n + n ≤ length table.now }
    ensures rise { result ≡ true → (k : ℕ) → k + 1 < n → rises_at n table.now k ≡ true }
    ensures other { result ≡ false → (k : ℕ) × (k + 1 < n) × (rises_at n table.now k ≡ false) }
{
    for k in 0..n.saturating_sub(1) {
        if !rises(n, table, k) {
            return false;
        }
    }
    true
}

// Whether a list starts with the table of the first n quads.
pub fn is_table(hashes: &[f64], n: usize, table: &[u64]) -> bool
    requires fact_1 { 4 * n ≤ length hashes.now }
    requires fact_2 { n ≤ 12000 }
    ensures { result ≡ belongs table.now hashes.now n }
{
    if table.len() < 2 * n {
        return false;
    }
    if !all_own(hashes, n, table) {
        return false;
    }
    all_rise(n, table)
}
