// The neighbours of all stars, and by them the sets of a seed that no smaller seed has visited.
#![tactic(auto)]

ghost use Rattle.std.specs.Prelude.{◌≡◌, false, ◌&&◌, ℕ, ◌+◌, ◌-◌, ◌*◌, ◌<◌, ◌≤◌, min, eqb, length, take, get_or};
ghost use Rattle.quad_near.specs.Near.{nearest};
ghost use Rattle.quad_near.specs.Kept.{FiniteStars};
ghost use Rattle.quad_visit.specs.Visit.{memb};
ghost use Rattle.quad_visit.specs.Met.{neighbours, new_of};
ghost use Rattle.quad_visit.specs.Ranks.{cell};
ghost use Rattle.quad_lists.specs.Lists.{rows_of, bit, bit_at, cell_in, Held, Lists};

// How many neighbours each of n stars has.
fn count_of(n: usize, k: usize) -> usize
    ensures { result ≡ min k (n - 1) }
{
    k.min(n.saturating_sub(1))
}

// The word in which the bit of place q alone is on, of the 64 places from `from` on; 0 for any other place.
fn bit_of(q: u8, from: u8) -> u64
    ensures { (v : ℕ) → v < 64 → bit result v ≡ eqb q (from + v) }
{
    if q < from {
        return 0;
    }
    let v = q - from;
    if v < 64 { 1 << v } else { 0 }
}

// The word of the 64 places from `from` on: the bits of those that are in the list are on.
fn word_of(list: &[u8], from: u8) -> u64
    ensures { (v : ℕ) → v < 64 → bit result v ≡ memb (from + v) list.now }
{
    let mut word = 0u64;
    for q in list {
        word = word | bit_of(*q, from);
    }
    word
}

// The two words of star p, whose neighbours are in the list. Those of the stars before it stay.
fn put_words(words: &mut [u64], p: usize, list: &[u8])
    requires { (length words.old ≡ 200) × (p < 100) }
    ensures { ((q : ℕ) → q < 128 → bit_at words.new p q ≡ memb q list.now)
        × ((j q : ℕ) → j < p → q < 128 → bit_at words.new j q ≡ bit_at words.old j q) }
{
    words[p * 2] = word_of(list, 0);
    words[p * 2 + 1] = word_of(list, 64);
}

// The neighbours of star p, put into its ten bytes and its two words. Those of the stars before it stay.
fn put_star(lists: &mut [u8], words: &mut [u64], xs: &[f64], ys: &[f64], p: usize, k: usize)
    requires { FiniteStars xs.now ys.now × (p < length xs.now) × (length xs.now ≤ 100) × (k ≤ 10)
        × (length lists.old ≡ 1000) × (length words.old ≡ 200) }
    ensures { (rows_of lists.new (min k (length xs.now - 1)) p ≡ nearest xs.now ys.now p k)
        × ((q : ℕ) → q < 128 → bit_at words.new p q ≡ memb q (nearest xs.now ys.now p k))
        × ((j c : ℕ) → j < p → c ≤ 10 → rows_of lists.new c j ≡ rows_of lists.old c j)
        × ((j q : ℕ) → j < p → q < 128 → bit_at words.new j q ≡ bit_at words.old j q) }
{
    let from = p * 10;
    let end = from + 10;
    let c = quad_near::nearest_of(xs, ys, p, k, &mut lists[from..end]);
    let last = from + c;
    put_words(words, p, &lists[from..last]);
}

// The neighbours of all stars. The result is how many each has.
pub fn put_lists(lists: &mut [u8], words: &mut [u64], xs: &[f64], ys: &[f64], k: usize) -> usize
    requires { FiniteStars xs.now ys.now × (length xs.now ≤ 100) × (k ≤ 10)
        × (length lists.old ≡ 1000) × (length words.old ≡ 200) }
    ensures { Lists (neighbours xs.now ys.now k) (length xs.now) result
        lists.new words.new }
{
    let n = xs.len();
    for p in 0..n {
        put_star(lists, words, xs, ys, p, k);
    }
    count_of(n, k)
}

// Whether place q is among the neighbours of star p.
fn is_near(words: &[u64], p: u8, q: u8) -> bool
    requires { (length words.now ≡ 200) × (p < 100) × (q < 100) }
    ensures { result ≡ bit_at words.now p q }
{
    let i = p as usize * 2 + q as usize / 64;
    (words[i] >> (q % 64)) % 2 == 1
}

// Row a of a table of ten to a row, for star p: which of `near` are among its neighbours, where that is asked.
// The rows before it stay.
fn put_row(cells: &mut [bool], a: usize, words: &[u64], p: u8, on: bool, near: &[u8])
    requires { (length cells.old ≡ 100) × (a < 10) × (length words.now ≡ 200) × (p < 100) × (length near.now ≤ 10)
        × ((b : ℕ) → b < length near.now → get_or near.now b 0 < 100) }
    ensures { ((b : ℕ) → b < length near.now
        → cell cells.new a b ≡ (on && bit_at words.now p (get_or near.now b 0)))
        × ((j : ℕ) → j < a * 10 → get_or cells.new j false ≡ get_or cells.old j false) }
{
    for (b, q) in near.iter().enumerate() {
        cells[a * 10 + b] = on & is_near(words, p, *q);
    }
}

// The table of a seed whose neighbours are `near`.
fn put_cells(cells: &mut [bool], words: &[u64], seed: u8, near: &[u8])
    requires { (length cells.old ≡ 100) × (length words.now ≡ 200) × (seed < 100) × (length near.now ≤ 10)
        × ((b : ℕ) → b < length near.now → get_or near.now b 0 < 100) }
    ensures { (a b : ℕ) → a < length near.now → b < length near.now
        → cell cells.new a b ≡ cell_in words.now seed (get_or near.now a 0) (get_or near.now b 0) }
{
    for (a, &p) in near.iter().enumerate() {
        put_row(
            cells,
            a,
            words,
            p,
            (p < seed) & is_near(words, p, seed),
            near,
        );
    }
}

// The sets of a seed that no smaller seed has visited, from the front of the store. The result is their number.
pub fn sets_of(
    store: &mut [u32],
    lists: &[u8],
    words: &[u64],
    n: usize,
    c: usize,
    seed: usize,
) -> usize
    requires { (length store.old ≡ 120) × Held n c lists.now words.now × (seed < n) }
    ensures { (result ≤ 120) × (take result store.new ≡ new_of (rows_of lists.now c) seed) }
{
    let mut cells = [false; 100];
    let from = seed * 10;
    let end = from + c;
    put_cells(&mut cells, words, seed as u8, &lists[from..end]);
    quad_visit::new_sets(store, &cells, seed as u8, &lists[from..end])
}
