// The quads of a list of stars: each set of four near stars, once.
#![tactic(auto)]

ghost use Rattle.std.specs.Prelude.{◌≡◌, cond, ◌+◌, ◌<◌, ◌≤◌, leb, length, take};
ghost use Rattle.std.proofs.lemmas.List.Edits.{sets};
ghost use Rattle.quad_near.specs.Kept.{FiniteStars};
ghost use Rattle.quad_normal.specs.Normal.{scaled_by};
ghost use Rattle.quad_lists.specs.Lists.{listed};
ghost use Rattle.quad.specs.Quads.{four_of, kept_of, quad_of, places_in, hash_in, all_places, input_answer, quad_places};
ghost use Rattle.quad.specs.Quads.{quad_hashes, room_answer, quads_answer, lent_after_quads};
ghost use Rattle.quad.specs.Steps.{span_in, shifts_of, place_in, four_in, Among, Sets, Seeds, Written};

use answer::Refusal;
use quad_normal::Quad;
use quad_spine::{Apart, Pair};
use quad_stars::Four;

// The most neighbours of a seed.
const MOST_NEIGHBOURS: usize = 10;

// The most places that the quads of one seed write: ten neighbours have 120 sets of three.
const MOST_PLACES: usize = 480;

// What a visited set comes to.
#[derive(Clone, Copy)]
enum Tried {
    Kept(Quad),
    Short,
    Degenerate,
}

// The longest pair of the four stars of a visited set, and its squared distance.
fn longest_in(xs: &[f64], ys: &[f64], s: u32) -> Apart
    requires { Among xs.now ys.now s }
    ensures { (four_in xs.now ys.now s result.pair ≡ four_of xs.now ys.now s)
        × (result.far ≡ span_in xs.now ys.now s) }
{
    let p = quad_stars::star_in(xs, ys, (s / 16777216 % 256) as u8);
    let q = quad_stars::star_in(xs, ys, (s / 65536 % 256) as u8);
    let r = quad_stars::star_in(xs, ys, (s / 256 % 256) as u8);
    let t = quad_stars::star_in(xs, ys, (s % 256) as u8);
    quad_spine::longest_pair(p, q, r, t)
}

// Where the places of a set stand in its number, a pair of them first: a byte for each says by how many bits.
fn shifts_of(pair: Pair) -> u32
    ensures { result ≡ shifts_of pair }
{
    match pair {
        Pair::P01 => 0x18_10_08_00,
        Pair::P02 => 0x18_08_10_00,
        Pair::P03 => 0x18_00_10_08,
        Pair::P12 => 0x10_08_18_00,
        Pair::P13 => 0x10_00_18_08,
        Pair::P23 => 0x08_00_18_10,
    }
}

// The place of a set that stands so many bits up.
fn place_in(s: u32, shift: u32) -> u8
    requires { shift < 32 }
    ensures { result ≡ place_in s shift }
{
    ((s >> shift) % 256) as u8
}

// One of two places.
fn either(first: bool, a: u8, b: u8) -> u8
    ensures { result ≡ cond first a b }
{
    if first { a } else { b }
}

// The four stars of a visited set with a pair of them first, in order. They are read anew by their places, which
// are picked without a jump: which pair it is cannot be guessed.
fn four_in(xs: &[f64], ys: &[f64], s: u32, pair: Pair) -> Four
    requires { Among xs.now ys.now s }
    ensures { result ≡ four_in xs.now ys.now s pair }
{
    let shifts = shifts_of(pair);
    let a = place_in(s, shifts / 16777216);
    let b = place_in(s, shifts / 65536 % 256);
    let c = place_in(s, shifts / 256 % 256);
    let d = place_in(s, shifts % 256);
    let first = quad_spine::in_order(
        quad_stars::star_in(xs, ys, a),
        quad_stars::star_in(xs, ys, b),
    );
    Four {
        a: quad_stars::star_in(xs, ys, either(first, a, b)),
        b: quad_stars::star_in(xs, ys, either(first, b, a)),
        c: quad_stars::star_in(xs, ys, c),
        d: quad_stars::star_in(xs, ys, d),
    }
}

// Four stars with their spine first, whose square is at least the least: degenerate, or a quad.
fn kept_of(span: f64, f: Four) -> Tried
    ensures { result ≡ kept_of (scaled_by span f) }
{
    match quad_normal::normalize(span, f) {
        Some(quad) => Tried::Kept(quad),
        None => Tried::Degenerate,
    }
}

// The visited set s, tried: too short, degenerate, or a quad.
fn quad_of(xs: &[f64], ys: &[f64], least: f64, s: u32) -> Tried
    requires { Among xs.now ys.now s }
    ensures { result ≡ quad_of xs.now ys.now least s }
{
    let l = longest_in(xs, ys, s);
    if l.far < least {
        return Tried::Short;
    }
    let pair = l.pair;
    kept_of(l.far, four_in(xs, ys, s, pair))
}

// How many places the visited set s writes, and as many numbers: its squared spine tells.
fn size_of(xs: &[f64], ys: &[f64], least: f64, s: u32) -> usize
    requires { Among xs.now ys.now s }
    ensures { result ≡ length (places_in (quad_of xs.now ys.now least s)) }
{
    let l = longest_in(xs, ys, s);
    let span = l.far;
    if span < least {
        return 0;
    }
    if span < Quad::LEAST_SCALE {
        return 0;
    }
    4
}

// How many places the quads of the first n sets write.
fn needed(xs: &[f64], ys: &[f64], least: f64, store: &[u32], n: usize) -> usize
    requires { Sets xs.now ys.now store.now n }
    ensures { result ≡ length (all_places xs.now ys.now least (take n store.now)) }
{
    let mut m = 0usize;
    for i in 0..n {
        m += size_of(xs, ys, least, store[i]);
    }
    m
}

// Writes a quad at p of both lists, and says where the next one goes.
fn write_one(places: &mut [u8], hashes: &mut [f64], p: usize, q: Tried) -> usize
    requires fact_1 { p + length (places_in q) ≤ length places.old }
    requires fact_2 { p + length (places_in q) ≤ length hashes.old }
    ensures { (result ≡ p + length (places_in q))
        × (places.new ≡ sets places.old p (places_in q))
        × (hashes.new ≡ sets hashes.old p (hash_in q)) }
{
    match q {
        Tried::Kept(h) => {
            places[p] = h.a;
            places[p + 1] = h.b;
            places[p + 2] = h.c;
            places[p + 3] = h.d;
            hashes[p] = h.h0;
            hashes[p + 1] = h.h1;
            hashes[p + 2] = h.h2;
            hashes[p + 3] = h.h3;
            p + 4
        }
        Tried::Short => p,
        Tried::Degenerate => p,
    }
}

// Writes the quads of the first n sets from p on, and says where the next one goes.
fn write_sets(
    xs: &[f64],
    ys: &[f64],
    least: f64,
    store: &[u32],
    n: usize,
    places: &mut [u8],
    hashes: &mut [f64],
    p: usize,
) -> usize
    requires fact_1 { Sets xs.now ys.now store.now n }
    requires fact_2 { p + length (all_places xs.now ys.now least (take n store.now)) ≤ length places.old }
    requires fact_3 { p + length (all_places xs.now ys.now least (take n store.now)) ≤ length hashes.old }
    ensures { Written xs.now ys.now least (take n store.now)
        p result places.old hashes.old places.new hashes.new }
{
    let mut at = p;
    for i in 0..n {
        at = write_one(places, hashes, at, quad_of(xs, ys, least, store[i]));
    }
    at
}

// How many places the quads of all seeds write.
fn needed_all(xs: &[f64], ys: &[f64], least: f64, lists: &[u8], words: &[u64], c: usize) -> usize
    requires { Seeds xs.now ys.now c lists.now words.now }
    ensures { result ≡ length (all_places xs.now ys.now least
        (listed lists.now c (length xs.now))) }
{
    let mut store = [0u32; 120];
    let mut m = 0usize;
    for seed in 0..xs.len() {
        let n = quad_lists::sets_of(&mut store, lists, words, xs.len(), c, seed);
        m += needed(xs, ys, least, &store, n);
    }
    m
}

// Whether a list of so many places has room for the quads of all seeds. They are counted only where it
// might have too little.
fn has_room(
    xs: &[f64],
    ys: &[f64],
    least: f64,
    lists: &[u8],
    words: &[u64],
    c: usize,
    room: usize,
) -> bool
    requires { Seeds xs.now ys.now c lists.now words.now }
    ensures { result ≡ leb (length (all_places xs.now ys.now least
        (listed lists.now c (length xs.now)))) room }
{
    if MOST_PLACES * xs.len() <= room {
        return true;
    }
    needed_all(xs, ys, least, lists, words, c) <= room
}

// Writes the quads of all seeds, and says how many places they are.
fn write_all(
    xs: &[f64],
    ys: &[f64],
    least: f64,
    lists: &[u8],
    words: &[u64],
    c: usize,
    places: &mut [u8],
    hashes: &mut [f64],
) -> usize
    requires fact_1 { Seeds xs.now ys.now c lists.now words.now }
    requires fact_2 { length (all_places xs.now ys.now least (listed lists.now c (length xs.now))) ≤ length places.old }
    requires fact_3 { length (all_places xs.now ys.now least (listed lists.now c (length xs.now))) ≤ length hashes.old }
    ensures { Written xs.now ys.now least (listed lists.now c (length xs.now))
        0 result places.old hashes.old places.new hashes.new }
{
    let mut store = [0u32; 120];
    let mut p = 0usize;
    for seed in 0..xs.len() {
        let n = quad_lists::sets_of(&mut store, lists, words, xs.len(), c, seed);
        p = write_sets(xs, ys, least, &store, n, places, hashes, p);
    }
    p
}

// The tests of the input, in their order.
#[tactic(auto, unfolding(crate::specs::Quads::input_answer))]
fn check_input(xs: &[f64], ys: &[f64], k: usize, least: f64) -> Result<(), Refusal>
    ensures { result ≡ input_answer xs.now ys.now k least }
{
    if MOST_NEIGHBOURS < k {
        return Err(Refusal::Count);
    }
    quad_stars::check_stars(xs, ys)?;
    if domain::is_limit(least) {
        Ok(())
    } else {
        Err(Refusal::Value)
    }
}

// The quads of an input that passed its tests. Nothing is written without room for all.
fn put_quads(
    xs: &[f64],
    ys: &[f64],
    k: usize,
    least: f64,
    places: &mut [u8],
    hashes: &mut [f64],
) -> Result<usize, Refusal>
    requires { (k ≤ 10) × (length xs.now ≤ 100) × FiniteStars xs.now ys.now }
    ensures { (result ≡ room_answer
        (length (quad_places xs.now ys.now k least)) (length places.old) (length hashes.old))
        × (places.new ≡ lent_after_quads result (quad_places xs.now ys.now k least) places.old)
        × (hashes.new ≡ lent_after_quads result (quad_hashes xs.now ys.now k least) hashes.old) }
{
    let mut lists = [0u8; 1000];
    let mut words = [0u64; 200];
    let c = quad_lists::put_lists(&mut lists, &mut words, xs, ys, k);
    if !has_room(
        xs,
        ys,
        least,
        &lists,
        &words,
        c,
        places.len().min(hashes.len()),
    ) {
        return Err(Refusal::Room);
    }
    let m = write_all(xs, ys, least, &lists, &words, c, places, hashes);
    Ok(m / 4)
}

// The quads of the stars, four places and four hash numbers each, written from the front of both
// lists; or a refusal, which changes nothing.
#[tactic(auto, unfolding(crate::specs::Quads::quads_answer))]
pub fn neighbor_quads(
    xs: &[f64],
    ys: &[f64],
    k: usize,
    least: f64,
    places: &mut [u8],
    hashes: &mut [f64],
) -> Result<usize, Refusal>
    ensures answer { result ≡ quads_answer xs.now ys.now k least (length places.old) (length hashes.old) }
    ensures places { places.new ≡ lent_after_quads result (quad_places xs.now ys.now k least) places.old }
    ensures hashes { hashes.new ≡ lent_after_quads result (quad_hashes xs.now ys.now k least) hashes.old }
{
    check_input(xs, ys, k, least)?;
    put_quads(xs, ys, k, least, places, hashes)
}
