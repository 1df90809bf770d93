// The matches of image quads with catalogue quads: what an index of the catalogue's keys would give.
#![tactic(auto)]

ghost use Rattle.std.specs.Prelude.{◌≡◌, ◌+◌, ◌≤◌, length};
ghost use Rattle.std.proofs.lemmas.List.Edits.{sets};
ghost use Rattle.hash_near.specs.Over.{over};
ghost use Rattle.hash_index.specs.Matches.{whole, input_answer, matches_of, room_answer, matches_answer, lent_after_matches};
ghost use Rattle.hash_index.specs.Steps.{Ready, near_to, Counted, near_matches, Taken};

use answer::Refusal;

// The most quads in a list.
pub const MOST_QUADS: usize = 12000;

// Whether places and hash numbers are of whole quads, and of as many.
fn is_whole(places: &[u8], hashes: &[f64]) -> bool
    ensures { result ≡ whole (length places.now) (length hashes.now) }
{
    (places.len() == hashes.len()) & (places.len() % 4 == 0)
}

// The tests of the input, in their order.
pub fn check_input(
    places: &[u8],
    hashes: &[f64],
    catalogue: &[u8],
    others: &[f64],
) -> Result<(), Refusal>
    ensures { result ≡ input_answer (length places.now) (length hashes.now)
        (length catalogue.now) (length others.now) }
{
    if MOST_QUADS < places.len() / 4 {
        return Err(Refusal::Count);
    }
    if MOST_QUADS < hashes.len() / 4 {
        return Err(Refusal::Count);
    }
    if MOST_QUADS < catalogue.len() / 4 {
        return Err(Refusal::Count);
    }
    if MOST_QUADS < others.len() / 4 {
        return Err(Refusal::Count);
    }
    if !is_whole(places, hashes) {
        return Err(Refusal::Lengths);
    }
    if !is_whole(catalogue, others) {
        return Err(Refusal::Lengths);
    }
    Ok(())
}

// Counts the near catalogue quads of each of n image quads, of m, and all together.
fn count_all(hashes: &[f64], n: usize, lanes: &[u16], m: usize, counts: &mut [u16]) -> usize
    requires fact_1 { Ready hashes.now n lanes.now m }
    requires fact_2 { length counts.old ≡ 12000 }
    ensures { (result ≡ length (over (near_to hashes.now lanes.now m) 0 n))
        × Counted (near_to hashes.now lanes.now m) n counts.new }
{
    let mut total = 0usize;
    for i in 0..n {
        let near = hash_near::count_near(lanes, hash_lanes::base_at(hashes, i), 0, m);
        counts[i] = near;
        total += near as usize;
    }
    total
}

// Writes the matches of image quad i, which has so many near catalogue quads of m, at p. The result
// is where the next match goes.
fn write_image(
    places: &[u8],
    hashes: &[f64],
    i: usize,
    catalogue: &[u8],
    lanes: &[u16],
    m: usize,
    near: usize,
    found: &mut [u32],
    matches: &mut [u8],
    p: usize,
) -> usize
    requires fact_1 { Ready hashes.now (i + 1) lanes.now m }
    requires fact_2 { near ≡ length (near_to hashes.now lanes.now m i) }
    requires fact_3 { length found.old ≡ 12000 }
    requires fact_4 { p + length (near_matches places.now hashes.now catalogue.now lanes.now m i) ≤ length matches.old }
    ensures { (result ≡ p + length (near_matches places.now hashes.now catalogue.now lanes.now m i))
        × (matches.new ≡ sets matches.old p
        (near_matches places.now hashes.now catalogue.now lanes.now m i)) }
{
    hash_near::gather(lanes, hash_lanes::base_at(hashes, i), m, near, found);
    hash_write::write_quad(places, i, catalogue, found, near, matches, p)
}

// Writes the matches of n image quads with m catalogue quads into the front of matches.
fn write_all(
    places: &[u8],
    hashes: &[f64],
    n: usize,
    catalogue: &[u8],
    lanes: &[u16],
    m: usize,
    counts: &[u16],
    found: &mut [u32],
    matches: &mut [u8],
)
    requires fact_1 { Ready hashes.now n lanes.now m }
    requires fact_2 { length counts.now ≡ 12000 }
    requires fact_3 { Counted (near_to hashes.now lanes.now m) n counts.now }
    requires fact_4 { length found.old ≡ 12000 }
    requires fact_5 { length (over (near_matches places.now hashes.now catalogue.now lanes.now m) 0 n) ≤ length matches.old }
    ensures { matches.new ≡ sets matches.old 0
        (over (near_matches places.now hashes.now catalogue.now lanes.now m) 0 n) }
{
    let mut p = 0usize;
    for i in 0..n {
        p = write_image(
            places,
            hashes,
            i,
            catalogue,
            lanes,
            m,
            counts[i] as usize,
            found,
            matches,
            p,
        );
    }
}

// The matches of an input that passed its tests: counted first, so that nothing is written without
// room.
fn put_matches(
    places: &[u8],
    hashes: &[f64],
    catalogue: &[u8],
    others: &[f64],
    matches: &mut [u8],
) -> Result<usize, Refusal>
    requires { Taken (length places.now) (length hashes.now) (length catalogue.now) (length others.now) }
    ensures { (result ≡ room_answer (length (matches_of places.now hashes.now catalogue.now others.now))
        (length matches.old))
        × (matches.new ≡ lent_after_matches result
        (matches_of places.now hashes.now catalogue.now others.now) matches.old) }
{
    let n = places.len() / 4;
    let m = catalogue.len() / 4;
    let mut lanes = [0u16; 48000];
    hash_lanes::fill_lanes(others, m, &mut lanes);
    let mut counts = [0u16; 12000];
    let total = count_all(hashes, n, &lanes, m, &mut counts);
    if matches.len() < 8 * total {
        return Err(Refusal::Room);
    }
    let mut found = [0u32; 12000];
    write_all(
        places, hashes, n, catalogue, &lanes, m, &counts, &mut found, matches,
    );
    Ok(total)
}

// The matches of the image quads (places, hashes) with the catalogue quads (catalogue, others), eight
// places each, written from the front of matches; or a refusal, which changes nothing.
#[tactic(auto, unfolding(crate::specs::Matches::matches_answer))]
pub fn find_matches(
    places: &[u8],
    hashes: &[f64],
    catalogue: &[u8],
    others: &[f64],
    matches: &mut [u8],
) -> Result<usize, Refusal>
    ensures answer { result ≡ matches_answer places.now hashes.now catalogue.now others.now
        (length matches.old) }
    ensures matches { matches.new ≡ lent_after_matches result
        (matches_of places.now hashes.now catalogue.now others.now) matches.old }
{
    check_input(places, hashes, catalogue, others)?;
    put_matches(places, hashes, catalogue, others, matches)
}
