// Writes the matches of an image quad with the catalogue quads that are near to it.
#![tactic(auto)]

ghost use Rattle.std.specs.Prelude.{◌≡◌, ◌+◌, ◌*◌, ◌≤◌, ◌<◌, length, get_or, take};
ghost use Rattle.std.proofs.lemmas.List.Edits.{sets};
ghost use Rattle.hash_write.specs.Write.{places_at, eight, pick, of_number, by_number};

// The place at i. Past the end it is 0, so that no caller has to carry a bound.
fn place_at(places: &[u8], i: usize) -> u8
    ensures { result ≡ get_or places.now i 0 }
{
    if i < places.len() { places[i] } else { 0 }
}

// Writes the four places of quad q at p.
fn write_four(places: &[u8], q: usize, matches: &mut [u8], p: usize)
    requires fact_1 { q < 65536 }
    requires fact_2 { p + 4 ≤ length matches.old }
    ensures { matches.new ≡ sets matches.old p (places_at places.now q) }
{
    matches[p] = place_at(places, 4 * q);
    matches[p + 1] = place_at(places, 4 * q + 1);
    matches[p + 2] = place_at(places, 4 * q + 2);
    matches[p + 3] = place_at(places, 4 * q + 3);
}

// Writes the match of image quad i and catalogue quad j at p: four places of each.
pub fn write_match(
    places: &[u8],
    i: usize,
    catalogue: &[u8],
    j: usize,
    matches: &mut [u8],
    p: usize,
)
    requires fact_1 { i < 65536 }
    requires fact_2 { j < 65536 }
    requires fact_3 { p + 8 ≤ length matches.old }
    ensures { matches.new ≡ sets matches.old p (eight places.now i catalogue.now j) }
{
    write_four(places, i, matches, p);
    write_four(catalogue, j, matches, p + 4);
}

// Writes the match of image quad i and the near quad x at p, where its key number is n. The result
// is where the next match goes.
fn write_one(
    places: &[u8],
    i: usize,
    catalogue: &[u8],
    n: u32,
    x: u32,
    matches: &mut [u8],
    p: usize,
) -> usize
    requires fact_1 { i < 65536 }
    requires fact_2 { p + length (pick places.now i catalogue.now n x) ≤ length matches.old }
    ensures { (result ≡ p + length (pick places.now i catalogue.now n x))
        × (matches.new ≡ sets matches.old p (pick places.now i catalogue.now n x)) }
{
    if x / 65536 != n {
        return p;
    }
    write_match(places, i, catalogue, (x % 65536) as usize, matches, p);
    p + 8
}

// The same for each of the first k near quads.
fn write_number(
    places: &[u8],
    i: usize,
    catalogue: &[u8],
    n: u32,
    found: &[u32],
    k: usize,
    matches: &mut [u8],
    p: usize,
) -> usize
    requires fact_1 { i < 65536 }
    requires fact_2 { k ≤ length found.now }
    requires fact_3 { p + length (of_number places.now i catalogue.now (take k found.now) n) ≤ length matches.old }
    ensures { (result ≡ p + length (of_number places.now i catalogue.now (take k found.now) n))
        × (matches.new ≡ sets matches.old p (of_number places.now i catalogue.now (take k found.now) n)) }
{
    let mut q = p;
    for x in &found[..k] {
        q = write_one(places, i, catalogue, n, *x, matches, q);
    }
    q
}

// Writes the matches of image quad i with the first k near quads at p, by key number. The numbers
// end with the last match.
pub fn write_quad(
    places: &[u8],
    i: usize,
    catalogue: &[u8],
    found: &[u32],
    k: usize,
    matches: &mut [u8],
    p: usize,
) -> usize
    requires fact_1 { i < 65536 }
    requires fact_2 { k ≤ length found.now }
    requires fact_3 { k ≤ 12000 }
    requires fact_4 { p + 8 * k ≤ length matches.old }
    requires fact_5 { length (by_number places.now i catalogue.now (take k found.now)) ≡ 8 * k }
    ensures { (result ≡ p + length (by_number places.now i catalogue.now (take k found.now)))
        × (matches.new ≡ sets matches.old p (by_number places.now i catalogue.now (take k found.now))) }
{
    let end = p + 8 * k;
    let mut q = p;
    let mut n = 0u32;
    // until the last match is written, mostly long before the last number
    while q < end {
        q = write_number(places, i, catalogue, n, found, k, matches, q);
        n += 1;
    }
    q
}
