// The matches of image quads with catalogue quads, found by the index of the catalogue list.
#![tactic(auto)]

ghost use Rattle.std.specs.Prelude.{◌≡◌, ◌+◌, ◌*◌, ◌/◌, ◌≤◌, ◌<◌, length, take, drop};
ghost use Rattle.std.proofs.lemmas.List.Edits.{sets};
ghost use Rattle.hash_near.specs.Over.{over, each};
ghost use Rattle.hash_write.specs.Write.{eight};
ghost use Rattle.hash_index.specs.Matches.{matches_of, room_answer};
ghost use Rattle.hash_index.specs.Steps.{Counted, Taken};
ghost use Rattle.index_table.specs.Table.{table_of};
ghost use Rattle.index_near.specs.Near.{near_hits};
ghost use Rattle.index_find.specs.Indexed.{tabled, Ends, Found};
ghost use Rattle.index_find.specs.Steps.{Searched, held_of, Held, image_matches};

use answer::Refusal;

// So many near places are kept from the count for the writing. Those past them are looked for again.
const KEPT: usize = 48000;

// Where the next near places go: after those before them, as far as they are kept.
fn held(total: usize) -> usize
    ensures { result ≡ held_of total }
{
    if total < KEPT { total } else { KEPT }
}

// Counts the near catalogue quads of each of n image quads, and all together, and keeps their places.
fn count_all(
    hashes: &[f64],
    n: usize,
    table: &[u64],
    m: usize,
    kept: &mut [u16],
    counts: &mut [u16],
) -> usize
    requires fact_1 { Searched hashes.now n table.now m }
    requires fact_2 { length kept.old ≡ 60000 }
    requires fact_3 { length counts.old ≡ 12000 }
    ensures total { result ≡ length (over (near_hits table.now m hashes.now) 0 n) }
    ensures counts { Counted (near_hits table.now m hashes.now) n counts.new }
    ensures kept { Held (over (near_hits table.now m hashes.now) 0 n) kept.new }
{
    let mut total = 0usize;
    for i in 0..n {
        let from = held(total);
        let near = index_near::gather_near(table, m, hashes, i, kept, from) - from;
        counts[i] = near as u16;
        total += near;
    }
    total
}

// Writes the matches of image quad i with the near places of a list, so many from `from` on, at p.
fn write_near(
    places: &[u8],
    i: usize,
    catalogue: &[u8],
    kept: &[u16],
    from: usize,
    near: usize,
    matches: &mut [u8],
    p: usize,
)
    requires fact_1 { i < 65536 }
    requires fact_2 { from + near ≤ length kept.now }
    requires fact_3 { p + 8 * near ≤ length matches.old }
    ensures { matches.new ≡ sets matches.old p
        (each (eight places.now i catalogue.now) (take near (drop from kept.now))) }
{
    let mut q = p;
    for t in 0..near {
        let j = kept[from + t] as usize;
        hash_write::write_match(places, i, catalogue, j, matches, q);
        q += 8;
    }
}

// Writes the matches of image quad i, which has so many near places and s before them. Those that are
// not kept are looked for again.
fn write_image(
    places: &[u8],
    hashes: &[f64],
    i: usize,
    catalogue: &[u8],
    table: &[u64],
    m: usize,
    near: usize,
    s: usize,
    kept: &mut [u16],
    matches: &mut [u8],
)
    requires fact_1 { Searched hashes.now (i + 1) table.now m }
    requires fact_2 { length kept.old ≡ 60000 }
    requires fact_3 { near ≡ length (near_hits table.now m hashes.now i) }
    requires fact_4 { (s + near ≤ 48000 → take near (drop s kept.old) ≡ near_hits table.now m hashes.now i) }
    requires fact_5 { 8 * s + 8 * near ≤ length matches.old }
    ensures matches { matches.new ≡ sets matches.old (8 * s)
        (image_matches places.now hashes.now catalogue.now table.now m i) }
    ensures kept { take 48000 kept.new ≡ take 48000 kept.old }
{
    if s + near <= KEPT {
        write_near(places, i, catalogue, kept, s, near, matches, 8 * s);
        return;
    }
    index_near::gather_near(table, m, hashes, i, kept, KEPT);
    write_near(places, i, catalogue, kept, KEPT, near, matches, 8 * s);
}

// Writes the matches of n image quads into the front of matches.
fn write_all(
    places: &[u8],
    hashes: &[f64],
    n: usize,
    catalogue: &[u8],
    table: &[u64],
    m: usize,
    counts: &[u16],
    kept: &mut [u16],
    matches: &mut [u8],
)
    requires searched_1 { Searched hashes.now n table.now m }
    requires searched_2 { length kept.old ≡ 60000 }
    requires searched_3 { length counts.now ≡ 12000 }
    requires searched_4 { Counted (near_hits table.now m hashes.now) n counts.now }
    requires held_1 { Held (over (near_hits table.now m hashes.now) 0 n) kept.old }
    requires held_2 { 8 * length (over (near_hits table.now m hashes.now) 0 n) ≤ length matches.old }
    ensures { matches.new ≡ sets matches.old 0
        (over (image_matches places.now hashes.now catalogue.now table.now m) 0 n) }
{
    let mut s = 0usize;
    for i in 0..n {
        let near = counts[i] as usize;
        write_image(
            places, hashes, i, catalogue, table, m, near, s, kept, matches,
        );
        s += near;
    }
}

// The matches by a table that belongs to the catalogue list: counted first, so that nothing is written
// without room.
fn put_indexed(
    places: &[u8],
    hashes: &[f64],
    catalogue: &[u8],
    others: &[f64],
    table: &[u64],
    matches: &mut [u8],
) -> Result<usize, Refusal>
    requires fact_1 { Taken (length places.now) (length hashes.now) (length catalogue.now) (length others.now) }
    requires fact_2 { take (length catalogue.now / 4 + length catalogue.now / 4) table.now
        ≡ table_of others.now (length catalogue.now / 4) }
    ensures { Ends room_answer (matches_of places.now hashes.now catalogue.now others.now)
        matches.old result matches.new }
{
    let n = places.len() / 4;
    let m = catalogue.len() / 4;
    let mut kept = [0u16; 60000];
    let mut counts = [0u16; 12000];
    let total = count_all(hashes, n, table, m, &mut kept, &mut counts);
    if matches.len() < 8 * total {
        return Err(Refusal::Room);
    }
    write_all(
        places, hashes, n, catalogue, table, m, &counts, &mut kept, matches,
    );
    Ok(total)
}

// The matches by any table: whether it belongs is asked before there is room.
fn put_checked(
    places: &[u8],
    hashes: &[f64],
    catalogue: &[u8],
    others: &[f64],
    table: &[u64],
    matches: &mut [u8],
) -> Result<usize, Refusal>
    requires { Taken (length places.now) (length hashes.now) (length catalogue.now) (length others.now) }
    ensures { Ends (tabled table.now others.now (length catalogue.now / 4))
        (matches_of places.now hashes.now catalogue.now others.now)
        matches.old result matches.new }
{
    let m = catalogue.len() / 4;
    if !index_table::is_table(others, m, table) {
        return Err(Refusal::Index);
    }
    put_indexed(places, hashes, catalogue, others, table, matches)
}

// The matches of the image quads (places, hashes) with the catalogue quads (catalogue, others), by the
// table of the catalogue quads: those of the plain search, in its order; or a refusal, which changes
// nothing.
#[tactic(auto, unfolding(crate::specs::Indexed::indexed_answer))]
pub fn find_matches_indexed(
    places: &[u8],
    hashes: &[f64],
    catalogue: &[u8],
    others: &[f64],
    table: &[u64],
    matches: &mut [u8],
) -> Result<usize, Refusal>
    ensures { Found places.now hashes.now catalogue.now others.now table.now
        matches.old result matches.new }
{
    hash_index::check_input(places, hashes, catalogue, others)?;
    put_checked(places, hashes, catalogue, others, table, matches)
}
