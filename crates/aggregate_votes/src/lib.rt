// The votes of matches: which count, and how many each pair of ids has.
#![tactic(auto)]

ghost use Rattle.std.specs.Prelude.{◌≡◌, ℕ, ◌+◌, ◌-◌, ◌*◌, ◌<◌, ◌≤◌, pos, length, get_or, replicate};
ghost use Rattle.std.specs.Int.Signed.{lt_z};
ghost use Rattle.aggregate_votes.specs.Votes.{same_id, last_of, vote, votes_in, votes_of, ids, missing, votes_at, any_of};
ghost use Rattle.aggregate_votes.specs.Table.{column_of, misses, cast_vote, cast_all, one_more_of};

// A place in the list of image stars.
#[derive(Clone, Copy)]
pub struct ImagePlace(pub u8);

// A place in the list of catalogue stars.
#[derive(Clone, Copy)]
pub struct CataloguePlace(pub u8);

// The id of a detection: its place in the list of detections.
#[derive(Clone, Copy)]
pub struct DetectionId(pub u32);

// A place in the list of results.
#[derive(Clone, Copy)]
pub struct ResultPlace(pub usize);

// The id of a result, and 0 past the end, so that no caller has to carry a bound.
fn result_id(results: &[i64], r: ResultPlace) -> i64
    ensures { result ≡ get_or results.now r.0 (pos 0) }
{
    let i = r.0;
    if i < results.len() { results[i] } else { 0 }
}

// The id of a catalogue star, and 0 past the end.
fn catalogue_id(catalogue: &[i64], b: CataloguePlace) -> i64
    ensures { result ≡ get_or catalogue.now b.0 (pos 0) }
{
    let i = b.0 as usize;
    if i < catalogue.len() { catalogue[i] } else { 0 }
}

// Whether two catalogue ids are the same.
fn same_id(a: i64, b: i64) -> bool
    ensures { result ≡ same_id a b }
{
    a == b
}

// Whether the id of result i is below the id of result j; ids have a sign.
pub fn less_at(results: &[i64], i: ResultPlace, j: ResultPlace) -> bool
    ensures { result ≡ lt_z (get_or results.now i.0 (pos 0)) (get_or results.now j.0 (pos 0)) }
{
    result_id(results, i) < result_id(results, j)
}

// Whether results i and j have the same id.
pub fn same_at(results: &[i64], i: ResultPlace, j: ResultPlace) -> bool
    ensures { result ≡ same_id (get_or results.now i.0 (pos 0)) (get_or results.now j.0 (pos 0)) }
{
    same_id(result_id(results, i), result_id(results, j))
}

// The last result with an id, counted from 1; 0 where there is none.
fn last_of(results: &[i64], id: i64) -> usize
    ensures { result ≡ last_of results.now id (length results.now) }
{
    let mut found = 0usize;
    for k in 0..results.len() {
        if same_id(result_id(results, ResultPlace(k)), id) {
            found = k + 1;
        }
    }
    found
}

// The column of every catalogue place, from 1; 0 where the place does not exist or its id has no position.
fn columns(results: &[i64], catalogue: &[i64]) -> [usize; 256]
    requires { length catalogue.now ≤ 100 }
    ensures { (j : ℕ) → get_or result j 0 ≡ column_of catalogue.now results.now j }
{
    let mut cols = [0usize; 256];
    for j in 0..catalogue.len() {
        cols[j] = last_of(results, catalogue_id(catalogue, CataloguePlace(j as u8)));
    }
    cols
}

// One vote more for a detection, in a column from 1.
fn cast_vote(table: &mut [u32], d: DetectionId, col: usize)
    requires { (d.0 < 100) × ((0 < col) × ((col ≤ 100) × ((length table.old ≡ 10000) × (get_or table.old (d.0 * 100 + (col - 1)) 0 < 4294967295)))) }
    ensures { table.new ≡ one_more_of table.old (d.0 * 100 + (col - 1)) }
{
    let at = d.0 as usize * 100 + (col - 1);
    table[at] = table[at] + 1;
}

// The detection of an image place.
fn detection_at(images: &[u32], a: ImagePlace) -> DetectionId
    requires { a.0 < length images.now }
    ensures { result.0 ≡ get_or images.now a.0 0 }
{
    DetectionId(images[a.0 as usize])
}

// The column of a catalogue place.
fn column_at(cols: &[usize; 256], b: CataloguePlace) -> usize
    ensures { result ≡ get_or cols.now b.0 0 }
{
    cols[b.0 as usize]
}

// One vote, where it counts and its detection exists; whether it counts and names a missing one.
fn vote_for(
    images: &[u32],
    cols: &[usize; 256],
    nd: usize,
    a: ImagePlace,
    b: CataloguePlace,
    table: &mut [u32],
) -> bool
    requires fact_1 { nd ≤ 100 }
    requires fact_2 { length table.old ≡ 10000 }
    requires fact_3 { ((j : ℕ) → get_or cols.now j 0 ≤ 100) }
    requires fact_4 { ((s : ℕ) → get_or table.old s 0 < 4294967295) }
    ensures { (result ≡ misses images.now cols.now nd (vote a.0 b.0))
        × (table.new ≡ cast_vote images.now cols.now nd (vote a.0 b.0) table.old) }
{
    if images.len() <= a.0 as usize {
        return false; // no such image star
    }
    let col = column_at(cols, b);
    if col == 0 {
        return false; // no such catalogue star, or one without a position
    }
    let d = detection_at(images, a);
    if nd <= d.0 as usize {
        return true;
    }
    cast_vote(table, d, col);
    false
}

// The four votes of match m.
fn vote_match(
    matches: &[u8],
    m: usize,
    images: &[u32],
    cols: &[usize; 256],
    nd: usize,
    table: &mut [u32],
) -> bool
    requires m_in_bounds_1 { 8 * m + 8 ≤ length matches.now }
    requires m_in_bounds_2 { m < 144000000 }
    requires m_in_bounds_3 { nd ≤ 100 }
    requires m_in_bounds_4 { length table.old ≡ 10000 }
    requires by_index_1 { ((j : ℕ) → get_or cols.now j 0 ≤ 100) }
    requires by_index_2 { ((s : ℕ) → get_or table.old s 0 ≤ 4 * m) }
    ensures { (result ≡ any_of (misses images.now cols.now nd) (votes_in matches.now m))
        × (table.new ≡ cast_all images.now cols.now nd (votes_in matches.now m) table.old) }
{
    let at = 8 * m;
    let p = vote_for(
        images,
        cols,
        nd,
        ImagePlace(matches[at]),
        CataloguePlace(matches[at + 4]),
        table,
    );
    let q = vote_for(
        images,
        cols,
        nd,
        ImagePlace(matches[at + 1]),
        CataloguePlace(matches[at + 5]),
        table,
    );
    let r = vote_for(
        images,
        cols,
        nd,
        ImagePlace(matches[at + 2]),
        CataloguePlace(matches[at + 6]),
        table,
    );
    let s = vote_for(
        images,
        cols,
        nd,
        ImagePlace(matches[at + 3]),
        CataloguePlace(matches[at + 7]),
        table,
    );
    p | (q | (r | s))
}

// All votes of the matches, into a table of zeros with a row for each detection and a column for each
// result; whether a vote that counts names a missing detection.
pub fn tally(
    matches: &[u8],
    images: &[u32],
    catalogue: &[i64],
    results: &[i64],
    nd: usize,
    table: &mut [u32],
) -> bool
    requires fact_1 { length matches.now ≤ 1152000000 }
    requires fact_2 { length catalogue.now ≤ 100 }
    requires fact_3 { length results.now ≤ 100 }
    requires fact_4 { nd ≤ 100 }
    requires fact_5 { table.old ≡ replicate 10000 0 }
    ensures missing { result ≡ missing (ids images.now catalogue.now results.now) (votes_of matches.now) nd }
    ensures votes { (d r : ℕ) → d < nd → r < length results.now
        → get_or table.new (d * 100 + r) 0 ≡ votes_at (ids images.now catalogue.now results.now) (votes_of matches.now) d r }
{
    let cols = columns(results, catalogue);
    let n = matches.len() / 8;
    let mut bad = false;
    for m in 0..n {
        bad = bad | vote_match(matches, m, images, &cols, nd, table);
    }
    bad
}
