// Pairs of a detection and a catalogue position, by the votes of matches: aggregate.rs of the Rust.
#![tactic(auto)]

ghost use Rattle.std.specs.Prelude.{◌≡◌, ◌≤◌, length};
ghost use Rattle.answer.specs.Answers.{lent_after};
ghost use Rattle.aggregate.specs.Extract.{given, room, few, even, inside, input_answer, room_answer, vote_pairs, pairs_answer, answer_of};
ghost use Rattle.aggregate.specs.Extract.{pair_xs, pair_ys, pair_ras, pair_decs, pair_votes, pair_snrs};

use answer::Refusal;

// The longest list of detections, ids or results.
const MOST: usize = 100;

// The most matches in a list.
const MOST_MATCHES: usize = 144000000;

// Whether no list is too long, by their lengths; the matches are counted in whole eights.
fn is_few(
    matches: usize,
    xs: usize,
    ys: usize,
    snrs: usize,
    images: usize,
    catalogue: usize,
    results: usize,
    ras: usize,
    decs: usize,
) -> bool
    ensures { result ≡ few matches xs ys snrs images catalogue results ras decs }
{
    let detections = (xs <= MOST) & ((ys <= MOST) & (snrs <= MOST));
    let ids = (images <= MOST) & (catalogue <= MOST);
    let positions = (results <= MOST) & ((ras <= MOST) & (decs <= MOST));
    (matches / 8 <= MOST_MATCHES) & (detections & (ids & positions))
}

// Whether the lengths that belong together are the same, and the matches whole eights.
fn is_even(
    matches: usize,
    xs: usize,
    ys: usize,
    snrs: usize,
    results: usize,
    ras: usize,
    decs: usize,
) -> bool
    ensures { result ≡ even matches xs ys snrs results ras decs }
{
    let detections = (ys == xs) & (snrs == xs);
    let positions = (ras == results) & (decs == results);
    (matches % 8 == 0) & (detections & positions)
}

// Whether every value is inside the domain.
fn is_inside(xs: &[f64], ys: &[f64], snrs: &[f64], ras: &[f64], decs: &[f64]) -> bool
    ensures { result ≡ inside xs.now ys.now snrs.now ras.now decs.now }
{
    let pixels = domain::all_positions(xs) & domain::all_positions(ys);
    let sky = domain::all_positions(ras) & domain::all_positions(decs);
    pixels & (domain::all_snrs(snrs) & sky)
}

// The tests of the input, in their order.
fn check_input(
    matches: &[u8],
    xs: &[f64],
    ys: &[f64],
    snrs: &[f64],
    images: &[u32],
    catalogue: &[i64],
    results: &[i64],
    ras: &[f64],
    decs: &[f64],
) -> Result<(), Refusal>
    ensures { result ≡ input_answer (given matches.now xs.now ys.now snrs.now images.now catalogue.now
        results.now ras.now decs.now) }
{
    if !is_few(
        matches.len(),
        xs.len(),
        ys.len(),
        snrs.len(),
        images.len(),
        catalogue.len(),
        results.len(),
        ras.len(),
        decs.len(),
    ) {
        return Err(Refusal::Count);
    }
    if !is_even(
        matches.len(),
        xs.len(),
        ys.len(),
        snrs.len(),
        results.len(),
        ras.len(),
        decs.len(),
    ) {
        return Err(Refusal::Lengths);
    }
    if !is_inside(xs, ys, snrs, ras, decs) {
        return Err(Refusal::Value);
    }
    Ok(())
}

// Whether each output has n places.
fn check_room(
    px: usize,
    py: usize,
    ra: usize,
    dec: usize,
    votes: usize,
    snr: usize,
    n: usize,
) -> Result<(), Refusal>
    ensures { result ≡ room_answer n (room px py ra dec votes snr) }
{
    if px < n {
        return Err(Refusal::Room);
    }
    if py < n {
        return Err(Refusal::Room);
    }
    if ra < n {
        return Err(Refusal::Room);
    }
    if dec < n {
        return Err(Refusal::Room);
    }
    if votes < n {
        return Err(Refusal::Room);
    }
    if snr < n {
        return Err(Refusal::Room);
    }
    Ok(())
}

// The pairs of an input that passed its tests: all is counted before the first store.
#[tactic(auto, unfolding(crate::specs::Extract::vote_pairs))]
fn put_pairs(
    matches: &[u8],
    xs: &[f64],
    ys: &[f64],
    snrs: &[f64],
    images: &[u32],
    catalogue: &[i64],
    results: &[i64],
    ras: &[f64],
    decs: &[f64],
    px: &mut [f64],
    py: &mut [f64],
    ra: &mut [f64],
    dec: &mut [f64],
    votes: &mut [u32],
    snr: &mut [f64],
) -> Result<usize, Refusal>
    requires { (length matches.now ≤ 1152000000) × (length xs.now ≤ 100) × (length catalogue.now ≤ 100) × (length results.now ≤ 100) }
    ensures answer { result ≡ vote_pairs (given matches.now xs.now ys.now snrs.now images.now catalogue.now
        results.now ras.now decs.now)
        (room (length px.old) (length py.old) (length ra.old) (length dec.old) (length votes.old) (length snr.old)) }
    ensures px { px.new ≡ lent_after (answer_of result) (pair_xs (given matches.now xs.now ys.now snrs.now images.now catalogue.now
        results.now ras.now decs.now)) px.old }
    ensures py { py.new ≡ lent_after (answer_of result) (pair_ys (given matches.now xs.now ys.now snrs.now images.now catalogue.now
        results.now ras.now decs.now)) py.old }
    ensures ra { ra.new ≡ lent_after (answer_of result) (pair_ras (given matches.now xs.now ys.now snrs.now images.now catalogue.now
        results.now ras.now decs.now)) ra.old }
    ensures dec { dec.new ≡ lent_after (answer_of result) (pair_decs (given matches.now xs.now ys.now snrs.now images.now catalogue.now
        results.now ras.now decs.now)) dec.old }
    ensures votes { votes.new ≡ lent_after (answer_of result) (pair_votes (given matches.now xs.now ys.now snrs.now images.now catalogue.now
        results.now ras.now decs.now)) votes.old }
    ensures snr { snr.new ≡ lent_after (answer_of result) (pair_snrs (given matches.now xs.now ys.now snrs.now images.now catalogue.now
        results.now ras.now decs.now)) snr.old }
{
    let pick = aggregate_choice::pick_pairs(matches, images, catalogue, results, xs.len());
    if pick.bad {
        return Err(Refusal::Place);
    }
    check_room(
        px.len(),
        py.len(),
        ra.len(),
        dec.len(),
        votes.len(),
        snr.len(),
        pick.n,
    )?;
    aggregate_outputs::write_all(pick, xs, ys, snrs, ras, decs, px, py, ra, dec, votes, snr);
    Ok(pick.n)
}

// The pairs that the matches vote for, one value of each pair in each of the six lists; or a refusal,
// which changes nothing. A match is eight star places; images has a detection id for each image star.
#[tactic(auto, unfolding(crate::specs::Extract::pairs_answer, crate::specs::Extract::vote_pairs))]
pub fn extract_pairs(
    matches: &[u8],
    xs: &[f64],
    ys: &[f64],
    snrs: &[f64],
    images: &[u32],
    catalogue: &[i64],
    results: &[i64],
    ras: &[f64],
    decs: &[f64],
    px: &mut [f64],
    py: &mut [f64],
    ra: &mut [f64],
    dec: &mut [f64],
    votes: &mut [u32],
    snr: &mut [f64],
) -> Result<usize, Refusal>
    ensures answer { result ≡ pairs_answer (given matches.now xs.now ys.now snrs.now images.now catalogue.now
        results.now ras.now decs.now)
        (room (length px.old) (length py.old) (length ra.old) (length dec.old) (length votes.old) (length snr.old)) }
    ensures px { px.new ≡ lent_after (answer_of result) (pair_xs (given matches.now xs.now ys.now snrs.now images.now catalogue.now
        results.now ras.now decs.now)) px.old }
    ensures py { py.new ≡ lent_after (answer_of result) (pair_ys (given matches.now xs.now ys.now snrs.now images.now catalogue.now
        results.now ras.now decs.now)) py.old }
    ensures ra { ra.new ≡ lent_after (answer_of result) (pair_ras (given matches.now xs.now ys.now snrs.now images.now catalogue.now
        results.now ras.now decs.now)) ra.old }
    ensures dec { dec.new ≡ lent_after (answer_of result) (pair_decs (given matches.now xs.now ys.now snrs.now images.now catalogue.now
        results.now ras.now decs.now)) dec.old }
    ensures votes { votes.new ≡ lent_after (answer_of result) (pair_votes (given matches.now xs.now ys.now snrs.now images.now catalogue.now
        results.now ras.now decs.now)) votes.old }
    ensures snr { snr.new ≡ lent_after (answer_of result) (pair_snrs (given matches.now xs.now ys.now snrs.now images.now catalogue.now
        results.now ras.now decs.now)) snr.old }
{
    check_input(matches, xs, ys, snrs, images, catalogue, results, ras, decs)?;
    put_pairs(
        matches, xs, ys, snrs, images, catalogue, results, ras, decs, px, py, ra, dec, votes, snr,
    )
}
