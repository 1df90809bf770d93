// The index, the searches and the votes for C: each call answers its number, and writes its result into what is lent.
#![tactic(auto)]

ghost use Rattle.std.specs.Prelude.{◌≡◌, length};
ghost use Rattle.answer.specs.Answers.{answer_number, lent_after, number_after};
ghost use Rattle.aggregate.specs.Extract.{given, room, pair_xs, pair_ys, pair_ras, pair_decs, pair_votes, pair_snrs};
ghost use Rattle.matching_face.specs.Face.{MatchesFound, pairs_face, pairs_count};
ghost use Rattle.matching_face.specs.Index.{IndexBuilt, IndexedFound};

// The matches of the image quads (places, hashes) with the catalogue quads (catalogue, others), eight
// places each, and how many they are.
pub fn find_matches(
    places: &[u8],
    hashes: &[f64],
    catalogue: &[u8],
    others: &[f64],
    matches: &mut [u8],
    found: &mut u64,
) -> u32
    ensures { MatchesFound places.now hashes.now catalogue.now others.now
        matches.old found.old result matches.new found.new }
{
    match hash_index::find_matches(places, hashes, catalogue, others, matches) {
        Err(why) => why.number(),
        Ok(count) => {
            *found = count as u64;
            0
        }
    }
}

// The index of the catalogue quads with these hashes, two words for each. Not inlined: where the tests of null
// pointers of the C face stand in one function with its long list, LLVM 22 probes the stack between them and
// their use, by the register that has their outcome.
#[inline(never)]
pub fn build_hash_index(hashes: &[f64], table: &mut [u64]) -> u32
    ensures { IndexBuilt hashes.now table.old result table.new }
{
    answer::number(index_build::build_hash_index(hashes, table))
}

// The matches that find_matches gives, by the index of the catalogue quads, and how many they are.
pub fn find_matches_indexed(
    places: &[u8],
    hashes: &[f64],
    catalogue: &[u8],
    others: &[f64],
    table: &[u64],
    matches: &mut [u8],
    found: &mut u64,
) -> u32
    ensures { IndexedFound places.now hashes.now catalogue.now others.now
        table.now matches.old found.old result matches.new found.new }
{
    match index_find::find_matches_indexed(places, hashes, catalogue, others, table, matches) {
        Err(why) => why.number(),
        Ok(count) => {
            *found = count as u64;
            0
        }
    }
}

// The pairs that the matches vote for, one value of each pair in each of the six lists, and how many
// they are.
pub fn extract_pairs(
    matches: &[u8],
    xs: &[f64],
    ys: &[f64],
    snrs: &[f64],
    images: &[u32],
    catalogue: &[i64],
    results: &[i64],
    ras: &[f64],
    decs: &[f64],
    px: &mut [f64],
    py: &mut [f64],
    ra: &mut [f64],
    dec: &mut [f64],
    votes: &mut [u32],
    snr: &mut [f64],
    pairs: &mut u64,
) -> u32
    ensures number { result ≡ answer_number (pairs_face
        (given matches.now xs.now ys.now snrs.now images.now catalogue.now
        results.now ras.now decs.now)
        (room (length px.old) (length py.old) (length ra.old) (length dec.old) (length votes.old) (length snr.old))) }
    ensures px { px.new ≡ lent_after (pairs_face
        (given matches.now xs.now ys.now snrs.now images.now catalogue.now
        results.now ras.now decs.now)
        (room (length px.old) (length py.old) (length ra.old) (length dec.old) (length votes.old) (length snr.old)))
        (pair_xs (given matches.now xs.now ys.now snrs.now images.now catalogue.now
        results.now ras.now decs.now))
        px.old }
    ensures py { py.new ≡ lent_after (pairs_face
        (given matches.now xs.now ys.now snrs.now images.now catalogue.now
        results.now ras.now decs.now)
        (room (length px.old) (length py.old) (length ra.old) (length dec.old) (length votes.old) (length snr.old)))
        (pair_ys (given matches.now xs.now ys.now snrs.now images.now catalogue.now
        results.now ras.now decs.now))
        py.old }
    ensures ra { ra.new ≡ lent_after (pairs_face
        (given matches.now xs.now ys.now snrs.now images.now catalogue.now
        results.now ras.now decs.now)
        (room (length px.old) (length py.old) (length ra.old) (length dec.old) (length votes.old) (length snr.old)))
        (pair_ras (given matches.now xs.now ys.now snrs.now images.now catalogue.now
        results.now ras.now decs.now))
        ra.old }
    ensures dec { dec.new ≡ lent_after (pairs_face
        (given matches.now xs.now ys.now snrs.now images.now catalogue.now
        results.now ras.now decs.now)
        (room (length px.old) (length py.old) (length ra.old) (length dec.old) (length votes.old) (length snr.old)))
        (pair_decs (given matches.now xs.now ys.now snrs.now images.now catalogue.now
        results.now ras.now decs.now))
        dec.old }
    ensures votes { votes.new ≡ lent_after (pairs_face
        (given matches.now xs.now ys.now snrs.now images.now catalogue.now
        results.now ras.now decs.now)
        (room (length px.old) (length py.old) (length ra.old) (length dec.old) (length votes.old) (length snr.old)))
        (pair_votes (given matches.now xs.now ys.now snrs.now images.now catalogue.now
        results.now ras.now decs.now))
        votes.old }
    ensures snr { snr.new ≡ lent_after (pairs_face
        (given matches.now xs.now ys.now snrs.now images.now catalogue.now
        results.now ras.now decs.now)
        (room (length px.old) (length py.old) (length ra.old) (length dec.old) (length votes.old) (length snr.old)))
        (pair_snrs (given matches.now xs.now ys.now snrs.now images.now catalogue.now
        results.now ras.now decs.now))
        snr.old }
    ensures pairs { pairs.new ≡ number_after (pairs_face
        (given matches.now xs.now ys.now snrs.now images.now catalogue.now
        results.now ras.now decs.now)
        (room (length px.old) (length py.old) (length ra.old) (length dec.old) (length votes.old) (length snr.old)))
        (pairs_count
        (given matches.now xs.now ys.now snrs.now images.now catalogue.now
        results.now ras.now decs.now))
        pairs.old }
{
    match aggregate::extract_pairs(
        matches, xs, ys, snrs, images, catalogue, results, ras, decs, px, py, ra, dec, votes, snr,
    ) {
        Err(why) => why.number(),
        Ok(count) => {
            *pairs = count as u64;
            0
        }
    }
}
