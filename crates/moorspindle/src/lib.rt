// The C face: every call of the solver under the name that bindings/c/moorspindle.h declares.
#![tactic(auto)]

ghost use Rattle.std.specs.Prelude.{◌≡◌, ◌≤◌, length};
ghost use Rattle.std.specs.Float.Ieee.{to_signed};
ghost use Rattle.floats.specs.Magnitude.{magnitude_of};
ghost use Rattle.floats.specs.Floor.{floor_of};
ghost use Rattle.floats.specs.Power.{power_of};
ghost use Rattle.root.specs.Root.{root_of, IsRoot};
ghost use Rattle.answer.specs.Answers.{answer_number, lent_after, number_after};
ghost use Rattle.quad_key.specs.Key.{key_of, neighbour_keys, keys_answer};
ghost use Rattle.rows.specs.Rows.{rows};
ghost use Rattle.quad.specs.Quads.{quads_answer, quad_places, quad_hashes};
ghost use Rattle.spine_face.specs.Face.{spine_face, spine_written, star, orient_face, orient_written, normal_face, hash_written, places_written};
ghost use Rattle.quad_face.specs.Face.{start_face, start_written, step_places, step_bytes, step_given, step_from, next_face, quads_count, quads_face, hash_from};
ghost use Rattle.aggregate.specs.Extract.{given, room, pair_xs, pair_ys, pair_ras, pair_decs, pair_votes, pair_snrs};
ghost use Rattle.matching_face.specs.Face.{MatchesFound, pairs_face, pairs_count};
ghost use Rattle.matching_face.specs.Index.{IndexBuilt, IndexedFound};
ghost use Rattle.verify_order.specs.Sorted.{sorted_rows};
ghost use Rattle.verify.specs.Score.{NoneBetter};
ghost use Rattle.verify_face.specs.Face.{affine_face, affine_written, inliers_face, inliers_count, score_face, score_count};
ghost use Rattle.cd_run.specs.Run.{run_answer, run_number, mask_after};
ghost use Rattle.run_face.specs.Face.{tested_after, on_after};
ghost use Rattle.run_face.specs.Demand.{Demanded};
ghost use Rattle.cd_clip.specs.Clip.{clip_number};
ghost use Rattle.clip_face.specs.Face.{plate_after, clip_face};
ghost use Rattle.record.specs.Record.{record_text};
ghost use Rattle.record_face.specs.Face.{solution_in, record_face};
ghost use Rattle.record_face.specs.Read.{lent, RecordRead};
ghost use Rattle.cd_fit.specs.Fit.{fit_answer};
ghost use Rattle.cd_normal.specs.Normal.{normal_solved, unknowns_of, normal_answer};
ghost use Rattle.cd_residuals.specs.Residuals.{residuals_x, residuals_y, residuals_px, found_of};
ghost use Rattle.fit_face.specs.Face.{fit_face, fit_written, weighted_fit};
ghost use Rattle.errors_face.specs.Face.{errors_face, errors_written, residuals_face, value_after, rms_face, rms_value};
ghost use Rattle.wcs.specs.Wcs.{wcs_in};
ghost use Rattle.errors_face.specs.Face.{weighted_face, weighted_value};
ghost use Rattle.sip_sums.specs.Field.{field};
ghost use Rattle.sip.specs.Call.{sip_a, sip_b};
ghost use Rattle.sip_face.specs.Face.{used_in, sums_in, sip_told, sip_face};

// ---- floats

#[unsafe(no_mangle)]
pub extern "C" fn moorspindle_magnitude(x: f64) -> f64
    ensures { result ≡ magnitude_of x }
{
    floats::magnitude(x)
}

#[unsafe(no_mangle)]
pub extern "C" fn moorspindle_floor(x: f64) -> i32
    ensures { result ≡ to_signed 31 (floor_of x) }
{
    floats::floor(x)
}

#[unsafe(no_mangle)]
pub extern "C" fn moorspindle_root(x: f64) -> f64
    ensures is { result ≡ root_of x }
    ensures nearest { IsRoot x result }
{
    root::root(x)
}

#[unsafe(no_mangle)]
pub extern "C" fn moorspindle_power(u: f64, p: u32) -> f64
    ensures { result ≡ power_of u p }
{
    floats::power(u, p)
}

// ---- quads

#[unsafe(no_mangle)]
pub extern "C" fn moorspindle_find_spine(
    xs: &[f64],
    ys: &[f64],
    p0: u8,
    p1: u8,
    p2: u8,
    p3: u8,
    spine: &mut [u8],
) -> u32
    ensures number { result ≡ answer_number (spine_face xs.now ys.now p0 p1 p2 p3 (length spine.old)) }
    ensures spine { spine.new ≡ lent_after
        (spine_face xs.now ys.now p0 p1 p2 p3 (length spine.old))
        (spine_written xs.now ys.now p0 p1 p2 p3)
        spine.old }
{
    spine_face::find_spine(xs, ys, p0, p1, p2, p3, spine)
}

#[unsafe(no_mangle)]
pub extern "C" fn moorspindle_orient_spine(
    ax: f64,
    ay: f64,
    a: u8,
    bx: f64,
    by: f64,
    b: u8,
    pair: &mut [u8],
) -> u32
    ensures number { result ≡ answer_number (orient_face (star ax ay a) (star bx by b) (length pair.old)) }
    ensures pair { pair.new ≡ lent_after
        (orient_face (star ax ay a) (star bx by b) (length pair.old))
        (orient_written (star ax ay a) (star bx by b))
        pair.old }
{
    spine_face::orient_spine(ax, ay, a, bx, by, b, pair)
}

#[unsafe(no_mangle)]
pub extern "C" fn moorspindle_normalize_quad_ordered(
    xs: &[f64],
    ys: &[f64],
    a: u8,
    b: u8,
    c: u8,
    d: u8,
    hash: &mut [f64],
    places: &mut [u8],
) -> u32
    ensures number { result ≡ answer_number
        (normal_face xs.now ys.now a b c d (length hash.old) (length places.old)) }
    ensures hash { hash.new ≡ lent_after
        (normal_face xs.now ys.now a b c d (length hash.old) (length places.old))
        (hash_written xs.now ys.now a b c d)
        hash.old }
    ensures places { places.new ≡ lent_after
        (normal_face xs.now ys.now a b c d (length hash.old) (length places.old))
        (places_written xs.now ys.now a b c d)
        places.old }
{
    spine_face::normalize_quad_ordered(xs, ys, a, b, c, d, hash, places)
}

#[unsafe(no_mangle)]
pub extern "C" fn moorspindle_combinations_4(n: u32, state: &mut [u8]) -> u32
    ensures number { result ≡ answer_number (start_face n (length state.old)) }
    ensures state { state.new ≡ lent_after (start_face n (length state.old)) (start_written n) state.old }
{
    quad_face::combinations_4(n, state)
}

#[unsafe(no_mangle)]
pub extern "C" fn moorspindle_combinations_4_next(
    n: u32,
    state: &mut [u8],
    places: &mut [u8],
    given: &mut u8,
) -> u32
    ensures number { result ≡ answer_number (next_face n state.old (length places.old)) }
    ensures state { state.new ≡ lent_after
        (next_face n state.old (length places.old))
        (step_bytes (step_from n state.old))
        state.old }
    ensures places { places.new ≡ lent_after
        (next_face n state.old (length places.old))
        (step_places (step_from n state.old))
        places.old }
    ensures given { given.new ≡ number_after
        (next_face n state.old (length places.old))
        (step_given (step_from n state.old))
        given.old }
{
    quad_face::combinations_4_next(n, state, places, given)
}

#[unsafe(no_mangle)]
pub extern "C" fn moorspindle_neighbor_quads(
    xs: &[f64],
    ys: &[f64],
    k: u32,
    least: f64,
    places: &mut [u8],
    hashes: &mut [f64],
    quads: &mut u64,
) -> u32
    ensures number { result ≡ answer_number
        (quads_face xs.now ys.now k least (length places.old) (length hashes.old)) }
    ensures places { places.new ≡ lent_after
        (quads_face xs.now ys.now k least (length places.old) (length hashes.old))
        (quad_places xs.now ys.now k least)
        places.old }
    ensures hashes { hashes.new ≡ lent_after
        (quads_face xs.now ys.now k least (length places.old) (length hashes.old))
        (quad_hashes xs.now ys.now k least)
        hashes.old }
    ensures quads { quads.new ≡ number_after
        (quads_face xs.now ys.now k least (length places.old) (length hashes.old))
        (quads_count (quads_answer xs.now ys.now k least (length places.old) (length hashes.old)))
        quads.old }
{
    quad_face::neighbor_quads(xs, ys, k, least, places, hashes, quads)
}

#[unsafe(no_mangle)]
pub extern "C" fn moorspindle_discrete_hash_key(h0: f64, h1: f64, h2: f64, h3: f64) -> u64
    ensures { result ≡ key_of (hash_from h0 h1 h2 h3) }
{
    quad_face::discrete_hash_key(h0, h1, h2, h3)
}

#[unsafe(no_mangle)]
pub extern "C" fn moorspindle_discrete_hash_key_neighbors(
    h0: f64,
    h1: f64,
    h2: f64,
    h3: f64,
    keys: &mut [u64],
) -> u32
    ensures number { result ≡ answer_number (keys_answer (length keys.old)) }
    ensures keys { keys.new ≡ lent_after
        (keys_answer (length keys.old))
        (neighbour_keys (hash_from h0 h1 h2 h3))
        keys.old }
{
    quad_face::discrete_hash_key_neighbors(h0, h1, h2, h3, keys)
}

// ---- matches, votes, affines

#[unsafe(no_mangle)]
pub extern "C" fn moorspindle_find_matches(
    places: &[u8],
    hashes: &[f64],
    catalogue: &[u8],
    others: &[f64],
    matches: &mut [u8],
    found: &mut u64,
) -> u32
    ensures { MatchesFound places.now hashes.now catalogue.now others.now
        matches.old found.old result matches.new found.new }
{
    matching_face::find_matches(places, hashes, catalogue, others, matches, found)
}

#[unsafe(no_mangle)]
pub extern "C" fn moorspindle_build_hash_index(hashes: &[f64], table: &mut [u64]) -> u32
    ensures { IndexBuilt hashes.now table.old result table.new }
{
    matching_face::build_hash_index(hashes, table)
}

#[unsafe(no_mangle)]
pub extern "C" fn moorspindle_find_matches_indexed(
    places: &[u8],
    hashes: &[f64],
    catalogue: &[u8],
    others: &[f64],
    table: &[u64],
    matches: &mut [u8],
    found: &mut u64,
) -> u32
    ensures { IndexedFound places.now hashes.now catalogue.now others.now
        table.now matches.old found.old result matches.new found.new }
{
    matching_face::find_matches_indexed(places, hashes, catalogue, others, table, matches, found)
}

#[unsafe(no_mangle)]
pub extern "C" fn moorspindle_extract_pairs(
    matches: &[u8],
    xs: &[f64],
    ys: &[f64],
    snrs: &[f64],
    images: &[u32],
    catalogue: &[i64],
    results: &[i64],
    ras: &[f64],
    decs: &[f64],
    px: &mut [f64],
    py: &mut [f64],
    ra: &mut [f64],
    dec: &mut [f64],
    votes: &mut [u32],
    snr: &mut [f64],
    pairs: &mut u64,
) -> u32
    ensures number { result ≡ answer_number (pairs_face
        (given matches.now xs.now ys.now snrs.now images.now catalogue.now
        results.now ras.now decs.now)
        (room (length px.old) (length py.old) (length ra.old) (length dec.old) (length votes.old) (length snr.old))) }
    ensures px { px.new ≡ lent_after (pairs_face
        (given matches.now xs.now ys.now snrs.now images.now catalogue.now
        results.now ras.now decs.now)
        (room (length px.old) (length py.old) (length ra.old) (length dec.old) (length votes.old) (length snr.old)))
        (pair_xs (given matches.now xs.now ys.now snrs.now images.now catalogue.now
        results.now ras.now decs.now))
        px.old }
    ensures py { py.new ≡ lent_after (pairs_face
        (given matches.now xs.now ys.now snrs.now images.now catalogue.now
        results.now ras.now decs.now)
        (room (length px.old) (length py.old) (length ra.old) (length dec.old) (length votes.old) (length snr.old)))
        (pair_ys (given matches.now xs.now ys.now snrs.now images.now catalogue.now
        results.now ras.now decs.now))
        py.old }
    ensures ra { ra.new ≡ lent_after (pairs_face
        (given matches.now xs.now ys.now snrs.now images.now catalogue.now
        results.now ras.now decs.now)
        (room (length px.old) (length py.old) (length ra.old) (length dec.old) (length votes.old) (length snr.old)))
        (pair_ras (given matches.now xs.now ys.now snrs.now images.now catalogue.now
        results.now ras.now decs.now))
        ra.old }
    ensures dec { dec.new ≡ lent_after (pairs_face
        (given matches.now xs.now ys.now snrs.now images.now catalogue.now
        results.now ras.now decs.now)
        (room (length px.old) (length py.old) (length ra.old) (length dec.old) (length votes.old) (length snr.old)))
        (pair_decs (given matches.now xs.now ys.now snrs.now images.now catalogue.now
        results.now ras.now decs.now))
        dec.old }
    ensures votes { votes.new ≡ lent_after (pairs_face
        (given matches.now xs.now ys.now snrs.now images.now catalogue.now
        results.now ras.now decs.now)
        (room (length px.old) (length py.old) (length ra.old) (length dec.old) (length votes.old) (length snr.old)))
        (pair_votes (given matches.now xs.now ys.now snrs.now images.now catalogue.now
        results.now ras.now decs.now))
        votes.old }
    ensures snr { snr.new ≡ lent_after (pairs_face
        (given matches.now xs.now ys.now snrs.now images.now catalogue.now
        results.now ras.now decs.now)
        (room (length px.old) (length py.old) (length ra.old) (length dec.old) (length votes.old) (length snr.old)))
        (pair_snrs (given matches.now xs.now ys.now snrs.now images.now catalogue.now
        results.now ras.now decs.now))
        snr.old }
    ensures pairs { pairs.new ≡ number_after (pairs_face
        (given matches.now xs.now ys.now snrs.now images.now catalogue.now
        results.now ras.now decs.now)
        (room (length px.old) (length py.old) (length ra.old) (length dec.old) (length votes.old) (length snr.old)))
        (pairs_count
        (given matches.now xs.now ys.now snrs.now images.now catalogue.now
        results.now ras.now decs.now))
        pairs.old }
{
    matching_face::extract_pairs(
        matches, xs, ys, snrs, images, catalogue, results, ras, decs, px, py, ra, dec, votes, snr,
        pairs,
    )
}

#[unsafe(no_mangle)]
pub extern "C" fn moorspindle_fit_affine_3pt(
    px: &[f64],
    py: &[f64],
    xi: &[f64],
    eta: &[f64],
    a: u8,
    b: u8,
    c: u8,
    affine: &mut [f64],
) -> u32
    ensures number { result ≡ answer_number
        (affine_face (rows px.now py.now xi.now eta.now) a b c (length affine.old)) }
    ensures affine { affine.new ≡ lent_after
        (affine_face (rows px.now py.now xi.now eta.now) a b c (length affine.old))
        (affine_written (rows px.now py.now xi.now eta.now) a b c)
        affine.old }
{
    verify_face::fit_affine_3pt(px, py, xi, eta, a, b, c, affine)
}

#[unsafe(no_mangle)]
pub extern "C" fn moorspindle_count_affine_inliers(
    px: &[f64],
    py: &[f64],
    xi: &[f64],
    eta: &[f64],
    affine: &[f64],
    threshold: f64,
    inliers: &mut u64,
) -> u32
    ensures number { result ≡ answer_number
        (inliers_face (rows px.now py.now xi.now eta.now) affine.now threshold) }
    ensures inliers { inliers.new ≡ number_after
        (inliers_face (rows px.now py.now xi.now eta.now) affine.now threshold)
        (inliers_count (rows px.now py.now xi.now eta.now) affine.now threshold)
        inliers.old }
{
    verify_face::count_affine_inliers(px, py, xi, eta, affine, threshold, inliers)
}

#[unsafe(no_mangle)]
pub extern "C" fn moorspindle_verify_pairs(
    px: &[f64],
    py: &[f64],
    xi: &[f64],
    eta: &[f64],
    score: &mut u64,
) -> u32
    ensures number { result ≡ answer_number (score_face (rows px.now py.now xi.now eta.now)) }
    ensures score { score.new ≡ number_after
        (score_face (rows px.now py.now xi.now eta.now))
        (score_count (rows px.now py.now xi.now eta.now))
        score.old }
    ensures best { result ≡ 0 → 3 ≤ length px.now
        → NoneBetter (sorted_rows (rows px.now py.now xi.now eta.now)) score.new }
{
    verify_face::verify_pairs(px, py, xi, eta, score)
}

// ---- solvers

#[unsafe(no_mangle)]
pub extern "C" fn moorspindle_fit_cd_matrix_6(
    px: &[f64],
    py: &[f64],
    xi: &[f64],
    eta: &[f64],
    mask: &[u8],
    cd: &mut [f64],
) -> u32
    ensures number { result ≡ answer_number (fit_face (fit_answer (rows px.now py.now xi.now eta.now) mask.now) (length cd.old)) }
    ensures cd { cd.new ≡ lent_after
        (fit_face (fit_answer (rows px.now py.now xi.now eta.now) mask.now) (length cd.old))
        (fit_written (fit_answer (rows px.now py.now xi.now eta.now) mask.now))
        cd.old }
{
    fit_face::fit_cd_matrix_6(px, py, xi, eta, mask, cd)
}

#[unsafe(no_mangle)]
pub extern "C" fn moorspindle_fit_cd_weighted(
    px: &[f64],
    py: &[f64],
    xi: &[f64],
    eta: &[f64],
    mask: &[u8],
    weights: &[f64],
    cd: &mut [f64],
) -> u32
    ensures number { result ≡ answer_number (fit_face (weighted_fit (rows px.now py.now xi.now eta.now) mask.now weights.now) (length cd.old)) }
    ensures cd { cd.new ≡ lent_after
        (fit_face (weighted_fit (rows px.now py.now xi.now eta.now) mask.now weights.now) (length cd.old))
        (fit_written (weighted_fit (rows px.now py.now xi.now eta.now) mask.now weights.now))
        cd.old }
{
    fit_face::fit_cd_weighted(px, py, xi, eta, mask, weights, cd)
}

#[unsafe(no_mangle)]
pub extern "C" fn moorspindle_compute_pixel_errors(
    px: &[f64],
    py: &[f64],
    xi: &[f64],
    eta: &[f64],
    mask: &[u8],
    cd: &[f64],
    errors: &mut [f64],
) -> u32
    ensures number { result ≡ answer_number
        (errors_face (rows px.now py.now xi.now eta.now) mask.now cd.now (length errors.old)) }
    ensures errors { errors.new ≡ lent_after
        (errors_face (rows px.now py.now xi.now eta.now) mask.now cd.now (length errors.old))
        (errors_written (rows px.now py.now xi.now eta.now) mask.now cd.now)
        errors.old }
{
    errors_face::compute_pixel_errors(px, py, xi, eta, mask, cd, errors)
}

// The CD run over a mask, with whether it was tested and how many rows are on.
#[unsafe(no_mangle)]
pub extern "C" fn moorspindle_ransac_fit(
    px: &[f64],
    py: &[f64],
    xi: &[f64],
    eta: &[f64],
    votes: &[u32],
    limit: f64,
    trials: u32,
    mask: &mut [u8],
    tested: &mut u8,
    on: &mut u64,
) -> u32
    ensures number { result ≡ run_number
        (run_answer (rows px.now py.now xi.now eta.now) votes.now limit trials (length mask.old)) }
    ensures mask { mask.new
        ≡ mask_after (rows px.now py.now xi.now eta.now) votes.now limit trials mask.old }
    ensures tested { tested.new ≡ tested_after
        (run_answer (rows px.now py.now xi.now eta.now) votes.now limit trials (length mask.old))
        tested.old }
    ensures on { on.new ≡ on_after
        (run_answer (rows px.now py.now xi.now eta.now) votes.now limit trials (length mask.old))
        on.old }
    ensures demand { Demanded
        (rows px.now py.now xi.now eta.now) votes.now limit trials (length mask.old)
        result tested.new on.new mask.new }
{
    run_face::ransac_fit(px, py, xi, eta, votes, limit, trials, mask, tested, on)
}

// The weighted clip of rows under a CD of six numbers.
#[unsafe(no_mangle)]
pub extern "C" fn moorspindle_sigma_clip_loop_weighted(
    px: &[f64],
    py: &[f64],
    xi: &[f64],
    eta: &[f64],
    mask: &mut [u8],
    cd: &mut [f64],
    weights: &[f64],
) -> u32
    ensures number { result ≡ clip_number (clip_face
        (rows px.now py.now xi.now eta.now) mask.old cd.old weights.now).answer }
    ensures mask { mask.new ≡ (clip_face
        (rows px.now py.now xi.now eta.now) mask.old cd.old weights.now).mask }
    ensures cd { cd.new ≡ plate_after (clip_face
        (rows px.now py.now xi.now eta.now) mask.old cd.old weights.now).answer cd.old }
{
    clip_face::sigma_clip_loop_weighted(px, py, xi, eta, mask, cd, weights)
}

#[unsafe(no_mangle)]
pub extern "C" fn moorspindle_compute_residuals(
    px: &[f64],
    py: &[f64],
    xi: &[f64],
    eta: &[f64],
    wcs: &[f64],
    x: &mut [f64],
    y: &mut [f64],
    all: &mut [f64],
    residuals: &mut u64,
) -> u32
    ensures number { result ≡ answer_number
        (residuals_face (rows px.now py.now xi.now eta.now) wcs.now (length x.old) (length y.old) (length all.old)) }
    ensures x { x.new ≡ lent_after
        (residuals_face (rows px.now py.now xi.now eta.now) wcs.now (length x.old) (length y.old) (length all.old))
        (residuals_x (rows px.now py.now xi.now eta.now) (wcs_in wcs.now))
        x.old }
    ensures y { y.new ≡ lent_after
        (residuals_face (rows px.now py.now xi.now eta.now) wcs.now (length x.old) (length y.old) (length all.old))
        (residuals_y (rows px.now py.now xi.now eta.now) (wcs_in wcs.now))
        y.old }
    ensures all { all.new ≡ lent_after
        (residuals_face (rows px.now py.now xi.now eta.now) wcs.now (length x.old) (length y.old) (length all.old))
        (residuals_px (rows px.now py.now xi.now eta.now) (wcs_in wcs.now))
        all.old }
    ensures residuals { residuals.new ≡ number_after
        (residuals_face (rows px.now py.now xi.now eta.now) wcs.now (length x.old) (length y.old) (length all.old))
        (found_of (wcs_in wcs.now) (length px.now))
        residuals.old }
{
    errors_face::compute_residuals(px, py, xi, eta, wcs, x, y, all, residuals)
}

#[unsafe(no_mangle)]
pub extern "C" fn moorspindle_rms_error(errors: &[f64], rms: &mut f64) -> u32
    ensures number { result ≡ answer_number (rms_face errors.now) }
    ensures rms { rms.new ≡ value_after (rms_face errors.now) (rms_value errors.now) rms.old }
{
    errors_face::rms_error(errors, rms)
}

#[unsafe(no_mangle)]
pub extern "C" fn moorspindle_weighted_rms_error(
    errors: &[f64],
    weights: &[f64],
    rms: &mut f64,
) -> u32
    ensures number { result ≡ answer_number (weighted_face errors.now weights.now) }
    ensures rms { rms.new ≡ value_after
        (weighted_face errors.now weights.now)
        (weighted_value errors.now weights.now)
        rms.old }
{
    errors_face::weighted_rms_error(errors, weights, rms)
}

#[unsafe(no_mangle)]
pub extern "C" fn moorspindle_solve_normal_equations(
    a: &[f64],
    b: &[f64],
    n: u32,
    x: &mut [f64],
) -> u32
    ensures number { result ≡ answer_number (normal_answer a.now b.now n (length x.old)) }
    ensures x { x.new ≡ lent_after
        (normal_answer a.now b.now n (length x.old))
        (unknowns_of (normal_solved a.now b.now n))
        x.old }
{
    fit_face::solve_normal_equations(a, b, n, x)
}

// ---- SIP

#[unsafe(no_mangle)]
pub extern "C" fn moorspindle_fit_sip(
    px: &[f64],
    py: &[f64],
    xi: &[f64],
    eta: &[f64],
    snr: &[f64],
    wcs: &[f64],
    order: u32,
    a: &mut [f64],
    b: &mut [f64],
    rows_used: &mut u64,
    sums: &mut [f64],
) -> u32
    ensures number { result ≡ answer_number (sip_face (rows px.now py.now xi.now eta.now) snr.now wcs.now order
        (length a.old) (length b.old) (length sums.old)) }
    ensures a { a.new ≡ lent_after (sip_face (rows px.now py.now xi.now eta.now) snr.now wcs.now order
        (length a.old) (length b.old) (length sums.old))
        (sip_a (field (rows px.now py.now xi.now eta.now) snr.now (wcs_in wcs.now)) order) a.old }
    ensures b { b.new ≡ lent_after (sip_face (rows px.now py.now xi.now eta.now) snr.now wcs.now order
        (length a.old) (length b.old) (length sums.old))
        (sip_b (field (rows px.now py.now xi.now eta.now) snr.now (wcs_in wcs.now)) order) b.old }
    ensures rows { rows_used.new ≡ number_after (sip_face (rows px.now py.now xi.now eta.now) snr.now wcs.now order
        (length a.old) (length b.old) (length sums.old))
        (used_in (sip_told (field (rows px.now py.now xi.now eta.now) snr.now (wcs_in wcs.now)) order
        (length a.old) (length b.old) (length sums.old))) rows_used.old }
    ensures sums { sums.new ≡ lent_after (sip_face (rows px.now py.now xi.now eta.now) snr.now wcs.now order
        (length a.old) (length b.old) (length sums.old))
        (sums_in (sip_told (field (rows px.now py.now xi.now eta.now) snr.now (wcs_in wcs.now)) order
        (length a.old) (length b.old) (length sums.old))) sums.old }
{
    sip_face::fit_sip(px, py, xi, eta, snr, wcs, order, a, b, rows_used, sums)
}

// The record of a solution from the front of the text, and how many bytes it has. The WCS is six numbers, the sums are three.
#[unsafe(no_mangle)]
pub extern "C" fn moorspindle_write_record(
    rows_used: u64,
    wcs: &[f64],
    order: u32,
    a: &[f64],
    b: &[f64],
    sums: &[f64],
    text: &mut [u8],
    written: &mut u64,
) -> u32
    ensures number { result ≡ answer_number
        (record_face rows_used wcs.now order a.now b.now sums.now (length text.old)) }
    ensures text { text.new ≡ lent_after
        (record_face rows_used wcs.now order a.now b.now sums.now (length text.old))
        (record_text (solution_in rows_used wcs.now order a.now b.now sums.now))
        text.old }
    ensures written { written.new ≡ number_after
        (record_face rows_used wcs.now order a.now b.now sums.now (length text.old))
        (length (record_text (solution_in rows_used wcs.now order a.now b.now sums.now)))
        written.old }
{
    record_face::write_record(rows_used, wcs, order, a, b, sums, text, written)
}

// The solution that a record shows, and the number of its format; or the number of its first wrong line.
#[unsafe(no_mangle)]
pub extern "C" fn moorspindle_read_record(
    text: &[u8],
    format: &mut u32,
    rows_used: &mut u64,
    wcs: &mut [f64],
    order: &mut u32,
    a: &mut [f64],
    b: &mut [f64],
    sums: &mut [f64],
    line: &mut u64,
) -> u32
    ensures { RecordRead text.now
        (lent format.old rows_used.old wcs.old order.old
        a.old b.old sums.old line.old) result
        (lent format.new rows_used.new wcs.new order.new
        a.new b.new sums.new line.new) }
{
    record_face::read_record(text, format, rows_used, wcs, order, a, b, sums, line)
}
