// Replays cases of the index, the searches, the votes and the affine score: a case a line on standard
// input, its answer a line on standard output, in the form of oracle/README.md. A lent output starts
// filled with the byte a5, as there.
#![tactic(auto)]

use std::io;
use std::io::{Stdout, Write};

// ---- the index and the searches

fn build_hash_index(out: &mut Stdout, s: &[u8], at: usize) -> io::Result<()> {
    let mut hashes = [0.0; 1024];
    let mut table = [0xa5a5a5a5a5a5a5a5u64; 1024];
    let n = cases::list_at(s, at, &mut hashes);
    let room = cases::room(s, cases::field(s, at, 1), &table);
    call_build_hash_index(out, &hashes[..n], &mut table[..room])
}

fn call_build_hash_index(out: &mut Stdout, hashes: &[f64], table: &mut [u64]) -> io::Result<()> {
    let number = matching_face::build_hash_index(hashes, table);
    cases::print_number(out, number as u64)?;
    cases::print_words(out, table)?;
    cases::print_end(out)
}

fn print_matches(out: &mut Stdout, number: u32, matches: &[u8], found: u64) -> io::Result<()> {
    cases::print_number(out, number as u64)?;
    cases::print_bytes(out, matches)?;
    cases::print_field(out, found)?;
    cases::print_end(out)
}

fn call_find_matches(
    out: &mut Stdout,
    places: &[u8],
    hashes: &[f64],
    catalogue: &[u8],
    others: &[f64],
    matches: &mut [u8],
) -> io::Result<()> {
    let mut found = 0xa5a5a5a5a5a5a5a5u64;
    let number = matching_face::find_matches(
        places, hashes, catalogue, others, matches, &mut found,
    );
    print_matches(out, number, matches, found)
}

fn lend_find_matches(
    out: &mut Stdout,
    s: &[u8],
    at: usize,
    places: &[u8],
    hashes: &[f64],
    catalogue: &[u8],
    others: &[f64],
) -> io::Result<()> {
    let mut matches = [0xa5u8; 4096];
    let room = cases::room(s, cases::field(s, at, 4), &matches);
    call_find_matches(out, places, hashes, catalogue, others, &mut matches[..room])
}

fn call_find_matches_indexed(
    out: &mut Stdout,
    places: &[u8],
    hashes: &[f64],
    catalogue: &[u8],
    others: &[f64],
    table: &[u64],
    matches: &mut [u8],
) -> io::Result<()> {
    let mut found = 0xa5a5a5a5a5a5a5a5u64;
    let number = matching_face::find_matches_indexed(
        places, hashes, catalogue, others, table, matches, &mut found,
    );
    print_matches(out, number, matches, found)
}

fn lend_find_matches_indexed(
    out: &mut Stdout,
    s: &[u8],
    at: usize,
    places: &[u8],
    hashes: &[f64],
    catalogue: &[u8],
    others: &[f64],
) -> io::Result<()> {
    let mut table = [0u64; 1024];
    let mut matches = [0xa5u8; 4096];
    let n = cases::list_at(s, cases::field(s, at, 4), &mut table);
    let room = cases::room(s, cases::field(s, at, 5), &matches);
    return call_find_matches_indexed(
        out,
        places,
        hashes,
        catalogue,
        others,
        &table[..n],
        &mut matches[..room],
    )
}

// Answers the case of quads by the index, or by the plain search.
fn answer_quads(
    out: &mut Stdout,
    s: &[u8],
    at: usize,
    indexed: bool,
    places: &[u8],
    hashes: &[f64],
    catalogue: &[u8],
    others: &[f64],
) -> io::Result<()> {
    if indexed {
        return lend_find_matches_indexed(out, s, at, places, hashes, catalogue, others);
    }
    lend_find_matches(out, s, at, places, hashes, catalogue, others)
}

// The case of either search begins with the four lists.
fn read_quads(out: &mut Stdout, s: &[u8], at: usize, indexed: bool) -> io::Result<()> {
    let mut places = [0u8; 1024];
    let mut hashes = [0.0; 1024];
    let mut catalogue = [0u8; 1024];
    let mut others = [0.0; 1024];
    let a = cases::list_at(s, at, &mut places);
    let b = cases::list_at(s, cases::field(s, at, 1), &mut hashes);
    let c = cases::list_at(s, cases::field(s, at, 2), &mut catalogue);
    let d = cases::list_at(s, cases::field(s, at, 3), &mut others);
    answer_quads(
        out,
        s,
        at,
        indexed,
        &places[..a],
        &hashes[..b],
        &catalogue[..c],
        &others[..d],
    )
}

// ---- extract_pairs

fn print_pairs(
    out: &mut Stdout,
    px: &[f64],
    py: &[f64],
    ra: &[f64],
    dec: &[f64],
    votes: &[u32],
    snr: &[f64],
) -> io::Result<()> {
    cases::print_floats(out, px)?;
    cases::print_floats(out, py)?;
    cases::print_floats(out, ra)?;
    cases::print_floats(out, dec)?;
    cases::print_u32s(out, votes)?;
    cases::print_floats(out, snr)
}

fn call_extract_pairs(
    out: &mut Stdout,
    matches: &[u8],
    xs: &[f64],
    ys: &[f64],
    snrs: &[f64],
    images: &[u32],
    catalogue: &[i64],
    results: &[i64],
    ras: &[f64],
    decs: &[f64],
    px: &mut [f64],
    py: &mut [f64],
    ra: &mut [f64],
    dec: &mut [f64],
    votes: &mut [u32],
    snr: &mut [f64],
) -> io::Result<()> {
    let mut pairs = 0xa5a5a5a5a5a5a5a5u64;
    let number = matching_face::extract_pairs(
        matches, xs, ys, snrs, images, catalogue, results, ras, decs, px, py, ra, dec, votes, snr,
        &mut pairs,
    );
    cases::print_number(out, number as u64)?;
    print_pairs(out, px, py, ra, dec, votes, snr)?;
    cases::print_field(out, pairs)?;
    cases::print_end(out)
}

// The lengths of the six outputs are the members of the tenth field.
fn lend_extract_pairs(
    out: &mut Stdout,
    s: &[u8],
    at: usize,
    matches: &[u8],
    xs: &[f64],
    ys: &[f64],
    snrs: &[f64],
    images: &[u32],
    catalogue: &[i64],
    results: &[i64],
    ras: &[f64],
    decs: &[f64],
) -> io::Result<()> {
    let pattern = scan_digits::of_bits(0xa5a5a5a5a5a5a5a5);
    let mut px = [pattern; 101];
    let mut py = [pattern; 101];
    let mut ra = [pattern; 101];
    let mut dec = [pattern; 101];
    let mut votes = [0xa5a5a5a5u32; 101];
    let mut snr = [pattern; 101];
    let rooms = cases::field(s, at, 9);
    let a = cases::room(s, rooms, &px);
    let b = cases::room(s, cases::member(s, rooms, 1), &py);
    let c = cases::room(s, cases::member(s, rooms, 2), &ra);
    let d = cases::room(s, cases::member(s, rooms, 3), &dec);
    let e = cases::room(s, cases::member(s, rooms, 4), &votes);
    let f = cases::room(s, cases::member(s, rooms, 5), &snr);
    call_extract_pairs(
        out,
        matches,
        xs,
        ys,
        snrs,
        images,
        catalogue,
        results,
        ras,
        decs,
        &mut px[..a],
        &mut py[..b],
        &mut ra[..c],
        &mut dec[..d],
        &mut votes[..e],
        &mut snr[..f],
    )
}

// The detections, behind the matches.
fn with_detections(
    out: &mut Stdout,
    s: &[u8],
    at: usize,
    matches: &[u8],
    images: &[u32],
    catalogue: &[i64],
    results: &[i64],
    ras: &[f64],
    decs: &[f64],
) -> io::Result<()> {
    let mut xs = [0.0; 101];
    let mut ys = [0.0; 101];
    let mut snrs = [0.0; 101];
    let a = cases::list_at(s, cases::field(s, at, 1), &mut xs);
    let b = cases::list_at(s, cases::field(s, at, 2), &mut ys);
    let c = cases::list_at(s, cases::field(s, at, 3), &mut snrs);
    lend_extract_pairs(
        out,
        s,
        at,
        matches,
        &xs[..a],
        &ys[..b],
        &snrs[..c],
        images,
        catalogue,
        results,
        ras,
        decs,
    )
}

// The results, behind the ids.
fn with_results(
    out: &mut Stdout,
    s: &[u8],
    at: usize,
    matches: &[u8],
    images: &[u32],
    catalogue: &[i64],
) -> io::Result<()> {
    let mut results = [0i64; 101];
    let mut ras = [0.0; 101];
    let mut decs = [0.0; 101];
    let a = cases::list_at(s, cases::field(s, at, 6), &mut results);
    let b = cases::list_at(s, cases::field(s, at, 7), &mut ras);
    let c = cases::list_at(s, cases::field(s, at, 8), &mut decs);
    with_detections(
        out,
        s,
        at,
        matches,
        images,
        catalogue,
        &results[..a],
        &ras[..b],
        &decs[..c],
    )
}

fn extract_pairs(out: &mut Stdout, s: &[u8], at: usize) -> io::Result<()> {
    let mut matches = [0u8; 256];
    let mut images = [0u32; 101];
    let mut catalogue = [0i64; 101];
    let a = cases::list_at(s, at, &mut matches);
    let b = cases::list_at(s, cases::field(s, at, 4), &mut images);
    let c = cases::list_at(s, cases::field(s, at, 5), &mut catalogue);
    with_results(out, s, at, &matches[..a], &images[..b], &catalogue[..c])
}

// ---- affines

fn fit_affine_3pt(
    out: &mut Stdout,
    s: &[u8],
    at: usize,
    px: &[f64],
    py: &[f64],
    xi: &[f64],
    eta: &[f64],
) -> io::Result<()> {
    let pattern = scan_digits::of_bits(0xa5a5a5a5a5a5a5a5);
    let mut affine = [pattern; 16];
    let room = cases::room(s, cases::field(s, at, 7), &affine);
    call_fit_affine_3pt(out, s, at, px, py, xi, eta, &mut affine[..room])
}

fn call_fit_affine_3pt(
    out: &mut Stdout,
    s: &[u8],
    at: usize,
    px: &[f64],
    py: &[f64],
    xi: &[f64],
    eta: &[f64],
    affine: &mut [f64],
) -> io::Result<()> {
    let a = cases::byte_at(s, cases::field(s, at, 4));
    let b = cases::byte_at(s, cases::field(s, at, 5));
    let c = cases::byte_at(s, cases::field(s, at, 6));
    let number = verify_face::fit_affine_3pt(px, py, xi, eta, a, b, c, affine);
    cases::print_number(out, number as u64)?;
    cases::print_floats(out, affine)?;
    cases::print_end(out)
}

fn count_affine_inliers(
    out: &mut Stdout,
    s: &[u8],
    at: usize,
    px: &[f64],
    py: &[f64],
    xi: &[f64],
    eta: &[f64],
) -> io::Result<()> {
    let mut affine = [0.0; 16];
    let n = cases::list_at(s, cases::field(s, at, 4), &mut affine);
    let threshold = cases::float_at(s, cases::field(s, at, 5));
    let mut inliers = 0xa5a5a5a5a5a5a5a5u64;
    let number = verify_face::count_affine_inliers(
        px,
        py,
        xi,
        eta,
        &affine[..n],
        threshold,
        &mut inliers,
    );
    cases::print_number(out, number as u64)?;
    cases::print_field(out, inliers)?;
    cases::print_end(out)
}

fn verify_pairs(
    out: &mut Stdout,
    px: &[f64],
    py: &[f64],
    xi: &[f64],
    eta: &[f64],
) -> io::Result<()> {
    let mut score = 0xa5a5a5a5a5a5a5a5u64;
    let number = verify_face::verify_pairs(px, py, xi, eta, &mut score);
    cases::print_number(out, number as u64)?;
    cases::print_field(out, score)?;
    cases::print_end(out)
}

// ---- lines

// Answers the case of rows whose call has a number.
fn answer_rows(
    out: &mut Stdout,
    s: &[u8],
    at: usize,
    call: u8,
    px: &[f64],
    py: &[f64],
    xi: &[f64],
    eta: &[f64],
) -> io::Result<()> {
    if call == 0 {
        return fit_affine_3pt(out, s, at, px, py, xi, eta);
    }
    if call == 1 {
        return count_affine_inliers(out, s, at, px, py, xi, eta);
    }
    verify_pairs(out, px, py, xi, eta)
}

// Every case of rows begins with the four lists.
fn read_rows(out: &mut Stdout, s: &[u8], at: usize, call: u8) -> io::Result<()> {
    let mut px = [0.0; 101];
    let mut py = [0.0; 101];
    let mut xi = [0.0; 101];
    let mut eta = [0.0; 101];
    let a = cases::list_at(s, at, &mut px);
    let b = cases::list_at(s, cases::field(s, at, 1), &mut py);
    let c = cases::list_at(s, cases::field(s, at, 2), &mut xi);
    let d = cases::list_at(s, cases::field(s, at, 3), &mut eta);
    answer_rows(out, s, at, call, &px[..a], &py[..b], &xi[..c], &eta[..d])
}

// Answers the case that starts at a place; a line that is no case has the answer "?".
fn answer(out: &mut Stdout, s: &[u8], at: usize) -> io::Result<()> {
    if let Ok(p) = scan::read_bytes(s, at, b"find_matches ") {
        return read_quads(out, s, p, false);
    }
    if let Ok(p) = scan::read_bytes(s, at, b"build_hash_index ") {
        return build_hash_index(out, s, p);
    }
    if let Ok(p) = scan::read_bytes(s, at, b"find_matches_indexed ") {
        return read_quads(out, s, p, true);
    }
    if let Ok(p) = scan::read_bytes(s, at, b"extract_pairs ") {
        return extract_pairs(out, s, p);
    }
    if let Ok(p) = scan::read_bytes(s, at, b"fit_affine_3pt ") {
        return read_rows(out, s, p, 0);
    }
    if let Ok(p) = scan::read_bytes(s, at, b"count_affine_inliers ") {
        return read_rows(out, s, p, 1);
    }
    if let Ok(p) = scan::read_bytes(s, at, b"verify_pairs ") {
        return read_rows(out, s, p, 2);
    }
    out.write_all(b"?\n")
}

// Answers each line, of so many at most.
fn main(rt: HostRuntime) -> io::Result<()> {
    let mut input = rt.reader();
    let mut out = rt.stdout();
    let mut line = [0u8; 16384];
    for _ in 0..100000usize {
        let n = cases::read_line(&mut input, &mut line)?;
        if n == 0 {
            return Ok(());
        }
        answer(&mut out, &line[..n], 0)?;
    }
    Ok(())
}
