// Replays cases of the quad calls: a case a line on standard input, its answer a line on standard
// output, in the form of oracle/README.md. A lent output starts filled with the byte a5, as there.
#![tactic(auto)]

ghost use Rattle.std.specs.Prelude.{◌≡◌, length};

use std::io;
use std::io::{Stdout, Write};

// The four star places of a case.
#[derive(Clone, Copy)]
struct Four {
    a: u8,
    b: u8,
    c: u8,
    d: u8,
}

// The four numbers of a hash.
#[derive(Clone, Copy)]
struct Hash {
    h0: f64,
    h1: f64,
    h2: f64,
    h3: f64,
}

// ---- fields

fn four_at(s: &[u8], at: usize) -> Four {
    Four {
        a: cases::byte_at(s, at),
        b: cases::byte_at(s, cases::field(s, at, 1)),
        c: cases::byte_at(s, cases::field(s, at, 2)),
        d: cases::byte_at(s, cases::field(s, at, 3)),
    }
}

fn hash_at(s: &[u8], at: usize) -> Hash {
    Hash {
        h0: cases::float_at(s, at),
        h1: cases::float_at(s, cases::field(s, at, 1)),
        h2: cases::float_at(s, cases::field(s, at, 2)),
        h3: cases::float_at(s, cases::field(s, at, 3)),
    }
}

// ---- calls

fn call_find_spine(
    out: &mut Stdout,
    xs: &[f64],
    ys: &[f64],
    f: Four,
    spine: &mut [u8],
) -> io::Result<()> {
    let number = spine_face::find_spine(xs, ys, f.a, f.b, f.c, f.d, spine);
    cases::print_number(out, number as u64)?;
    cases::print_bytes(out, spine)?;
    cases::print_end(out)
}

fn find_spine(out: &mut Stdout, s: &[u8], at: usize) -> io::Result<()> {
    let mut xs = [0.0; 101];
    let mut ys = [0.0; 101];
    let n = cases::list_at(s, at, &mut xs);
    let m = cases::list_at(s, cases::field(s, at, 1), &mut ys);
    let f = four_at(s, cases::field(s, at, 2));
    let mut spine = [0xa5u8; 16];
    let room = cases::room(s, cases::field(s, at, 6), &spine);
    call_find_spine(out, &xs[..n], &ys[..m], f, &mut spine[..room])
}

fn call_orient_spine(out: &mut Stdout, s: &[u8], at: usize, pair: &mut [u8]) -> io::Result<()> {
    let ax = cases::float_at(s, at);
    let ay = cases::float_at(s, cases::field(s, at, 1));
    let a = cases::byte_at(s, cases::field(s, at, 2));
    let bx = cases::float_at(s, cases::field(s, at, 3));
    let by = cases::float_at(s, cases::field(s, at, 4));
    let b = cases::byte_at(s, cases::field(s, at, 5));
    let number = spine_face::orient_spine(ax, ay, a, bx, by, b, pair);
    cases::print_number(out, number as u64)?;
    cases::print_bytes(out, pair)?;
    cases::print_end(out)
}

fn orient_spine(out: &mut Stdout, s: &[u8], at: usize) -> io::Result<()> {
    let mut pair = [0xa5u8; 16];
    let room = cases::room(s, cases::field(s, at, 6), &pair);
    call_orient_spine(out, s, at, &mut pair[..room])
}

fn call_normalize(
    out: &mut Stdout,
    xs: &[f64],
    ys: &[f64],
    f: Four,
    hash: &mut [f64],
    places: &mut [u8],
) -> io::Result<()> {
    let number = spine_face::normalize_quad_ordered(xs, ys, f.a, f.b, f.c, f.d, hash, places);
    cases::print_number(out, number as u64)?;
    cases::print_floats(out, hash)?;
    cases::print_bytes(out, places)?;
    cases::print_end(out)
}

fn normalize_quad_ordered(out: &mut Stdout, s: &[u8], at: usize) -> io::Result<()> {
    let mut xs = [0.0; 101];
    let mut ys = [0.0; 101];
    let n = cases::list_at(s, at, &mut xs);
    let m = cases::list_at(s, cases::field(s, at, 1), &mut ys);
    let f = four_at(s, cases::field(s, at, 2));
    let pattern = scan_digits::of_bits(0xa5a5a5a5a5a5a5a5);
    let mut hash = [pattern; 16];
    let mut places = [0xa5u8; 16];
    let h = cases::room(s, cases::field(s, at, 6), &hash);
    let p = cases::room(s, cases::field(s, at, 7), &places);
    call_normalize(out, &xs[..n], &ys[..m], f, &mut hash[..h], &mut places[..p])
}

fn call_combinations_4(out: &mut Stdout, n: u32, state: &mut [u8]) -> io::Result<()> {
    let number = quad_face::combinations_4(n, state);
    cases::print_number(out, number as u64)?;
    cases::print_bytes(out, state)?;
    cases::print_end(out)
}

fn combinations_4(out: &mut Stdout, s: &[u8], at: usize) -> io::Result<()> {
    let mut state = [0xa5u8; 16];
    let room = cases::room(s, cases::field(s, at, 1), &state);
    call_combinations_4(out, cases::word_at(s, at), &mut state[..room])
}

fn call_combinations_4_next(
    out: &mut Stdout,
    n: u32,
    state: &mut [u8],
    places: &mut [u8],
) -> io::Result<()> {
    let mut given = 0xa5u8;
    let number = quad_face::combinations_4_next(n, state, places, &mut given);
    cases::print_number(out, number as u64)?;
    cases::print_bytes(out, state)?;
    cases::print_bytes(out, places)?;
    cases::print_space(out)?;
    cases::print_number(out, given as u64)?;
    cases::print_end(out)
}

fn combinations_4_next(out: &mut Stdout, s: &[u8], at: usize) -> io::Result<()> {
    let mut state = [0u8; 8];
    let n = cases::list_at(s, cases::field(s, at, 1), &mut state);
    let mut places = [0xa5u8; 16];
    let room = cases::room(s, cases::field(s, at, 2), &places);
    call_combinations_4_next(
        out,
        cases::word_at(s, at),
        &mut state[..n],
        &mut places[..room],
    )
}

fn call_neighbor_quads(
    out: &mut Stdout,
    xs: &[f64],
    ys: &[f64],
    k: u32,
    least: f64,
    places: &mut [u8],
    hashes: &mut [f64],
) -> io::Result<()> {
    let mut quads = 0xa5a5a5a5a5a5a5a5u64;
    let number = quad_face::neighbor_quads(xs, ys, k, least, places, hashes, &mut quads);
    cases::print_number(out, number as u64)?;
    cases::print_bytes(out, places)?;
    cases::print_floats(out, hashes)?;
    cases::print_space(out)?;
    cases::print_number(out, quads)?;
    cases::print_end(out)
}

// 4,096 places are room for the quads of 14 stars.
fn lend_neighbor_quads(
    out: &mut Stdout,
    s: &[u8],
    at: usize,
    xs: &[f64],
    ys: &[f64],
) -> io::Result<()> {
    let pattern = scan_digits::of_bits(0xa5a5a5a5a5a5a5a5);
    let mut places = [0xa5u8; 4096];
    let mut hashes = [pattern; 4096];
    let k = cases::word_at(s, cases::field(s, at, 2));
    let least = cases::float_at(s, cases::field(s, at, 3));
    let p = cases::room(s, cases::field(s, at, 4), &places);
    let h = cases::room(s, cases::field(s, at, 5), &hashes);
    call_neighbor_quads(out, xs, ys, k, least, &mut places[..p], &mut hashes[..h])
}

fn neighbor_quads(out: &mut Stdout, s: &[u8], at: usize) -> io::Result<()> {
    let mut xs = [0.0; 101];
    let mut ys = [0.0; 101];
    let n = cases::list_at(s, at, &mut xs);
    let m = cases::list_at(s, cases::field(s, at, 1), &mut ys);
    lend_neighbor_quads(out, s, at, &xs[..n], &ys[..m])
}

fn discrete_hash_key(out: &mut Stdout, s: &[u8], at: usize) -> io::Result<()> {
    let h = hash_at(s, at);
    cases::print_number(out, quad_face::discrete_hash_key(h.h0, h.h1, h.h2, h.h3))?;
    cases::print_end(out)
}

fn call_hash_key_neighbors(out: &mut Stdout, h: Hash, keys: &mut [u64]) -> io::Result<()> {
    let number = quad_face::discrete_hash_key_neighbors(h.h0, h.h1, h.h2, h.h3, keys);
    cases::print_number(out, number as u64)?;
    cases::print_words(out, keys)?;
    cases::print_end(out)
}

fn discrete_hash_key_neighbors(out: &mut Stdout, s: &[u8], at: usize) -> io::Result<()> {
    let mut keys = [0xa5a5a5a5a5a5a5a5u64; 96];
    let room = cases::room(s, cases::field(s, at, 4), &keys);
    call_hash_key_neighbors(out, hash_at(s, at), &mut keys[..room])
}

// ---- lines

// Answers the case that starts at a place; a line that is no case has the answer "?".
fn answer(out: &mut Stdout, s: &[u8], at: usize) -> io::Result<()> {
    if let Ok(p) = scan::read_bytes(s, at, b"find_spine ") {
        return find_spine(out, s, p);
    }
    if let Ok(p) = scan::read_bytes(s, at, b"orient_spine ") {
        return orient_spine(out, s, p);
    }
    if let Ok(p) = scan::read_bytes(s, at, b"normalize_quad_ordered ") {
        return normalize_quad_ordered(out, s, p);
    }
    if let Ok(p) = scan::read_bytes(s, at, b"combinations_4 ") {
        return combinations_4(out, s, p);
    }
    if let Ok(p) = scan::read_bytes(s, at, b"combinations_4_next ") {
        return combinations_4_next(out, s, p);
    }
    if let Ok(p) = scan::read_bytes(s, at, b"neighbor_quads ") {
        return neighbor_quads(out, s, p);
    }
    if let Ok(p) = scan::read_bytes(s, at, b"discrete_hash_key ") {
        return discrete_hash_key(out, s, p);
    }
    if let Ok(p) = scan::read_bytes(s, at, b"discrete_hash_key_neighbors ") {
        return discrete_hash_key_neighbors(out, s, p);
    }
    out.write_all(b"?\n")
}

// Answers each line.
fn answer_all(out: &mut Stdout, s: &[u8]) -> io::Result<()> {
    let mut at = 0;
    // Where a line ends the next one starts.
    while at < s.len() {
        answer(out, s, at)?;
        let end = scan::line_end(s, at);
        if s.len() <= end {
            return Ok(());
        }
        at = end + 1;
    }
    Ok(())
}

// Room for all cases. The length is promised, so that no proof about the room writes its bytes out.
fn room() -> [u8; 524288]
    ensures { 524288 ≡ length result }
{
    [0; 524288]
}

fn main(rt: HostRuntime) -> io::Result<()> {
    let mut cases = room();
    let n = streams::read_full(&mut rt.stdin(), &mut cases)?;
    answer_all(&mut rt.stdout(), &cases[..n])
}
