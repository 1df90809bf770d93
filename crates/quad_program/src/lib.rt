// The quad program over slices: a text is read, its quads are found, and their text is written.
#![tactic(auto)]

ghost use Rattle.std.specs.Prelude.{◌≡◌, ◌+◌, ◌*◌, ◌≤◌, length, take, drop};
ghost use Rattle.put.specs.Put.{Put, Room};
ghost use Rattle.scan.specs.Read.{read_bytes};
ghost use Rattle.quad_program.specs.Form.{star_of, stars_from, sky_in, star_count, parsed, form_in, parsed_stars};
ghost use Rattle.quad_program.specs.Print.{numbered, places_line, key_line, quad_lines, all_lines, status_line, found_text};
ghost use Rattle.quad_program.specs.Program.{quads_text, program_text};

use answer::Refusal;
use quad_key::Hash;

// The most stars of a text.
const MOST_STARS: usize = 14;

// The most bytes of a text.
const MOST_BYTES: usize = 1024;

// A star, with the place after its line.
#[derive(Clone, Copy)]
struct Star {
    x: f64,
    y: f64,
    next: usize,
}

// What a text says, the stars being in two lists beside it.
#[derive(Clone, Copy)]
struct Input {
    k: usize,
    least: f64,
    stars: usize,
}

// Reads the line of a star.
#[tactic(auto, unfolding(crate::specs::Form::star_of))]
fn read_star(s: &[u8], at: usize) -> Option<Star>
    ensures { result ≡ star_of s.now at }
{
    let (x, p) = scan_fields::hex_field(s, at, b"star=", b",").ok()?;
    let (y, next) = scan_fields::hex_field(s, p, b"", b"\n").ok()?;
    Some(Star {
        x: scan_digits::of_bits(x),
        y: scan_digits::of_bits(y),
        next,
    })
}

// Reads the lines of the stars, to the end of the text, into two lists, and returns how many there are.
fn read_stars(s: &[u8], at: usize, xs: &mut [f64], ys: &mut [f64]) -> Option<usize>
    requires { (length xs.old ≡ 14) × (length ys.old ≡ 14) }
    ensures { (sky_in result xs.new ys.new ≡ stars_from 14 s.now at) × (star_count result ≤ 14) }
{
    let mut p = at;
    let mut n = 0usize;
    // Where a line ends the next one starts.
    while p < s.len() {
        if MOST_STARS <= n {
            return None;
        }
        let star = read_star(s, p)?;
        xs[n] = star.x;
        ys[n] = star.y;
        n += 1;
        p = star.next;
    }
    Some(n)
}

// Reads a whole text, its stars into two lists.
#[tactic(auto, unfolding(crate::specs::Form::parsed))]
fn parse(s: &[u8], xs: &mut [f64], ys: &mut [f64]) -> Option<Input>
    requires { (length xs.old ≡ 14) × (length ys.old ≡ 14) }
    ensures { (form_in result xs.new ys.new ≡ parsed s.now) × (parsed_stars result ≤ 14) }
{
    if MOST_BYTES < s.len() {
        return None;
    }
    let (k, p) = scan_fields::decimal_field(s, 0, b"k=", b"\n").ok()?;
    let (least, q) = scan_fields::hex_field(s, p, b"min_spine_sq=", b"\n").ok()?;
    let stars = read_stars(s, q, xs, ys)?;
    Some(Input {
        k: k as usize,
        least: scan_digits::of_bits(least),
        stars,
    })
}

// Puts a text and a number in decimal.
fn put_numbered(buf: &mut [u8], at: usize, t: &[u8], n: u8) -> usize
    requires { Room buf.old at (numbered t.now n) }
    ensures { Put buf.old at (numbered t.now n) result buf.new }
{
    let p = put::put_bytes(buf, at, t);
    digits::put_decimal(buf, p, n as u64)
}

// Puts the line of a quad's places.
fn put_places(buf: &mut [u8], at: usize, a: u8, b: u8, c: u8, d: u8) -> usize
    requires { Room buf.old at (places_line a b c d) }
    ensures { Put buf.old at (places_line a b c d) result buf.new }
{
    let p = put_numbered(buf, at, b"quad=", a);
    let q = put_numbered(buf, p, b",", b);
    let r = put_numbered(buf, q, b",", c);
    text::put_decimal_line(buf, r, b",", d as u64)
}

// Puts the line of a quad's key.
fn put_key(buf: &mut [u8], at: usize, key: u64) -> usize
    requires { Room buf.old at (key_line key) }
    ensures { Put buf.old at (key_line key) result buf.new }
{
    let p = put::put_bytes(buf, at, b"key=");
    let q = digits::put_hex(buf, p, key);
    put::put_byte(buf, q, 10)
}

// Puts both lines of the quad at j of the two lists: at most 42 bytes.
fn put_quad(buf: &mut [u8], at: usize, places: &[u8], hashes: &[f64], j: usize) -> usize
    requires { (at + 42 ≤ length buf.old) × (j + 4 ≤ length places.now) × (j + 4 ≤ length hashes.now) }
    ensures { Put buf.old at (quad_lines (drop j places.now) (drop j hashes.now)) result buf.new × (result ≤ at + 42) }
{
    let key = quad_key::discrete_hash_key(Hash {
        h0: hashes[j],
        h1: hashes[j + 1],
        h2: hashes[j + 2],
        h3: hashes[j + 3],
    });
    let p = put_places(
        buf,
        at,
        places[j],
        places[j + 1],
        places[j + 2],
        places[j + 3],
    );
    put_key(buf, p, key)
}

// Puts the lines of the first n quads.
fn put_quads(buf: &mut [u8], at: usize, n: usize, places: &[u8], hashes: &[f64]) -> usize
    requires { (at + 42 * n ≤ length buf.old) × (4 * n ≤ length places.now) × (4 * n ≤ length hashes.now) }
    ensures { Put buf.old at (all_lines n places.now hashes.now) result buf.new × (result ≤ at + 42 * n) }
{
    let mut m = at;
    for i in 0..n {
        m = put_quad(buf, m, places, hashes, 4 * i);
    }
    m
}

// Puts the line of an answer's number.
fn put_status(buf: &mut [u8], n: u32) -> usize
    requires { 28 ≤ length buf.old }
    ensures { Put buf.old 0 (status_line n) result buf.new × (result ≤ 28) }
{
    text::put_decimal_line(buf, 0, b"status=", n as u64)
}

// Puts the text for n quads.
fn put_found(buf: &mut [u8], n: usize, places: &[u8], hashes: &[f64]) -> usize
    requires { (55 + 42 * n ≤ length buf.old) × (4 * n ≤ length places.now) × (4 * n ≤ length hashes.now) }
    ensures { Put buf.old 0 (found_text n places.now hashes.now) result buf.new × (result ≤ 55 + 42 * n) }
{
    let p = put_status(buf, 0);
    let q = text::put_decimal_line(buf, p, b"quads=", n as u64);
    put_quads(buf, q, n, places, hashes)
}

// Finds the quads of at most 14 stars and puts the text for them. The room is that of 1,001 quads, which is enough.
fn put_answer(buf: &mut [u8], xs: &[f64], ys: &[f64], k: usize, least: f64) -> usize
    requires { (42100 ≤ length buf.old) × (length xs.now ≤ 14) }
    ensures { Put buf.old 0 (quads_text xs.now ys.now k least) result buf.new × (result ≤ 42100) }
{
    let mut places = [0u8; 4004];
    let mut hashes = [0.0f64; 4004];
    match quad::neighbor_quads(xs, ys, k, least, &mut places, &mut hashes) {
        Err(why) => put_status(buf, why.number()),
        Ok(n) => put_found(buf, n, &places, &hashes),
    }
}

// Puts the text that the program prints for a text at the front of out, and says how long it is.
pub fn answer(s: &[u8], out: &mut [u8; 42100]) -> usize
    ensures text { take result out.new ≡ program_text s.now }
    ensures count { result ≡ length (program_text s.now) }
    ensures rest { drop result out.new ≡ drop result out.old }
    ensures fits { (result ≤ length out.new) × (result ≡ length (take result out.new)) }
{
    let mut xs = [0.0f64; 14];
    let mut ys = [0.0f64; 14];
    match parse(s, &mut xs, &mut ys) {
        None => put_status(out, Refusal::Form.number()),
        Some(input) => put_answer(
            out,
            &xs[..input.stars],
            &ys[..input.stars],
            input.k,
            input.least,
        ),
    }
}
