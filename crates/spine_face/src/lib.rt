// The spine calls for C: each answers its number, and writes its result into lent lists.
#![tactic(auto)]

ghost use Rattle.std.specs.Prelude.{◌≡◌, [], ◌∷◌, ◌≤◌, length};
ghost use Rattle.answer.specs.Answers.{answer_number, room_for, written, lent_after};
ghost use Rattle.spine_face.specs.Face.{spine_face, spine_written, star, orient_face, orient_written, quad_room};
ghost use Rattle.spine_face.specs.Face.{hash_numbers, quad_bytes, normal_face, hash_written, places_written};

use answer::Refusal;
use quad_normal::Quad;
use quad_stars::Star;

// Writes two bytes into the front of a list that has the room.
fn put_two(out: &mut [u8], a: u8, b: u8) -> Result<(), Refusal>
    ensures answer { result ≡ room_for 2 (length out.old) }
    ensures after { out.new ≡ lent_after (room_for 2 (length out.old)) (a ∷ b ∷ []) out.old }
{
    if out.len() < 2 {
        return Err(Refusal::Room);
    }
    out[0] = a;
    out[1] = b;
    Ok(())
}

// Writes four bytes into the front of a list that has the room.
pub fn put_four(out: &mut [u8], a: u8, b: u8, c: u8, d: u8) -> Result<(), Refusal>
    ensures answer { result ≡ room_for 4 (length out.old) }
    ensures after { out.new ≡ lent_after (room_for 4 (length out.old)) (a ∷ b ∷ c ∷ d ∷ []) out.old }
{
    if out.len() < 4 {
        return Err(Refusal::Room);
    }
    out[0] = a;
    out[1] = b;
    out[2] = c;
    out[3] = d;
    Ok(())
}

// Writes the four hash numbers of a quad into the front of a list.
fn put_hash(out: &mut [f64], q: Quad)
    requires { 4 ≤ length out.old }
    ensures { out.new ≡ written (hash_numbers q) out.old }
{
    out[0] = q.h0;
    out[1] = q.h1;
    out[2] = q.h2;
    out[3] = q.h3;
}

// Writes a quad into the front of two lists that have the room.
fn put_quad(hash: &mut [f64], places: &mut [u8], q: Quad) -> Result<(), Refusal>
    ensures answer { result ≡ quad_room (length hash.old) (length places.old) }
    ensures hash { hash.new ≡ lent_after
        (quad_room (length hash.old) (length places.old))
        (hash_numbers q)
        hash.old }
    ensures places { places.new ≡ lent_after
        (quad_room (length hash.old) (length places.old))
        (quad_bytes q)
        places.old }
{
    if hash.len() < 4 {
        return Err(Refusal::Room);
    }
    put_four(places, q.a, q.b, q.c, q.d)?;
    put_hash(hash, q);
    Ok(())
}

// Whether two lists have the room for a quad.
fn quad_room(hash: usize, places: usize) -> Result<(), Refusal>
    ensures { result ≡ quad_room hash places }
{
    if hash < 4 {
        return Err(Refusal::Room);
    }
    answer::room_for(4, places)
}

// The spine of the stars at four places, then the other two.
pub fn find_spine(xs: &[f64], ys: &[f64], p0: u8, p1: u8, p2: u8, p3: u8, spine: &mut [u8]) -> u32
    ensures number { result ≡ answer_number (spine_face xs.now ys.now p0 p1 p2 p3 (length spine.old)) }
    ensures spine { spine.new ≡ lent_after
        (spine_face xs.now ys.now p0 p1 p2 p3 (length spine.old))
        (spine_written xs.now ys.now p0 p1 p2 p3)
        spine.old }
{
    match quad_spine::find_spine(xs, ys, p0, p1, p2, p3) {
        Err(why) => why.number(),
        Ok(p) => answer::number(put_four(spine, p.a, p.b, p.c, p.d)),
    }
}

// The places of a spine's two stars, in order.
pub fn orient_spine(ax: f64, ay: f64, a: u8, bx: f64, by: f64, b: u8, pair: &mut [u8]) -> u32
    ensures number { result ≡ answer_number (orient_face (star ax ay a) (star bx by b) (length pair.old)) }
    ensures pair { pair.new ≡ lent_after
        (orient_face (star ax ay a) (star bx by b) (length pair.old))
        (orient_written (star ax ay a) (star bx by b))
        pair.old }
{
    let p = Star {
        x: ax,
        y: ay,
        at: a,
    };
    let q = Star {
        x: bx,
        y: by,
        at: b,
    };
    match quad_spine::orient_spine(p, q) {
        Err(why) => why.number(),
        Ok((first, second)) => answer::number(put_two(pair, first, second)),
    }
}

// The hash of the quad at four places, the spine first, and its places with C and D in order.
pub fn normalize_quad_ordered(
    xs: &[f64],
    ys: &[f64],
    a: u8,
    b: u8,
    c: u8,
    d: u8,
    hash: &mut [f64],
    places: &mut [u8],
) -> u32
    ensures number { result ≡ answer_number
        (normal_face xs.now ys.now a b c d (length hash.old) (length places.old)) }
    ensures hash { hash.new ≡ lent_after
        (normal_face xs.now ys.now a b c d (length hash.old) (length places.old))
        (hash_written xs.now ys.now a b c d)
        hash.old }
    ensures places { places.new ≡ lent_after
        (normal_face xs.now ys.now a b c d (length hash.old) (length places.old))
        (places_written xs.now ys.now a b c d)
        places.old }
{
    match quad_normal::normalize_quad_ordered(xs, ys, a, b, c, d) {
        Err(why) => {
            let room = quad_room(hash.len(), places.len());
            answer::number(answer::in_turn(why, room))
        },
        Ok(q) => answer::number(put_quad(hash, places, q)),
    }
}
