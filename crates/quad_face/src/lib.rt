// The quad calls for C, but for the spine's: each answers its number, and writes its result into lent lists.
#![tactic(auto)]

ghost use Rattle.std.specs.Prelude.{◌≡◌, cond, ◌≤◌, length};
ghost use Rattle.answer.specs.Answers.{answer_number, room_for, lent_after, number_after};
ghost use Rattle.quad_key.specs.Key.{key_of, neighbour_keys, keys_answer};
ghost use Rattle.quad.specs.Quads.{quads_answer, quad_places, quad_hashes};
ghost use Rattle.quad_face.specs.Face.{state_bytes, start_face, start_written, state_in, state_answer, step_done, step_places, step_bytes, step_given};
ghost use Rattle.quad_face.specs.Face.{step_from, next_face, quads_count, quads_face, hash_from};

use answer::Refusal;
use quad_combinations::{Set, State, Step};
use quad_key::Hash;

// 1 for true, 0 for false.
fn byte_of(b: bool) -> u8
    ensures { result ≡ cond b 1 0 }
{
    if b { 1 } else { 0 }
}

// Writes the five bytes of a state into the front of a list that has the room.
fn put_state(out: &mut [u8], s: State) -> Result<(), Refusal>
    ensures answer { result ≡ room_for 5 (length out.old) }
    ensures after { out.new ≡ lent_after (room_for 5 (length out.old)) (state_bytes s) out.old }
{
    if out.len() < 5 {
        return Err(Refusal::Room);
    }
    let set = s.set;
    let done = byte_of(s.done);
    out[0] = set.a;
    out[1] = set.b;
    out[2] = set.c;
    out[3] = set.d;
    out[4] = done;
    Ok(())
}

// Whether the bytes are of a state.
fn check_state(n: u32, bytes: &[u8]) -> Result<(), Refusal>
    ensures { result ≡ state_answer n bytes.now }
{
    if n > 100 {
        return Err(Refusal::Count);
    }
    if bytes.len() != 5 {
        return Err(Refusal::Lengths);
    }
    if !domain::is_mask_byte(bytes[4]) {
        return Err(Refusal::Value);
    }
    Ok(())
}

// The state that the bytes hold.
fn state_in(n: u32, bytes: &[u8]) -> State
    requires { 5 ≤ length bytes.now }
    ensures { result ≡ state_in n bytes.now }
{
    let set = Set {
        a: bytes[0],
        b: bytes[1],
        c: bytes[2],
        d: bytes[3],
    };
    let done = bytes[4] == 1;
    State { n, set, done }
}

// Writes what a step gives: the set into the places, and then the state after it.
fn put_step(
    step: Result<Step, Refusal>,
    state: &mut [u8],
    places: &mut [u8],
    given: &mut u8,
) -> Result<(), Refusal>
    requires { 5 ≤ length state.old }
    ensures answer { result ≡ step_done step (length places.old) }
    ensures state { state.new ≡ lent_after (step_done step (length places.old)) (step_bytes step) state.old }
    ensures places { places.new ≡ lent_after (step_done step (length places.old)) (step_places step) places.old }
    ensures given { given.new ≡ number_after (step_done step (length places.old)) (step_given step) given.old }
{
    match step? {
        Step::Given(set, after) => {
            spine_face::put_four(places, set.a, set.b, set.c, set.d)?;
            put_state(state, after)?;
            *given = 1;
        }
        Step::Ended(_) => *given = 0,
    }
    Ok(())
}

// The state from which the steps give every set of four places below n.
pub fn combinations_4(n: u32, state: &mut [u8]) -> u32
    ensures number { result ≡ answer_number (start_face n (length state.old)) }
    ensures state { state.new ≡ lent_after (start_face n (length state.old)) (start_written n) state.old }
{
    match quad_combinations::combinations_4(n) {
        Err(why) => why.number(),
        Ok(s) => answer::number(put_state(state, s)),
    }
}

// The set that stands in the state, and the state after it; given is 1, or 0 where none is left.
pub fn combinations_4_next(n: u32, state: &mut [u8], places: &mut [u8], given: &mut u8) -> u32
    ensures number { result ≡ answer_number (next_face n state.old (length places.old)) }
    ensures state { state.new ≡ lent_after
        (next_face n state.old (length places.old))
        (step_bytes (step_from n state.old))
        state.old }
    ensures places { places.new ≡ lent_after
        (next_face n state.old (length places.old))
        (step_places (step_from n state.old))
        places.old }
    ensures given { given.new ≡ number_after
        (next_face n state.old (length places.old))
        (step_given (step_from n state.old))
        given.old }
{
    match check_state(n, state) {
        Err(why) => why.number(),
        Ok(()) => {
            let step = state_in(n, state).next();
            answer::number(put_step(step, state, places, given))
        }
    }
}

// The quads of the stars, four places and four hash numbers each, and how many they are.
pub fn neighbor_quads(
    xs: &[f64],
    ys: &[f64],
    k: u32,
    least: f64,
    places: &mut [u8],
    hashes: &mut [f64],
    quads: &mut u64,
) -> u32
    ensures number { result ≡ answer_number
        (quads_face xs.now ys.now k least (length places.old) (length hashes.old)) }
    ensures places { places.new ≡ lent_after
        (quads_face xs.now ys.now k least (length places.old) (length hashes.old))
        (quad_places xs.now ys.now k least)
        places.old }
    ensures hashes { hashes.new ≡ lent_after
        (quads_face xs.now ys.now k least (length places.old) (length hashes.old))
        (quad_hashes xs.now ys.now k least)
        hashes.old }
    ensures quads { quads.new ≡ number_after
        (quads_face xs.now ys.now k least (length places.old) (length hashes.old))
        (quads_count (quads_answer xs.now ys.now k least (length places.old) (length hashes.old)))
        quads.old }
{
    match quad::neighbor_quads(xs, ys, k as usize, least, places, hashes) {
        Err(why) => why.number(),
        Ok(count) => {
            *quads = count as u64;
            0
        }
    }
}

// The key of a hash.
pub fn discrete_hash_key(h0: f64, h1: f64, h2: f64, h3: f64) -> u64
    ensures { result ≡ key_of (hash_from h0 h1 h2 h3) }
{
    quad_key::discrete_hash_key(Hash { h0, h1, h2, h3 })
}

// The 81 neighbour keys of a hash.
pub fn discrete_hash_key_neighbors(h0: f64, h1: f64, h2: f64, h3: f64, keys: &mut [u64]) -> u32
    ensures number { result ≡ answer_number (keys_answer (length keys.old)) }
    ensures keys { keys.new ≡ lent_after
        (keys_answer (length keys.old))
        (neighbour_keys (hash_from h0 h1 h2 h3))
        keys.old }
{
    answer::number(quad_key::discrete_hash_key_neighbors(Hash { h0, h1, h2, h3 }, keys))
}
