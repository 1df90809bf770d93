// `read_record`: the solution that a record shows, its coefficients in lent lists.
#![tactic(auto)]

ghost use Rattle.std.specs.Prelude.{◌≡◌, ◌≤◌, length};
ghost use Rattle.answer.specs.Answers.{first, room_for, written, lent_after};
ghost use Rattle.record_reader.specs.Reading.{record_in};
ghost use Rattle.record_load.specs.Load.{RecordLoaded, loaded_number};
ghost use Rattle.record_load.specs.declared.LoadError.TheVariants as load_error;

use answer::Refusal;
use record_reader::{Shown, WrongLine};

// Why a record is not read: its first wrong line, or another refusal.
#[derive(Clone, Copy)]
pub enum LoadError {
    Wrong(WrongLine),
    Refused(Refusal),
}

impl From<WrongLine> for LoadError {
    ghost from_gives = { λ e r. r ≡ load_error.Wrong e };

    fn from(wrong: WrongLine) -> LoadError {
        LoadError::Wrong(wrong)
    }
}

impl From<Refusal> for LoadError {
    ghost from_gives = { λ e r. r ≡ load_error.Refused e };

    fn from(why: Refusal) -> LoadError {
        LoadError::Refused(why)
    }
}

// The number of the answer of read_record: 0 is done.
pub fn number(answer: Result<Shown, LoadError>) -> u32
    ensures { result ≡ loaded_number answer }
{
    match answer {
        Ok(_) => 0,
        Err(LoadError::Wrong(_)) => Refusal::Form.number(),
        Err(LoadError::Refused(why)) => why.number(),
    }
}

// Hands a list out, to the front of another.
fn hand_out(to: &mut [f64], from: &[f64])
    requires { length from.now ≤ length to.old }
    ensures { to.new ≡ written from.now to.old }
{
    let n = from.len();
    elimination_rows::copy_row(&mut to[..n], from);
}

// Whether both lists have the places.
fn room_for_both(n: usize, m: usize, a: usize, b: usize) -> Result<(), Refusal>
    ensures { result ≡ first (room_for n a) (room_for m b) }
{
    answer::room_for(n, a)?;
    answer::room_for(m, b)
}

// Hands both lists out, where they have the room.
fn hand_both(xs: &[f64], ys: &[f64], a: &mut [f64], b: &mut [f64]) -> Result<(), Refusal>
    ensures { (result ≡ first
        (room_for (length xs.now) (length a.old)) (room_for (length ys.now) (length b.old)))
        × (a.new ≡ lent_after result xs.now a.old)
        × (b.new ≡ lent_after result ys.now b.old) }
{
    room_for_both(xs.len(), ys.len(), a.len(), b.len())?;
    hand_out(a, xs);
    hand_out(b, ys);
    Ok(())
}

// Reads a record of any format: what it shows beside its coefficients is the answer, and those of each axis, one for each
// term of the order, are handed out as they were solved to the front of a list, a dropped one as 0.0. A refusal hands out
// nothing.
pub fn read_record(text: &[u8], a: &mut [f64], b: &mut [f64]) -> Result<Shown, LoadError>
    ensures { RecordLoaded (record_in text.now) a.old b.old result a.new b.new }
{
    let mut xs = [0.0f64; 18];
    let mut ys = [0.0f64; 18];
    let shown = record_reader::load(text, &mut xs, &mut ys);
    // A text with a wrong line shows no coefficient.
    let n = record_reader::terms(shown);
    hand_both(&xs[..n], &ys[..n], a, b)?;
    Ok(shown?)
}
