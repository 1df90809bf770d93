// How a call ends: done, or refused by number.
#![tactic(auto)]

ghost use Rattle.std.specs.Prelude.{◌≡◌};
ghost use Rattle.answer.specs.Answers.{number_of, answer_number, room_for, before_room, in_turn};

// A refusal, in the order in which the calls check for it.
#[derive(Clone, Copy)]
pub enum Refusal {
    // a count is outside its limit
    Count,
    // lengths that belong together differ
    Lengths,
    // a value is outside the domain
    Value,
    // a place is outside its list
    Place,
    // the index does not belong to this list
    Index,
    // the SIP order is outside its range
    Order,
    // too few rows for a SIP fit
    Rows,
    // the result needs more places than the lent output has
    Room,
    // a spine, a determinant or a pivot is too small
    Degenerate,
    // the CD draw ends with fewer than three rows on
    Few,
    // a text is not in its form: a program's input, a record
    Form,
}

impl Refusal {
    // Its number in an answer.
    pub fn number(self) -> u32
        ensures { result ≡ number_of self }
    {
        match self {
            Refusal::Count => 1,
            Refusal::Lengths => 2,
            Refusal::Value => 3,
            Refusal::Place => 4,
            Refusal::Index => 11,
            Refusal::Order => 5,
            Refusal::Rows => 6,
            Refusal::Room => 7,
            Refusal::Degenerate => 8,
            Refusal::Few => 9,
            Refusal::Form => 10,
        }
    }
}

// The number of an answer: 0 is done.
pub fn number<T: Copy>(answer: Result<T, Refusal>) -> u32
    ensures { result ≡ answer_number answer }
{
    match answer {
        Ok(_) => 0,
        Err(refusal) => refusal.number(),
    }
}

// Whether a lent list has the places that a result needs.
pub fn room_for(need: usize, places: usize) -> Result<(), Refusal>
    ensures { result ≡ room_for need places }
{
    if places < need {
        return Err(Refusal::Room);
    }
    Ok(())
}

// Whether a refusal is checked for before the room: 1 to 6, and 11.
fn is_before_room(why: Refusal) -> bool
    ensures { result ≡ before_room why }
{
    let number = why.number();
    (number < 7) | (number == 11)
}

// A refusal beside lists that may lack room: the one that is checked for first.
pub fn in_turn(why: Refusal, room: Result<(), Refusal>) -> Result<(), Refusal>
    ensures { result ≡ in_turn why room }
{
    if is_before_room(why) {
        return Err(why);
    }
    room?;
    Err(why)
}
