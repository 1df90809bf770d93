// The sets of four places below n, one after another in rising order, as a step by value.
#![tactic(auto)]

ghost use Rattle.std.specs.Prelude.{◌≡◌, true, ◌≤◌};
ghost use Rattle.quad_combinations.specs.Combinations.{four, standing, ended, is_rising, start_of, after_of, step_of};

use answer::Refusal;

// The greatest number of places.
const MOST: u32 = 100;

// Four places. A list has at most 100, so that a byte holds each.
#[derive(Clone, Copy)]
pub struct Set {
    pub a: u8,
    pub b: u8,
    pub c: u8,
    pub d: u8,
}

// The set that is given next, or that none is left.
#[derive(Clone, Copy)]
pub struct State {
    pub n: u32,
    pub set: Set,
    pub done: bool,
}

// What a step answers: a set and the state after it, or the state in which none is left.
#[derive(Clone, Copy)]
pub enum Step {
    Given(Set, State),
    Ended(State),
}

// The state in which these four are given next.
fn state_at(n: u32, a: u8, b: u8, c: u8, d: u8) -> State
    ensures { result ≡ standing n (four a b c d) }
{
    let set = Set { a, b, c, d };
    let done = false;
    State { n, set, done }
}

// The state in which none is left.
fn state_past(n: u32, a: u8, b: u8, c: u8, d: u8) -> State
    ensures { result ≡ ended n (four a b c d) }
{
    let set = Set { a, b, c, d };
    let done = true;
    State { n, set, done }
}

// The state from which the steps give every set of four places below n.
pub fn combinations_4(n: u32) -> Result<State, Refusal>
    ensures { result ≡ start_of n }
{
    if n > MOST {
        return Err(Refusal::Count);
    }
    if n < 4 {
        return Ok(state_past(n, 0, 0, 0, 0));
    }
    Ok(state_at(n, 0, 1, 2, 3))
}

impl Set {
    // Whether the places rise and lie below n.
    fn is_rising(self, n: u32) -> bool
        ensures { result ≡ is_rising n self }
    {
        if self.b <= self.a {
            return false;
        }
        if self.c <= self.b {
            return false;
        }
        if self.d <= self.c {
            return false;
        }
        (self.d as u32) < n
    }

    // The state after this set: the last place that can rise does, and those behind it follow.
    fn after(self, n: u32) -> State
        requires { (n ≤ 100) × (is_rising n self ≡ true) }
        ensures { result ≡ after_of n self }
    {
        let a = self.a;
        let b = self.b;
        let c = self.c;
        let d = self.d;
        if (d as u32) + 1 < n {
            return state_at(n, a, b, c, d + 1);
        }
        if (c as u32) + 2 < n {
            return state_at(n, a, b, c + 1, c + 2);
        }
        if (b as u32) + 3 < n {
            return state_at(n, a, b + 1, b + 2, b + 3);
        }
        if (a as u32) + 4 < n {
            return state_at(n, a + 1, a + 2, a + 3, a + 4);
        }
        // Each place was raised before it was found to have no room.
        state_past(n, a + 1, b + 1, c + 1, d + 1)
    }
}

impl State {
    // The set that stands here, and the state after it.
    pub fn next(self) -> Result<Step, Refusal>
        ensures { result ≡ step_of self }
    {
        let n = self.n;
        let set = self.set;
        if n > MOST {
            return Err(Refusal::Count);
        }
        if self.done {
            return Ok(Step::Ended(self));
        }
        if set.is_rising(n) {
            return Ok(Step::Given(set, set.after(n)));
        }
        Err(Refusal::Place)
    }
}
