// The formats of a record: what sets one apart from the others, and the sign of the numbers in its distortion lines.
#![tactic(auto)]

ghost use Rattle.std.specs.Prelude.{◌≡◌};
ghost use Rattle.record_format.specs.Formats.{format_of, held_by, solved_by};

// What sets a format apart: the orders that it may have, and whether its distortion lines hold the numbers of the SIP convention.
#[derive(Clone, Copy)]
pub struct Format {
    pub least_order: u32,
    pub most_order: u32,
    pub turned: bool,
}

impl Format {
    // The newest format, in which the writer writes; all from 1 to it are read.
    pub const NEWEST: u32 = 2;

    // The format of a number.
    pub fn of(number: u32) -> Format
        ensures { result ≡ format_of number }
    {
        if number == 1 {
            return Format {
                least_order: 2,
                most_order: 5,
                turned: false,
            };
        }
        Format {
            least_order: 2,
            most_order: 5,
            turned: true,
        }
    }

    // What a distortion line holds of a solved coefficient.
    pub fn held(self, c: f64) -> f64
        ensures { result ≡ held_by self c }
    {
        if self.turned {
            return -c;
        }
        c
    }

    // The solved coefficient, from what its line holds, or from 0.0 where it has none.
    pub fn solved(self, x: f64) -> f64
        ensures { result ≡ solved_by self x }
    {
        if self.turned {
            // The sign of that 0.0 is not turned.
            return sip_terms::keep(-x);
        }
        x
    }
}
