// A CD plate: six numbers, their inverse, and the error of a row; and what the calls ask of rows with a mask.
#![tactic(auto)]

ghost use Rattle.std.specs.Prelude.{◌≡◌, cond, ◌≤◌, length};
ghost use Rattle.answer.specs.Answers.{room_for, written, lent_after};
ghost use Rattle.rows.specs.Rows.{rows};
ghost use Rattle.cd_plate.specs.Plate.{determinant_of, is_cd, inverse_of, square_of, error_of, nothing};
ghost use Rattle.cd_plate.specs.Masked.{few_masked, even_masked, good_masked};
ghost use Rattle.cd_plate.specs.Errors.{errors_of};
ghost use Rattle.cd_plate.specs.Six.{cd_in, cd_numbers};

use answer::Refusal;
use rows::Row;

// The longest mask.
const MOST_ROWS: usize = 100;

// From a pixel to the tangent plane: xi = cd1_1 x + cd1_2 y + xi0, eta = cd2_1 x + cd2_2 y + eta0.
#[derive(Clone, Copy)]
pub struct Cd {
    pub cd1_1: f64,
    pub cd1_2: f64,
    pub xi0: f64,
    pub cd2_1: f64,
    pub cd2_2: f64,
    pub eta0: f64,
}

impl Cd {
    // The word before the first draw.
    pub const START_WORD: u64 = 0xDEAD_BEEF_CAFE_1234;
    // The most trials of a run.
    pub const MOST_TRIALS: usize = 1000;
    // A fit needs a determinant above this, and residuals one that is not below.
    pub const LEAST_DETERMINANT: f64 = 1e-30;

    // By its numbers. Every CD is made here.
    pub fn new(cd1_1: f64, cd1_2: f64, xi0: f64, cd2_1: f64, cd2_2: f64, eta0: f64) -> Cd
        ensures { result ≡ record { cd1_1 = cd1_1; cd1_2 = cd1_2; xi0 = xi0; cd2_1 = cd2_1; cd2_2 = cd2_2; eta0 = eta0 } }
    {
        Cd {
            cd1_1,
            cd1_2,
            xi0,
            cd2_1,
            cd2_2,
            eta0,
        }
    }

    // The CD that six numbers of a list make.
    pub fn of(m: &[f64]) -> Cd
        requires { 6 ≤ length m.now }
        ensures { result ≡ cd_in m.now }
    {
        Cd::new(m[0], m[1], m[2], m[3], m[4], m[5])
    }

    // The determinant of its four factors.
    pub fn determinant(self) -> f64
        ensures { result ≡ determinant_of self }
    {
        self.cd1_1 * self.cd2_2 - self.cd1_2 * self.cd2_1
    }

    // Whether each of its numbers is finite.
    pub fn is_finite(self) -> bool
        ensures { result ≡ is_cd self }
    {
        let xi = domain::is_finite(self.cd1_1)
            & (domain::is_finite(self.cd1_2) & domain::is_finite(self.xi0));
        let eta = domain::is_finite(self.cd2_1)
            & (domain::is_finite(self.cd2_2) & domain::is_finite(self.eta0));
        xi & eta
    }

    // Its inverse. A factor is negated before it is divided.
    pub fn inverse(self) -> Inverse
        ensures { result ≡ inverse_of self }
    {
        let det = self.determinant();
        Inverse {
            i00: self.cd2_2 / det,
            i01: -self.cd1_2 / det,
            i10: -self.cd2_1 / det,
            i11: self.cd1_1 / det,
            xi0: self.xi0,
            eta0: self.eta0,
        }
    }
}

// From the tangent plane back to the pixels: what was added goes, then the factors' inverse.
#[derive(Clone, Copy)]
pub struct Inverse {
    pub i00: f64,
    pub i01: f64,
    pub i10: f64,
    pub i11: f64,
    pub xi0: f64,
    pub eta0: f64,
}

impl Inverse {
    // The squared error of a row, in pixels.
    pub fn square(self, row: Row) -> f64
        ensures { result ≡ square_of self row }
    {
        let dxi = row.xi - self.xi0;
        let deta = row.eta - self.eta0;
        let ex = row.px - (self.i00 * dxi + self.i01 * deta);
        let ey = row.py - (self.i10 * dxi + self.i11 * deta);
        ex * ex + ey * ey
    }

    // The error of a row, in pixels.
    pub fn error(self, row: Row) -> f64
        ensures { result ≡ error_of self row }
    {
        root::root(self.square(row))
    }
}

// Writes the six numbers of a CD into the front of a list that has the room.
pub fn put_cd(out: &mut [f64], m: Cd) -> Result<(), Refusal>
    ensures answer { result ≡ room_for 6 (length out.old) }
    ensures after { out.new ≡ lent_after (room_for 6 (length out.old)) (cd_numbers m) out.old }
{
    if out.len() < 6 {
        return Err(Refusal::Room);
    }
    out[0] = m.cd1_1;
    out[1] = m.cd1_2;
    out[2] = m.xi0;
    out[3] = m.cd2_1;
    out[4] = m.cd2_2;
    out[5] = m.eta0;
    Ok(())
}

// Whether no list has more than 100 places.
pub fn few_masked(px: &[f64], py: &[f64], xi: &[f64], eta: &[f64], mask: &[u8]) -> bool
    ensures { result ≡ few_masked (rows px.now py.now xi.now eta.now) mask.now }
{
    rows::few_rows(px, py, xi, eta) & (mask.len() <= MOST_ROWS)
}

// Whether the lists are of one length.
pub fn even_masked(px: &[f64], py: &[f64], xi: &[f64], eta: &[f64], mask: &[u8]) -> bool
    ensures { result ≡ even_masked (rows px.now py.now xi.now eta.now) mask.now }
{
    rows::even_rows(px, py, xi, eta) & (mask.len() == px.len())
}

// Whether every number is a position, and every byte 0 or 1.
pub fn good_masked(px: &[f64], py: &[f64], xi: &[f64], eta: &[f64], mask: &[u8]) -> bool
    ensures { result ≡ good_masked (rows px.now py.now xi.now eta.now) mask.now }
{
    rows::position_rows(px, py, xi, eta) & domain::all_mask_bytes(mask)
}

// The error of a row that is on; +0.0 for one that is off.
pub fn error_if(on: bool, v: Inverse, row: Row) -> f64
    ensures { result ≡ cond on (error_of v row) nothing }
{
    if on { v.error(row) } else { 0.0 }
}

// Writes the errors of all rows from the front of a list that has the room.
pub fn put_errors(
    px: &[f64],
    py: &[f64],
    xi: &[f64],
    eta: &[f64],
    mask: &[u8],
    v: Inverse,
    errors: &mut [f64],
)
    requires fact_1 { length py.now ≡ length px.now }
    requires fact_2 { length xi.now ≡ length px.now }
    requires fact_3 { length eta.now ≡ length px.now }
    requires fact_4 { length mask.now ≡ length px.now }
    requires fact_5 { length px.now ≤ length errors.old }
    ensures { errors.new ≡ written
        (errors_of (rows px.now py.now xi.now eta.now) mask.now v)
        errors.old }
{
    for i in 0..px.len() {
        errors[i] = error_if(mask[i] == 1, v, rows::row_at(px, py, xi, eta, i));
    }
}
