// Which rows are near: those whose error under a CD plate is at most a limit, told by the squared error.
#![tactic(auto)]

ghost use Rattle.std.specs.Prelude.{◌≡◌, true, false, ◌+◌, ◌≤◌, ◌<◌, length};
ghost use Rattle.std.specs.Float.Ieee.{le};
ghost use Rattle.answer.specs.Answers.{written};
ghost use Rattle.domain.specs.Domain.{is_limit};
ghost use Rattle.rows.specs.Rows.{rows};
ghost use Rattle.cd_plate.specs.Plate.{error_of};
ghost use Rattle.cd_mask.specs.Marks.{byte_of};
ghost use Rattle.cd_near.specs.Reach.{infinity, is_within, IsLast, IsReach};
ghost use Rattle.cd_near.specs.Near.{near_marks, near_count};

use cd_plate::{Cd, Inverse};
use rows::Row;

// The pattern of the infinity.
const INFINITY: u64 = 0x7ff0_0000_0000_0000;

// Whether the root of the value of a pattern is at most the limit.
fn is_within(limit: f64, bits: u64) -> bool
    requires { bits ≤ infinity }
    ensures { result ≡ is_within limit bits }
{
    root::root(f64::from_bits(bits)) <= limit
}

// The pattern of the limit's square, where the search starts; any below the infinity's would do.
fn start_bits(limit: f64) -> u64
    ensures { result + 3 < infinity }
{
    let square = limit * limit;
    if square < 1e308 {
        let bits = f64::to_bits(square);
        if bits < INFINITY - 3 {
            return bits;
        }
    }
    INFINITY - 4
}

// A pattern within the limit: the given one, or that of zero.
fn low_bits(limit: f64, bits: u64) -> u64
    requires fact_1 { is_limit limit ≡ true }
    requires fact_2 { bits ≤ infinity }
    ensures { (result ≤ bits) × (is_within limit result ≡ true) }
{
    if is_within(limit, bits) {
        return bits;
    }
    0
}

// A pattern past the limit: the given one, or that of the infinity.
fn high_bits(limit: f64, bits: u64) -> u64
    requires fact_1 { is_limit limit ≡ true }
    requires fact_2 { bits ≤ infinity }
    ensures { (bits ≤ result) × (result ≤ infinity) × (is_within limit result ≡ false) }
{
    if is_within(limit, bits) {
        return INFINITY;
    }
    bits
}

// The greatest f64 whose root is at most the limit, between a pattern within it and one past it.
fn last_within(limit: f64, low: u64, high: u64) -> f64
    requires fact_1 { low < high }
    requires fact_2 { high ≤ infinity }
    requires fact_3 { is_within limit low ≡ true }
    requires fact_4 { is_within limit high ≡ false }
    ensures { IsLast limit result }
{
    let mut within = low;
    let mut past = high;
    // a `while`, since it halves what lies between the two
    while past - within > 1 {
        let middle = within + (past - within) / 2;
        if is_within(limit, middle) {
            within = middle;
        } else {
            past = middle;
        }
    }
    f64::from_bits(within)
}

// A limit of errors, and the greatest f64 whose root is at most the limit.
#[derive(Clone, Copy)]
pub struct Reach {
    pub limit: f64,
    pub square: f64,
}

impl Reach {
    // Of a limit: its rounded square is that f64, or one of the two after it, but near the ends of the range.
    pub fn of(limit: f64) -> Reach
        requires { is_limit limit ≡ true }
        ensures { (result.limit ≡ limit) × IsReach result }
    {
        let start = start_bits(limit);
        let low = low_bits(limit, start);
        let high = high_bits(limit, start + 3);
        Reach {
            limit,
            square: last_within(limit, low, high),
        }
    }

    // Whether a row's error is at most the limit, by its square.
    fn is_near(self, v: Inverse, row: Row) -> bool
        requires { IsReach self }
        ensures { result ≡ le (error_of v row) self.limit }
    {
        v.square(row) <= self.square
    }
}

// One of a row that is near, none of another.
fn one_if(near: bool) -> usize
    ensures { result ≡ byte_of near }
{
    if near { 1 } else { 0 }
}

// The same as a byte of a mask.
fn byte_if(near: bool) -> u8
    ensures { result ≡ byte_of near }
{
    if near { 1 } else { 0 }
}

// How many rows are near. The loop has no branch and no root, so that it compiles to vector code.
pub fn count_near(px: &[f64], py: &[f64], xi: &[f64], eta: &[f64], m: Cd, reach: Reach) -> usize
    requires fact_1 { length py.now ≡ length px.now }
    requires fact_2 { length xi.now ≡ length px.now }
    requires fact_3 { length eta.now ≡ length px.now }
    requires fact_4 { IsReach reach }
    ensures { result ≡ near_count (rows px.now py.now xi.now eta.now) reach.limit m }
{
    let v = m.inverse();
    let n = px.len();
    let mut count = 0usize;
    for i in 0..n {
        count += one_if(reach.is_near(v, rows::row_at(px, py, xi, eta, i)));
    }
    count
}

// Writes a byte for each row from the front of a mask that has the room: one where it is near.
pub fn mark_near(
    px: &[f64],
    py: &[f64],
    xi: &[f64],
    eta: &[f64],
    m: Cd,
    reach: Reach,
    mask: &mut [u8],
)
    requires fact_1 { length py.now ≡ length px.now }
    requires fact_2 { length xi.now ≡ length px.now }
    requires fact_3 { length eta.now ≡ length px.now }
    requires fact_4 { length px.now ≤ length mask.old }
    requires fact_5 { IsReach reach }
    ensures { mask.new ≡ written
        (near_marks (rows px.now py.now xi.now eta.now) reach.limit m)
        mask.old }
{
    let v = m.inverse();
    for i in 0..px.len() {
        mask[i] = byte_if(reach.is_near(v, rows::row_at(px, py, xi, eta, i)));
    }
}
