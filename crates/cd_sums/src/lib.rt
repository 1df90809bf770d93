// The sums of a CD fit over the rows that are on, for both axes in one pass.
#![tactic(auto)]

ghost use Rattle.std.specs.Prelude.{◌≡◌, length};
ghost use Rattle.rows.specs.Rows.{rows};
ghost use Rattle.cd_sums.specs.Sums.{xi_of, eta_of, no_rows, with_row, with_weighted, step_if, three_sums, plain_sums, weighted_sums};
ghost use Rattle.cd_sums.specs.Both.{xi_part, eta_part, Both};

use rows::Row;

// Six sums of the matrix, which the axes share; three of the right side of xi; three of that of eta. Sums that
// take one step together stand side by side, so that they are added as one vector.
#[derive(Clone, Copy)]
pub struct Sums {
    pub uu: f64,
    pub uv: f64,
    pub u: f64,
    pub v: f64,
    pub ub: f64,
    pub vb: f64,
    pub uc: f64,
    pub vc: f64,
    pub b: f64,
    pub c: f64,
    pub vv: f64,
    pub one: f64,
}

impl Sums {
    // Of no row.
    fn new() -> Sums
        ensures { Both result no_rows no_rows }
    {
        Sums {
            uu: 0.0,
            uv: 0.0,
            u: 0.0,
            v: 0.0,
            ub: 0.0,
            vb: 0.0,
            uc: 0.0,
            vc: 0.0,
            b: 0.0,
            c: 0.0,
            vv: 0.0,
            one: 0.0,
        }
    }

    // With one row more.
    fn with_row(self, row: Row) -> Sums
        ensures { Both result (with_row xi_of row (xi_part self)) (with_row eta_of row (eta_part self)) }
    {
        let u = row.px;
        let v = row.py;
        let b = row.xi;
        let c = row.eta;
        Sums {
            uu: self.uu + u * u,
            uv: self.uv + u * v,
            u: self.u + u,
            v: self.v + v,
            ub: self.ub + u * b,
            vb: self.vb + v * b,
            uc: self.uc + u * c,
            vc: self.vc + v * c,
            b: self.b + b,
            c: self.c + c,
            vv: self.vv + v * v,
            one: self.one + 1.0,
        }
    }

    // The same for a row that is on.
    fn with_row_if(self, on: bool, row: Row) -> Sums
        ensures { Both result (step_if on (with_row xi_of row) (xi_part self)) (step_if on (with_row eta_of row) (eta_part self)) }
    {
        if on { self.with_row(row) } else { self }
    }

    // With one row of a weight more.
    fn with_weighted(self, w: f64, row: Row) -> Sums
        ensures { Both result (with_weighted xi_of w row (xi_part self)) (with_weighted eta_of w row (eta_part self)) }
    {
        let wu = w * row.px;
        let wv = w * row.py;
        let b = row.xi;
        let c = row.eta;
        Sums {
            uu: self.uu + wu * row.px,
            uv: self.uv + wu * row.py,
            u: self.u + wu,
            v: self.v + wv,
            ub: self.ub + wu * b,
            vb: self.vb + wv * b,
            uc: self.uc + wu * c,
            vc: self.vc + wv * c,
            b: self.b + w * b,
            c: self.c + w * c,
            vv: self.vv + wv * row.py,
            one: self.one + w,
        }
    }

    // The same for a row that is on.
    fn with_weighted_if(self, on: bool, w: f64, row: Row) -> Sums
        ensures { Both result (step_if on (with_weighted xi_of w row) (xi_part self)) (step_if on (with_weighted eta_of w row) (eta_part self)) }
    {
        if on { self.with_weighted(w, row) } else { self }
    }
}

// The sums of the rows that are on.
pub fn sum_rows(px: &[f64], py: &[f64], xi: &[f64], eta: &[f64], mask: &[u8]) -> Sums
    requires fact_1 { length py.now ≡ length px.now }
    requires fact_2 { length xi.now ≡ length px.now }
    requires fact_3 { length eta.now ≡ length px.now }
    requires fact_4 { length mask.now ≡ length px.now }
    ensures { Both result
        (plain_sums (rows px.now py.now xi.now eta.now) mask.now xi_of (length px.now))
        (plain_sums (rows px.now py.now xi.now eta.now) mask.now eta_of (length px.now)) }
{
    let mut s = Sums::new();
    for i in 0..px.len() {
        s = s.with_row_if(mask[i] == 1, rows::row_at(px, py, xi, eta, i));
    }
    s
}

// The sums of three rows.
pub fn sum_three(p: Row, q: Row, r: Row) -> Sums
    ensures { Both result (three_sums xi_of p q r) (three_sums eta_of p q r) }
{
    Sums::new().with_row(p).with_row(q).with_row(r)
}

// The weighted sums of the rows that are on.
pub fn sum_weighted(
    px: &[f64],
    py: &[f64],
    xi: &[f64],
    eta: &[f64],
    mask: &[u8],
    weights: &[f64],
) -> Sums
    requires fact_1 { length py.now ≡ length px.now }
    requires fact_2 { length xi.now ≡ length px.now }
    requires fact_3 { length eta.now ≡ length px.now }
    requires fact_4 { length mask.now ≡ length px.now }
    requires fact_5 { length weights.now ≡ length px.now }
    ensures { Both result
        (weighted_sums (rows px.now py.now xi.now eta.now) mask.now weights.now xi_of (length px.now))
        (weighted_sums (rows px.now py.now xi.now eta.now) mask.now weights.now eta_of (length px.now)) }
{
    let mut s = Sums::new();
    for i in 0..px.len() {
        s = s.with_weighted_if(mask[i] == 1, weights[i], rows::row_at(px, py, xi, eta, i));
    }
    s
}
