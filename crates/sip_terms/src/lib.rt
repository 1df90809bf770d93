// The terms of a SIP polynomial, u^p v^q of total degree 2 up to the order, the power of u falling; and which coefficients are kept.
#![tactic(auto)]

ghost use Rattle.std.specs.Prelude.{◌≡◌, ◌+◌, ◌<◌, ◌≤◌, length};
ghost use Rattle.answer.specs.Answers.{written};
ghost use Rattle.cd_plate.specs.Filled.{filled};
ghost use Rattle.sip_terms.specs.Terms.{first_term, next_term, term_count, is_kept, kept_of};
ghost use Rattle.sip_terms.specs.Steps.{powers_of, basis_in};
ghost use Rattle.sip_terms.specs.Sums.{sums_of};

// What a fit hands back beside its coefficients.
#[derive(Clone, Copy)]
pub struct Sip {
    pub rows_used: usize,
    pub linear_rms: f64,
    pub rms: f64,
    pub wrms: f64,
}

impl Sip {
    // The orders that are fitted.
    pub const LEAST_ORDER: u32 = 2;

    pub const MOST_ORDER: u32 = 5;
    // A fit needs so many rows, whatever its terms.
    pub const LEAST_ROWS: usize = 6;
    // The most rounds, each with a clip.
    pub const ROUNDS: usize = 10;
    // A clip turns off what is past this many times the root of the mean weighted square.
    pub const FACTOR: f64 = 2.5;
    // A coefficient is kept above this.
    pub const LEAST_COEFFICIENT: f64 = 1e-20;

    // By its numbers. What every fit hands back is made here.
    pub fn new(rows_used: usize, linear_rms: f64, rms: f64, wrms: f64) -> Sip
        ensures { result ≡ record { rows_used = rows_used; linear_rms = linear_rms; rms = rms; wrms = wrms } }
    {
        Sip {
            rows_used,
            linear_rms,
            rms,
            wrms,
        }
    }
}

// The numbers of a fit into what is lent.
pub fn put_sip(s: Sip, rows_used: &mut u64, sums: &mut [f64])
    requires { 3 ≤ length sums.old }
    ensures rows { rows_used.new ≡ s.rows_used }
    ensures sums { sums.new ≡ written (sums_of s) sums.old }
{
    *rows_used = s.rows_used as u64;
    sums[0] = s.linear_rms;
    sums[1] = s.rms;
    sums[2] = s.wrms;
}

// How many powers of a number there are, from 0 on.
pub const POWERS: usize = 6;

// The powers of one term: u^p v^q.
#[derive(Clone, Copy)]
pub struct Term {
    pub p: usize,
    pub q: usize,
}

impl Term {
    // u^2.
    pub fn first() -> Term
        ensures { result ≡ first_term }
    {
        Term { p: 2, q: 0 }
    }

    // The one after it.
    pub fn next(self) -> Term
        requires { self.p + self.q < 100 }
        ensures { result ≡ next_term self }
    {
        if self.p == 0 {
            return Term {
                p: self.q + 1,
                q: 0,
            };
        }
        Term {
            p: self.p - 1,
            q: self.q + 1,
        }
    }
}

// How many terms an order has: total + 1 of each total degree.
pub fn term_count(order: u32) -> usize
    requires { (2 ≤ order) × (order ≤ 9) }
    ensures { result ≡ term_count order }
{
    let mut n = 0usize;
    for total in 2..=order as usize {
        n += total + 1;
    }
    n
}

// The powers 0 to 5 of x, each from the one before.
pub fn put_powers(x: f64, out: &mut [f64])
    requires { length out.old ≡ 6 }
    ensures { out.new ≡ powers_of x }
{
    let mut r = 1.0;
    for power in out {
        *power = r;
        r = r * x;
    }
}

// u^p v^q of each term, from the powers of u and v.
#[tactic(auto, using(crate::proofs::Places::low_term))]
pub fn put_basis(up: &[f64], vp: &[f64], out: &mut [f64])
    requires up_len { (length up.now ≡ 6) × (length vp.now ≡ 6) }
    requires out_len_bound { length out.old ≤ 18 }
    ensures { out.new ≡ filled (basis_in up.now vp.now) (length out.old) }
{
    let mut t = Term::first();
    for number in out {
        let p = t.p;
        let q = t.q;
        *number = up[p] * vp[q];
        t = t.next();
    }
}

// Whether a coefficient is kept; NaN is not.
pub fn is_kept(c: f64) -> bool
    ensures { result ≡ is_kept c }
{
    floats::magnitude(c) > Sip::LEAST_COEFFICIENT
}

// A coefficient as it is handed out: 0.0 where it is dropped.
pub fn keep(c: f64) -> f64
    ensures { result ≡ kept_of c }
{
    if is_kept(c) { c } else { 0.0 }
}
