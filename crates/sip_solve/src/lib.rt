// Both solves of a SIP fit over the rows that are on: one elimination with two right sides, and the coefficients that are kept.
#![tactic(auto)]

ghost use Rattle.std.specs.Prelude.{◌≡◌, ◌+◌, ◌*◌, ◌≤◌, ◌<◌, length, replicate};
ghost use Rattle.cd_plate.specs.Plate.{nothing};
ghost use Rattle.elimination_rows.specs.Matrix.{cells};
ghost use Rattle.elimination.specs.Elimination.{unknowns};
ghost use Rattle.sip_sums.specs.Steps.{sums_in};
ghost use Rattle.sip_solve.specs.Solve.{kept_all, coefficients_as};
ghost use Rattle.sip_solve.specs.Steps.{both_sides, solve_in};

use answer::Refusal;

// The numbers of a matrix with the most terms.
const MOST_NUMBERS: usize = 360;

// Each coefficient as it is handed out.
fn keep_all(x: &mut [f64])
    ensures { x.new ≡ kept_all x.old }
{
    for c in x {
        *c = sip_terms::keep(*c);
    }
}

// The coefficients of the right side in column b of a reduced matrix.
fn put_coefficients(m: &[f64], n: usize, w: usize, b: usize, x: &mut [f64])
    requires m_len { length m.now ≡ n * w }
    requires n_le_w { (n ≤ w) × (b < w) }
    requires x_len { length x.old ≡ n }
    ensures { x.new ≡ kept_all (unknowns (cells m.now w) n b) }
{
    elimination::unknowns(m, n, w, b, x);
    keep_all(x);
}

// Both axes in n terms, by way of a lent matrix of zeros.
fn solve_in(
    lines: &[f64],
    snr: &[f64],
    mask: &[u8],
    n: usize,
    m: &mut [f64],
    a: &mut [f64],
    b: &mut [f64],
) -> Result<(), Refusal>
    requires mask_len_1 { length mask.now ≡ length snr.now }
    requires mask_len_2 { length lines.now ≡ length snr.now * (n + 2) }
    requires n_bound { n ≤ 18 }
    requires m_value { m.old ≡ replicate (n * (n + 2)) nothing }
    requires a_len_1 { length a.old ≡ n }
    requires a_len_2 { length b.old ≡ n }
    ensures { coefficients_as result a.new b.new ≡ both_sides
        (sums_in (cells lines.now (n + 2)) snr.now mask.now (length snr.now)) n }
{
    let w = n + 2;
    sip_sums::put_sums(lines, snr, mask, n, m);
    match elimination::eliminate(m, n, w) {
        Err(_) => Err(Refusal::Degenerate),
        Ok(()) => {
            put_coefficients(m, n, w, n, a);
            put_coefficients(m, n, w, n + 1, b);
            Ok(())
        }
    }
}

// Both axes in n terms, from the lines of the rows: refusal 6 for fewer rows on than terms, 8 for a degenerate system.
pub fn solve_both(
    lines: &[f64],
    snr: &[f64],
    mask: &[u8],
    n: usize,
    a: &mut [f64],
    b: &mut [f64],
) -> Result<(), Refusal>
    requires mask_len_1 { length mask.now ≡ length snr.now }
    requires mask_len_2 { length lines.now ≡ length snr.now * (n + 2) }
    requires n_bound { n ≤ 18 }
    requires a_len_1 { length a.old ≡ n }
    requires a_len_2 { length b.old ≡ n }
    ensures { coefficients_as result a.new b.new ≡ solve_in (cells lines.now (n + 2)) snr.now mask.now n }
{
    if cd_mask::count_on(mask) < n {
        return Err(Refusal::Rows);
    }
    let size = n * (n + 2);
    let mut m = [0.0; MOST_NUMBERS];
    solve_in(lines, snr, mask, n, &mut m[..size], a, b)
}
