// Elimination with partial pivoting on a flat matrix: n rows, w numbers to a row, the right sides in the columns from n on.
#![tactic(auto)]

ghost use Rattle.std.specs.Prelude.{◌≡◌, ◌+◌, ◌*◌, ◌<◌, ◌≤◌, length};
ghost use Rattle.elimination_rows.specs.Matrix.{cells};
ghost use Rattle.elimination.specs.Elimination.{eliminated, row_less, unknowns};
ghost use Rattle.elimination.specs.Agrees.{Agrees};
ghost use Rattle.elimination.specs.Steps.{Cleared};

// A pivot is above this.
pub const LEAST_PIVOT: f64 = 1e-30;

// The longest row.
pub const MOST_COLUMNS: usize = 64;

// The column at which an elimination stopped: it has no pivot above the least.
#[derive(Clone, Copy)]
pub struct NoPivot {
    pub col: usize,
}

// One column. False: no pivot above the least.
fn clear_column(m: &mut [f64], n: usize, w: usize, col: usize, held: &mut [f64]) -> bool
    requires m_len { length m.old ≡ n * w }
    requires col_lt_n { (col < n) × (n ≤ w) }
    requires w_in_bounds { w ≤ length held.old }
    ensures { Cleared (cells m.old w) n w col result m.new }
{
    let pivot = elimination_rows::pivot_row(m, n, w, col);
    let row = pivot.row;
    if !(pivot.size > LEAST_PIVOT) {
        return false;
    }
    elimination_rows::bring_up(m, n, w, col, row);
    elimination_rows::clear_below(m, n, w, col, held);
    true
}

// Reduces the matrix, one column after the other, or stops at the first that has no pivot above the least. The pivot's row is held in what is lent for it.
pub fn eliminate_in(m: &mut [f64], n: usize, w: usize, held: &mut [f64]) -> Result<(), NoPivot>
    requires m_len { length m.old ≡ n * w }
    requires n_le_w { n ≤ w }
    requires w_in_bounds { w ≤ length held.old }
    ensures { Agrees (eliminated (cells m.old w) n) result m.new n w }
{
    for col in 0..n {
        if !clear_column(m, n, w, col, held) {
            return Err(NoPivot { col });
        }
    }
    Ok(())
}

// The same, with a row of its own for the pivot's.
pub fn eliminate(m: &mut [f64], n: usize, w: usize) -> Result<(), NoPivot>
    requires m_len { length m.old ≡ n * w }
    requires n_le_w { (n ≤ w) × (w ≤ 64) }
    ensures { Agrees (eliminated (cells m.old w) n) result m.new n w }
{
    let mut held = [0.0; MOST_COLUMNS];
    eliminate_in(m, n, w, &mut held)
}

// What is left of row i's number in column b once the unknowns behind it are taken away.
fn row_rest(m: &[f64], w: usize, i: usize, b: usize, x: &[f64]) -> f64
    requires x_bound { (i + 1 + length x.now ≤ w) × (b < w) }
    requires w_in_bounds { i * w + w ≤ length m.now }
    ensures { result ≡ row_less (cells m.now w) i (i + 1) x.now (cells m.now w i b) }
{
    let mut sum = elimination_rows::cell_at(m, w, i, b);
    for (k, unknown) in x.iter().enumerate() {
        sum -= elimination_rows::cell_at(m, w, i, i + 1 + k) * unknown;
    }
    sum
}

// The unknowns of a reduced matrix for the right side in column b, the last first.
pub fn unknowns(m: &[f64], n: usize, w: usize, b: usize, x: &mut [f64])
    requires m_len { length m.now ≡ n * w }
    requires n_le_w { (n ≤ w) × (b < w) }
    requires x_len { length x.old ≡ n }
    ensures { x.new ≡ unknowns (cells m.now w) n b }
{
    for i in (0..n).rev() {
        let s = row_rest(m, w, i, b, &x[i + 1..n]);
        x[i] = s / elimination_rows::cell_at(m, w, i, i);
    }
}
