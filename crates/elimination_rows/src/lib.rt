// One column of an elimination on a flat matrix, n rows and w numbers to a row: the search for its pivot, the swap, and each row below less a multiple of the pivot's.
#![tactic(auto)]

ghost use Rattle.std.specs.Prelude.{◌≡◌, ◌+◌, ◌*◌, ◌-◌, ◌<◌, ◌≤◌, length, get_or, set, take, drop};
ghost use Rattle.std.specs.Float.{nan};
ghost use Rattle.floats.specs.Magnitude.{magnitude_of};
ghost use Rattle.elimination_rows.specs.Matrix.{cells, pivot_of, swapped, reduced};
ghost use Rattle.elimination_rows.specs.Holds.{Holds};
ghost use Rattle.elimination_rows.specs.Steps.{Less, row_reduced};

// The row of a pivot, and its magnitude.
#[derive(Clone, Copy)]
pub struct Pivot {
    pub row: usize,
    pub size: f64,
}

// The number in row r and column c.
pub fn cell_at(m: &[f64], w: usize, r: usize, c: usize) -> f64
    requires { r * w + c < length m.now }
    ensures { result ≡ cells m.now w r c }
{
    m[r * w + c]
}

// The first row, from col on, whose number in that column has the greatest magnitude.
pub fn pivot_row(m: &[f64], n: usize, w: usize, col: usize) -> Pivot
    requires m_len { length m.now ≡ n * w }
    requires col_lt_n { (col < n) × (col < w) }
    ensures { (result.row ≡ pivot_of (cells m.now w) n col) × (result.size ≡ magnitude_of (cells m.now w result.row col)) × (result.row < n) }
{
    let mut row = col;
    let mut size = floats::magnitude(cell_at(m, w, col, col));
    for r in col + 1..n {
        let v = floats::magnitude(cell_at(m, w, r, col));
        if v > size {
            row = r;
            size = v;
        }
    }
    Pivot { row, size }
}

// Rows a and b change places.
fn swap_rows(m: &mut [f64], n: usize, w: usize, a: usize, b: usize)
    requires m_len { length m.old ≡ n * w }
    requires a_lt_n { (a < n) × (b < n) }
    ensures { Holds m.new n w (swapped (cells m.old w) a b) }
{
    let i = a * w;
    let j = b * w;
    for k in 0..w {
        m.swap(i + k, j + k);
    }
}

// The same, and nothing to do where a row is its own pivot.
pub fn bring_up(m: &mut [f64], n: usize, w: usize, col: usize, row: usize)
    requires m_len { length m.old ≡ n * w }
    requires col_lt_n { (col < n) × (row < n) }
    ensures { Holds m.new n w (swapped (cells m.old w) col row) }
{
    if row == col {
        return;
    }
    swap_rows(m, n, w, col, row);
}

// A list copied into another of its length.
pub fn copy_row(to: &mut [f64], from: &[f64])
    requires { length to.old ≡ length from.now }
    ensures { to.new ≡ from.now }
{
    // no `copy_from_slice`: with it an elimination of three rows takes a quarter longer
    for k in 0..from.len() {
        to[k] = from[k];
    }
}

// Takes factor times the pivot's numbers from the row's.
fn subtract(row: &mut [f64], pivot: &[f64], factor: f64)
    requires { length pivot.now ≡ length row.old }
    ensures { Less row.old pivot.now factor row.new }
{
    for k in 0..pivot.len() {
        row[k] = row[k] - factor * pivot[k];
    }
}

// Lends the tail of one row, from column col on, to `subtract`.
fn reduce_row(m: &mut [f64], n: usize, w: usize, row: usize, col: usize, pivot: &[f64], factor: f64)
    requires m_len { length m.old ≡ n * w }
    requires row_lt_n { (row < n) × (col < w) }
    requires pivot_len { length pivot.now ≡ w - col }
    ensures { Holds m.new n w (row_reduced (cells m.old w) row col pivot.now factor) }
{
    let from = row * w + col;
    let end = row * w + w;
    subtract(&mut m[from..end], pivot, factor);
}

// Each row below col less a multiple of row col, whose tail is lent beside.
fn reduce_rows(m: &mut [f64], n: usize, w: usize, col: usize, pivot: &[f64])
    requires m_len { length m.old ≡ n * w }
    requires col_lt_n { (col < n) × (col < w) }
    requires pivot_value { pivot.now ≡ take (w - col) (drop (col * w + col) m.old) }
    ensures { Holds m.new n w (reduced (cells m.old w) col) }
{
    let d = cell_at(m, w, col, col);
    for row in col + 1..n {
        let factor = cell_at(m, w, row, col) / d;
        reduce_row(m, n, w, row, col, pivot, factor);
    }
}

// The same, with the tail of row col copied first.
pub fn clear_below(m: &mut [f64], n: usize, w: usize, col: usize, held: &mut [f64])
    requires m_len { length m.old ≡ n * w }
    requires col_lt_n { (col < n) × (col < w) }
    requires w_in_bounds { w ≤ length held.old }
    ensures { Holds m.new n w (reduced (cells m.old w) col) }
{
    let count = w - col;
    let from = col * w + col;
    let end = from + count;
    copy_row(&mut held[..count], &m[from..end]);
    reduce_rows(m, n, w, col, &held[..count]);
}
