// The rows of a SIP fit, and the sums of its normal equations over the rows that are on, for both axes in one pass.
#![tactic(auto)]

ghost use Rattle.std.specs.Prelude.{◌≡◌, ◌+◌, ◌*◌, ◌≤◌, ◌<◌, length, replicate};
ghost use Rattle.rows.specs.Rows.{rows};
ghost use Rattle.cd_plate.specs.Plate.{nothing};
ghost use Rattle.cd_plate.specs.Filled.{filled};
ghost use Rattle.elimination_rows.specs.Matrix.{cells};
ghost use Rattle.elimination_rows.specs.Holds.{Holds};
ghost use Rattle.sip_sums.specs.Field.{offset_of, offset_at};
ghost use Rattle.sip_sums.specs.Steps.{line_at, More, with_line, with_line_if, Lines, sums_in};

use rows::Row;
use wcs::Wcs;

// A row as the fit takes it: its pixel from the reference pixel, and what it is away from its ideal place.
#[derive(Clone, Copy)]
pub struct Offset {
    pub u: f64,
    pub v: f64,
    pub du: f64,
    pub dv: f64,
}

// One row, seen from the reference pixel. A factor is negated before it is multiplied.
fn offset_of(wcs: Wcs, row: Row) -> Offset
    ensures { result ≡ offset_of wcs row }
{
    let det = wcs.plate().determinant();
    let x = (wcs.cd2_2 * row.xi - wcs.cd1_2 * row.eta) / det + wcs.crpix1;
    let y = (-wcs.cd2_1 * row.xi + wcs.cd1_1 * row.eta) / det + wcs.crpix2;
    Offset {
        u: row.px - wcs.crpix1,
        v: row.py - wcs.crpix2,
        du: row.px - x,
        dv: row.py - y,
    }
}

// The row at a place of the lists.
pub fn offset_at(px: &[f64], py: &[f64], xi: &[f64], eta: &[f64], wcs: Wcs, k: usize) -> Offset
    requires fact_1 { k < length px.now }
    requires fact_2 { k < length py.now }
    requires fact_3 { k < length xi.now }
    requires fact_4 { k < length eta.now }
    ensures { result ≡ offset_at (rows px.now py.now xi.now eta.now) wcs k }
{
    offset_of(wcs, rows::row_at(px, py, xi, eta, k))
}

// A row's line of the equations: the basis of each term, and then what is fitted on either axis.
fn put_line(o: Offset, n: usize, line: &mut [f64])
    requires n_bound { n ≤ 18 }
    requires line_len { length line.old ≡ n + 2 }
    ensures { line.new ≡ filled (line_at n o) (n + 2) }
{
    let mut up = [0.0; sip_terms::POWERS];
    let mut vp = [0.0; sip_terms::POWERS];
    sip_terms::put_powers(o.u, &mut up);
    sip_terms::put_powers(o.v, &mut vp);
    sip_terms::put_basis(&up, &vp, &mut line[..n]);
    line[n] = o.du;
    line[n + 1] = o.dv;
}

// Adds factor times the line's numbers to the row's.
fn add_scaled(row: &mut [f64], line: &[f64], factor: f64)
    requires { length line.now ≡ length row.old }
    ensures { More row.old line.now factor row.new }
{
    for k in 0..line.len() {
        row[k] = row[k] + factor * line[k];
    }
}

// Adds a line of some weight to the equations: w * line[i] * line[j], from left to right.
fn add_line(m: &mut [f64], n: usize, w: usize, weight: f64, line: &[f64])
    requires m_len { length m.old ≡ n * w }
    requires n_le_w { (n ≤ w) × (w ≤ 20) }
    requires line_len { length line.now ≡ w }
    ensures { Holds m.new n w (with_line (cells m.old w) weight line.now) }
{
    for i in 0..n {
        let from = i * w;
        let end = from + w;
        let factor = weight * line[i];
        add_scaled(&mut m[from..end], line, factor);
    }
}

// The same for a row that is on.
fn add_if(on: bool, weight: f64, line: &[f64], n: usize, m: &mut [f64])
    requires n_bound { n ≤ 18 }
    requires line_len { length line.now ≡ n + 2 }
    requires m_len { length m.old ≡ n * (n + 2) }
    ensures { Holds m.new n (n + 2) (with_line_if on (cells m.old (n + 2)) weight line.now) }
{
    if !on {
        return;
    }
    let w = n + 2;
    add_line(m, n, w, weight, line);
}

// The lines of all rows, which no round changes.
pub fn put_lines(
    px: &[f64],
    py: &[f64],
    xi: &[f64],
    eta: &[f64],
    wcs: Wcs,
    n: usize,
    lines: &mut [f64],
)
    requires py_len_1 { length py.now ≡ length px.now }
    requires py_len_2 { length xi.now ≡ length px.now }
    requires py_len_3 { length eta.now ≡ length px.now }
    requires n_bound { n ≤ 18 }
    requires lines_len { length lines.old ≡ length px.now * (n + 2) }
    ensures { Lines (rows px.now py.now xi.now eta.now) wcs n lines.new }
{
    let w = n + 2;
    for k in 0..px.len() {
        let from = k * w;
        let end = from + w;
        let o = offset_at(px, py, xi, eta, wcs, k);
        put_line(o, n, &mut lines[from..end]);
    }
}

// The normal equations of n terms over the lines of the rows that are on, both right sides last, into a matrix of zeros.
pub fn put_sums(lines: &[f64], snr: &[f64], mask: &[u8], n: usize, m: &mut [f64])
    requires mask_len_1 { length mask.now ≡ length snr.now }
    requires mask_len_2 { length lines.now ≡ length snr.now * (n + 2) }
    requires n_bound { n ≤ 18 }
    requires m_value { m.old ≡ replicate (n * (n + 2)) nothing }
    ensures { Holds m.new n (n + 2)
        (sums_in (cells lines.now (n + 2)) snr.now mask.now (length snr.now)) }
{
    let w = n + 2;
    for k in 0..snr.len() {
        let from = k * w;
        let end = from + w;
        let s = snr[k];
        add_if(mask[k] == 1, s * s, &lines[from..end], n, m);
    }
}
