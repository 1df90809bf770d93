// `fit_sip` for C: it answers its number, and writes its result into what is lent.
#![tactic(auto)]

ghost use Rattle.std.specs.Prelude.{◌≡◌, ◌≤◌, length};
ghost use Rattle.answer.specs.Answers.{answer_number, lent_after, number_after};
ghost use Rattle.rows.specs.Rows.{rows};
ghost use Rattle.wcs.specs.Wcs.{wcs_in};
ghost use Rattle.sip_sums.specs.Field.{field};
ghost use Rattle.sip.specs.Call.{answer_of, sip_answer, sip_a, sip_b};
ghost use Rattle.sip_face.specs.Face.{used_in, sums_in, sip_told, sip_face};

use answer::Refusal;
use sip_terms::Sip;
use wcs::Wcs;

// The longest list of snr.
const MOST_ROWS: usize = 100;

// The three sums.
const SUMS: usize = 3;

// A fit into what is lent, where there is room.
fn put_fit(fit: Result<Sip, Refusal>, rows_used: &mut u64, sums: &mut [f64]) -> u32
    requires { 3 ≤ length sums.old }
    ensures number { result ≡ answer_number (answer_of fit) }
    ensures rows { rows_used.new ≡ number_after (answer_of fit) (used_in fit) rows_used.old }
    ensures sums { sums.new ≡ lent_after (answer_of fit) (sums_in fit) sums.old }
{
    match fit {
        Err(why) => why.number(),
        Ok(s) => {
            sip_terms::put_sip(s, rows_used, sums);
            0
        }
    }
}

// The call without room for its sums is the one without room for a: refused before anything is written.
fn fit_roomless(
    px: &[f64],
    py: &[f64],
    xi: &[f64],
    eta: &[f64],
    snr: &[f64],
    wcs: Wcs,
    order: u32,
    a: &mut [f64],
    b: &mut [f64],
) -> u32
    ensures number { result ≡ answer_number (answer_of (sip_answer (field (rows px.now py.now xi.now eta.now) snr.now wcs) order 0 (length b.old))) }
    ensures a { a.new ≡ a.old }
    ensures b { b.new ≡ b.old }
{
    answer::number(sip::fit_sip(px, py, xi, eta, snr, wcs, order, &mut a[..0], b))
}

// Fits the A and B polynomials of an order under a WCS of six numbers; rows_used, and the sums
// linear_rms, rms and wrms.
pub fn fit_sip(
    px: &[f64],
    py: &[f64],
    xi: &[f64],
    eta: &[f64],
    snr: &[f64],
    wcs: &[f64],
    order: u32,
    a: &mut [f64],
    b: &mut [f64],
    rows_used: &mut u64,
    sums: &mut [f64],
) -> u32
    ensures number { result ≡ answer_number (sip_face (rows px.now py.now xi.now eta.now) snr.now wcs.now order
        (length a.old) (length b.old) (length sums.old)) }
    ensures a { a.new ≡ lent_after (sip_face (rows px.now py.now xi.now eta.now) snr.now wcs.now order
        (length a.old) (length b.old) (length sums.old))
        (sip_a (field (rows px.now py.now xi.now eta.now) snr.now (wcs_in wcs.now)) order) a.old }
    ensures b { b.new ≡ lent_after (sip_face (rows px.now py.now xi.now eta.now) snr.now wcs.now order
        (length a.old) (length b.old) (length sums.old))
        (sip_b (field (rows px.now py.now xi.now eta.now) snr.now (wcs_in wcs.now)) order) b.old }
    ensures rows { rows_used.new ≡ number_after (sip_face (rows px.now py.now xi.now eta.now) snr.now wcs.now order
        (length a.old) (length b.old) (length sums.old))
        (used_in (sip_told (field (rows px.now py.now xi.now eta.now) snr.now (wcs_in wcs.now)) order
        (length a.old) (length b.old) (length sums.old))) rows_used.old }
    ensures sums { sums.new ≡ lent_after (sip_face (rows px.now py.now xi.now eta.now) snr.now wcs.now order
        (length a.old) (length b.old) (length sums.old))
        (sums_in (sip_told (field (rows px.now py.now xi.now eta.now) snr.now (wcs_in wcs.now)) order
        (length a.old) (length b.old) (length sums.old))) sums.old }
{
    if wcs.len() != 6 {
        if rows::few_rows(px, py, xi, eta) & (snr.len() <= MOST_ROWS) {
            return Refusal::Lengths.number();
        }
        return Refusal::Count.number();
    }
    let w = Wcs::of(wcs);
    if sums.len() < SUMS {
        return fit_roomless(px, py, xi, eta, snr, w, order, a, b);
    }
    let fit = sip::fit_sip(px, py, xi, eta, snr, w, order, a, b);
    put_fit(fit, rows_used, sums)
}
