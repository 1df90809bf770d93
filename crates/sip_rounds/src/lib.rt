// The rounds of a SIP fit: both solves, the errors and a clip, until a clip turns no row off.
#![tactic(auto)]

ghost use Rattle.std.specs.Prelude.{◌≡◌, ◌≤◌, length};
ghost use Rattle.rows.specs.Rows.{rows};
ghost use Rattle.sip_sums.specs.Field.{field};
ghost use Rattle.sip_sums.specs.Steps.{Lines};
ghost use Rattle.sip_solve.specs.Solve.{solve_of, coefficients_as};
ghost use Rattle.sip_values.specs.Values.{Powers};
ghost use Rattle.sip_clip.specs.Clip.{errors_of, roots_of};
ghost use Rattle.sip_rounds.specs.Rounds.{ended_as, rounds_from};

use answer::Refusal;
use sip_terms::Sip;
use wcs::Wcs;

// Both solves over the rows that are on; and their errors, where there are coefficients.
fn solve_errors(
    px: &[f64],
    py: &[f64],
    xi: &[f64],
    eta: &[f64],
    snr: &[f64],
    wcs: Wcs,
    lines: &[f64],
    up: &[f64],
    vp: &[f64],
    n: usize,
    mask: &[u8],
    errors: &mut [f64],
    a: &mut [f64],
    b: &mut [f64],
) -> Result<(), Refusal>
    requires py_len_1 { length py.now ≡ length px.now }
    requires py_len_2 { length xi.now ≡ length px.now }
    requires py_len_3 { length eta.now ≡ length px.now }
    requires py_len_4 { length snr.now ≡ length px.now }
    requires py_len_5 { length mask.now ≡ length px.now }
    requires errors_len_1 { length errors.old ≡ length px.now }
    requires errors_len_2 { n ≤ 18 }
    requires errors_len_3 { length a.old ≡ n }
    requires errors_len_4 { length b.old ≡ n }
    requires errors_len_5 { length px.now ≤ 100 }
    requires powers { Powers (rows px.now py.now xi.now eta.now) wcs up.now vp.now }
    requires lines { Lines (rows px.now py.now xi.now eta.now) wcs n lines.now }
    ensures solved { coefficients_as result a.new b.new ≡ solve_of
        (field (rows px.now py.now xi.now eta.now) snr.now wcs) mask.now n }
    ensures errors { result ≡ Ok tt → errors.new ≡ errors_of
        (rows px.now py.now xi.now eta.now) wcs mask.now a.new b.new }
{
    sip_solve::solve_both(lines, snr, mask, n, a, b)?;
    sip_clip::put_errors(px, py, xi, eta, wcs, mask, up, vp, a, b, errors);
    Ok(())
}

// At most ten rounds; after ten that each turned rows off one more solve of both, and no clip.
pub fn fit_rounds(
    px: &[f64],
    py: &[f64],
    xi: &[f64],
    eta: &[f64],
    snr: &[f64],
    wcs: Wcs,
    lines: &[f64],
    up: &[f64],
    vp: &[f64],
    n: usize,
    roots: &[f64],
    mask: &mut [u8],
    errors: &mut [f64],
    a: &mut [f64],
    b: &mut [f64],
) -> Result<(), Refusal>
    requires py_len_1 { length py.now ≡ length px.now }
    requires py_len_2 { length xi.now ≡ length px.now }
    requires py_len_3 { length eta.now ≡ length px.now }
    requires py_len_4 { length snr.now ≡ length px.now }
    requires py_len_5 { length mask.old ≡ length px.now }
    requires errors_len_1 { length errors.old ≡ length px.now }
    requires errors_len_2 { n ≤ 18 }
    requires errors_len_3 { length a.old ≡ n }
    requires errors_len_4 { length b.old ≡ n }
    requires errors_len_5 { length px.now ≤ 100 }
    requires roots_value { roots.now ≡ roots_of snr.now }
    requires powers { Powers (rows px.now py.now xi.now eta.now) wcs up.now vp.now }
    requires lines { Lines (rows px.now py.now xi.now eta.now) wcs n lines.now }
    ensures ended { ended_as result mask.new a.new b.new ≡ rounds_from
        (field (rows px.now py.now xi.now eta.now) snr.now wcs) n 10 mask.old }
    ensures errors { result ≡ Ok tt → errors.new ≡ errors_of
        (rows px.now py.now xi.now eta.now) wcs mask.new a.new b.new }
{
    for round in 0..Sip::ROUNDS {
        let r = solve_errors(
            px, py, xi, eta, snr, wcs, lines, up, vp, n, mask, errors, a, b,
        );
        // in full, and no `?`: a wrong program changes this answer alone
        if let Err(why) = r {
            return Err(why);
        }
        if sip_clip::clip(snr, roots, errors, mask) == 0 {
            return Ok(());
        }
    }
    solve_errors(
        px, py, xi, eta, snr, wcs, lines, up, vp, n, mask, errors, a, b,
    )
}
