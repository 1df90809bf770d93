// Which numbers the calls take.
#![tactic(auto)]

ghost use Rattle.std.specs.Prelude.{◌≡◌};
ghost use Rattle.domain.specs.Domain.{between, is_position, is_finite, is_snr, is_weight, is_limit, is_mask_byte, every};

const MILLION: f64 = 1048576.0;

const HEAVIEST: f64 = 1099511627776.0;

const GREATEST: f64 = 1.7976931348623157e308;

// Whether x is at least low and at most high; NaN is neither.
fn is_between(x: f64, low: f64, high: f64) -> bool
    ensures { result ≡ between low high x }
{
    (low <= x) & (x <= high)
}

// Whether each is. The loop has no way out, so that it compiles to vector code.
fn all_between(xs: &[f64], low: f64, high: f64) -> bool
    ensures { result ≡ every (between low high) xs.now }
{
    let mut ok = true;
    for x in xs {
        ok = ok & is_between(*x, low, high);
    }
    ok
}

// A position: a magnitude of at most 1,048,576.
pub fn is_position(x: f64) -> bool
    ensures { result ≡ is_position x }
{
    is_between(x, -MILLION, MILLION)
}

// Each is a position.
pub fn all_positions(xs: &[f64]) -> bool
    ensures { result ≡ every is_position xs.now }
{
    all_between(xs, -MILLION, MILLION)
}

// Neither NaN nor an infinity.
pub fn is_finite(x: f64) -> bool
    ensures { result ≡ is_finite x }
{
    is_between(x, -GREATEST, GREATEST)
}

// Each is finite.
pub fn all_finite(xs: &[f64]) -> bool
    ensures { result ≡ every is_finite xs.now }
{
    all_between(xs, -GREATEST, GREATEST)
}

// An snr: 0 to 1,048,576.
pub fn is_snr(x: f64) -> bool
    ensures { result ≡ is_snr x }
{
    is_between(x, 0.0, MILLION)
}

// Each is an snr.
pub fn all_snrs(xs: &[f64]) -> bool
    ensures { result ≡ every is_snr xs.now }
{
    all_between(xs, 0.0, MILLION)
}

// A weight: 0 to 2^40.
pub fn is_weight(x: f64) -> bool
    ensures { result ≡ is_weight x }
{
    is_between(x, 0.0, HEAVIEST)
}

// Each is a weight.
pub fn all_weights(xs: &[f64]) -> bool
    ensures { result ≡ every is_weight xs.now }
{
    all_between(xs, 0.0, HEAVIEST)
}

// An error limit or a least spine: finite and not below zero; -0.0 counts as zero.
pub fn is_limit(x: f64) -> bool
    ensures { result ≡ is_limit x }
{
    is_between(x, 0.0, GREATEST)
}

// Each is a limit.
pub fn all_limits(xs: &[f64]) -> bool
    ensures { result ≡ every is_limit xs.now }
{
    all_between(xs, 0.0, GREATEST)
}

// A byte of a mask: 0 or 1.
pub fn is_mask_byte(b: u8) -> bool
    ensures { result ≡ is_mask_byte b }
{
    b <= 1
}

// Each is a byte of a mask.
pub fn all_mask_bytes(bytes: &[u8]) -> bool
    ensures { result ≡ every is_mask_byte bytes.now }
{
    let mut ok = true;
    for b in bytes {
        ok = ok & is_mask_byte(*b);
    }
    ok
}
