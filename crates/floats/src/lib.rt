// The float helpers of the solver: magnitude, floor and whole powers, on every f64.
#![tactic(auto)]

ghost use Rattle.std.specs.Prelude.{◌≡◌, true, false, T, pos};
ghost use Rattle.std.specs.Float.{fin};
ghost use Rattle.std.specs.Float.Ieee.{lt, to_signed};
ghost use Rattle.floats.specs.Magnitude.{magnitude_of};
ghost use Rattle.floats.specs.Floor.{floor_of};
ghost use Rattle.floats.specs.Power.{power_of};

// x without its sign: the sign's bit is cleared. A NaN has no bits to rely on, and is its own.
pub fn magnitude(x: f64) -> f64
    ensures { result ≡ magnitude_of x }
{
    if x == x {
        return f64::from_bits(f64::to_bits(x) % 0x8000_0000_0000_0000);
    }
    x
}

// The greatest whole number that is not above x, for an x above -2^31 and below 2^31 - 1.
fn floor_inside(x: f64) -> i32
    requires { T (lt (fin true 1 (pos 31)) x) × T (lt x (fin false 2147483647 (pos 0))) }
    ensures { result ≡ to_signed 31 (floor_of x) }
{
    // at 1.5 * 2^52 the f64 are the whole numbers: the sum is one beside x, and its pattern counts them
    let z = x + 6755399441055744.0;
    let n = (f64::to_bits(z) as i64 - 0x4338_0000_0000_0000) as i32;
    if z - 6755399441055744.0 > x { n - 1 } else { n }
}

// The greatest whole number that is not above x, held to the range of an i32; 0 for a NaN. It jumps only
// where x is out of that range, and never on the sign.
pub fn floor(x: f64) -> i32
    ensures { result ≡ to_signed 31 (floor_of x) }
{
    if x < 2147483647.0 {
        if x > -2147483648.0 {
            return floor_inside(x);
        }
        return -2147483648;
    }
    if x == x {
        return 2147483647;
    }
    0
}

// u^p, by p multiplications from 1.0 up.
pub fn power(u: f64, p: u32) -> f64
    ensures { result ≡ power_of u p }
{
    let mut r = 1.0;
    for _ in 0..p {
        r = r * u;
    }
    r
}
