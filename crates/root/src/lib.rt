// The square root of the solver, on every f64.
#![tactic(auto)]

ghost use Rattle.std.specs.Prelude.{◌≡◌, ℕ, ◌+◌, ◌*◌, ◌^◌, ◌≤◌, ◌<◌};
ghost use Rattle.floats.specs.Patterns.{units_at};
ghost use Rattle.root.specs.Root.{root_of, IsRoot};
ghost use Rattle.root.specs.Steps.{Halfway, Scaled53, Rooted};

// The other 27 digits of a root, by a division.
fn second_half(q: u64, rest: u64) -> u64
    requires { Halfway q rest }
    ensures { (result * result ≤ q * q + rest * 2 ^ 27) × (q * q + rest * 2 ^ 27 < (result + 1) * (result + 1)) }
{
    // (q + t)^2 is q^2 + 2qt and t^2 more, which is one digit too many where it is not covered
    let d = q / 0x400_0000;
    let t = rest / d;
    if rest % d * 0x800_0000 < t * t {
        q + t - 1
    } else {
        q + t
    }
}

// The whole part of the root of m * 2^54: 27 binary digits one by one, and then the other half.
fn root_digits(m: u64) -> u64
    requires { (2 ^ 52 ≤ m) × (m < 2 ^ 54) }
    ensures { (result * result ≤ m * 2 ^ 54) × (m * 2 ^ 54 < (result + 1) * (result + 1)) }
{
    // q * q + rest * bit is m * 2^54, and the root is below q + bit
    let mut bit: u64 = 0x40_0000_0000_0000;
    let mut rest: u64 = m;
    let mut q: u64 = 0;
    // halved, not counted
    while bit > 0x800_0000 {
        bit = bit / 2;
        rest = rest * 2;
        let t = 2 * q + bit;
        if t <= rest {
            rest -= t;
            q += bit;
        }
    }
    second_half(q, rest)
}

// A guess of the first 27 digits of the root of the f64 with the pattern `bits`, which is below 4, by
// three steps of Newton's for 1 / root. What it gives is checked, so that any number would do.
fn guess(bits: u64) -> u64
    requires { bits < 0x4010_0000_0000_0000 }
    ensures { result < 2 ^ 27 }
{
    let x = f64::from_bits(bits);
    let half = 0.5 * x;
    let y0 = f64::from_bits(0x5fe6_eb50_c7b5_37a9 - bits / 2);
    let y1 = y0 * (1.5 - half * y0 * y0);
    let y2 = y1 * (1.5 - half * y1 * y1);
    let y3 = y2 * (1.5 - half * y2 * y2);
    let z = x * y3 * 67108864.0 + 4503599627370496.0;
    if z == z {
        return f64::to_bits(z) % 0x800_0000;
    }
    0
}

// A guess, or one less where its square is above m.
fn lowered(g: u64, m: u64) -> u64
    requires { g < 2 ^ 27 }
    ensures { result < 2 ^ 27 }
{
    if g > 0 {
        if m < g * g {
            return g - 1;
        }
    }
    g
}

// The same as the digits one by one give: by a guess, where it is right. The pattern is that of m * 2^-52.
fn root_whole(m: u64, bits: u64) -> u64
    requires fact_1 { (2 ^ 52 ≤ m) × (m < 2 ^ 54) }
    requires fact_2 { bits < 0x4010_0000_0000_0000 }
    ensures { (result * result ≤ m * 2 ^ 54) × (m * 2 ^ 54 < (result + 1) * (result + 1)) }
{
    let a = lowered(guess(bits), m);
    let s = a * a;
    if a < 0x400_0000 {
        return root_digits(m);
    }
    if m < s {
        return root_digits(m);
    }
    let u = m - s;
    if u > 2 * a {
        return root_digits(m);
    }
    second_half(a * 0x800_0000, u * 0x800_0000)
}

// A number m * 2^e of units of 2^-1126.
#[derive(Clone, Copy)]
struct Spread {
    m: u64,
    e: u64,
}

// What the pattern of a positive finite f64 stands for, with all 53 digits of m in use: a
// subnormal is brought up by the leading zeros of its fraction bits.
fn scaled(bits: u64) -> Spread
    requires { (0 < bits) × (bits < 0x7ff0_0000_0000_0000) }
    ensures { Scaled53 bits result.m result.e }
{
    let field = bits >> 52;
    let digits = bits & 0xf_ffff_ffff_ffff;
    if field == 0 {
        let up = u64::leading_zeros(digits) as u64 - 11;
        Spread {
            m: digits << up,
            e: 52 - up,
        }
    } else {
        Spread {
            m: digits + 0x10_0000_0000_0000,
            e: field + 51,
        }
    }
}

// The pattern of the root of the positive finite f64 with the pattern `bits`. The root has 54
// digits here, the last of which rounds: no root lies on the middle of two f64.
fn root_bits(bits: u64) -> u64
    requires { (0 < bits) × (bits < 0x7ff0_0000_0000_0000) }
    ensures { (q : ℕ) × (h : ℕ) × Rooted (units_at bits * 2 ^ 1074) result q h }
{
    let s = scaled(bits);
    let m = s.m;
    let e = s.e;
    // an even exponent, whose half is the root's
    let n = if e % 2 == 0 { m } else { 2 * m };
    let q = root_whole(n, m + (1022 + e % 2) * 0x10_0000_0000_0000);
    (e / 2 + 485) * 0x10_0000_0000_0000 + (q + 1) / 2
}

// The root of x: the nearest f64 to the exact root; a zero is its own root, and so are the infinity
// and NaN; any other number below zero has NaN.
pub fn root(x: f64) -> f64
    ensures is { result ≡ root_of x }
    ensures nearest { IsRoot x result }
{
    if x != x {
        return x;
    }
    if x == 0.0 {
        return x;
    }
    if x < 0.0 {
        return 0.0 / 0.0;
    }
    let bits = f64::to_bits(x);
    if bits < 0x7ff0_0000_0000_0000 {
        f64::from_bits(root_bits(bits))
    } else {
        x
    }
}
