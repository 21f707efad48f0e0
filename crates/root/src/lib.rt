// The square root of an `f64`: a guess by floats, held against the radicand by integer arithmetic on the pattern.
// Internal: `floats` passes it on.
#![tactic(auto)]

ghost use Rattle.std.specs.Float.{binary64};
ghost use Rattle.std.specs.Prelude.{◌≡◌, ◌+◌, ◌*◌, ◌/◌, ◌%◌, ◌^◌, ◌<◌, ◌≤◌, ◌⊎◌, from_bits, to_bits};
ghost use Rattle.ieee.specs.Root.{closest_root, floor_root, root};

use patterns::{Binary, float_of, to_word};

// The whole part of √m, a digit a turn: q is the whole part of the root of the digits of m taken so far, and rest what
// they have more than q * q. The digits that are left stand at the upper end of a.
fn digit_root(m: u64) -> u64
    requires { m < 2 ^ 54 }
    ensures { result ≡ floor_root m }
{
    let mut a = m * 1024;
    let mut q: u64 = 0;
    let mut rest: u64 = 0;
    for _i in 0..27u64 {
        let n = rest * 4 + a / 0x4000_0000_0000_0000;
        let d = q * 4 + 1;
        a = a % 0x4000_0000_0000_0000 * 4;
        if d <= n {
            rest = n - d;
            q = q * 2 + 1;
        } else {
            rest = n;
            q = q * 2;
        }
    }
    q
}

// √(m * 2^52) to the nearest whole number, from the whole part q of √m. One step of long division, of the rest of m
// times 2^26 by 2 * q, gives t and leaves u. With s for q * 2^26 + t, s * s + u * 2^26 is m * 2^52 + t * t. So the
// answer is s, or the next number where m * 2^52 is above s * s + s.
fn nearest_root(m: u64) -> u64
    requires { (2 ^ 52 ≤ m) × (m < 2 ^ 54) }
    ensures { result ≡ closest_root (m * 2 ^ 52) 1 }
{
    let q = digit_root(m);
    let n = (m - q * q) * 0x400_0000;
    let t = n / (2 * q);
    let u = n % (2 * q);
    let s = q * 0x400_0000 + t;
    if t * t + s < u * 0x400_0000 { s + 1 } else { s }
}

// 1 where a is below b, and 0 where it is not. A number, since the compiler makes a jump of an `if`.
fn less(a: u64, b: u64) -> u64
    ensures { (result ≤ 1) × (((a < b) × (result ≡ 1)) ⊎ ((b ≤ a) × (result ≡ 0))) }
{
    u64::from(a < b)
}

// √(m * 2^52) to the nearest whole number, from any guess q. r is m * 2^52 - q * q + 2^55, which fits a word where q is near.
// The answer is q, the next number where r is above 2^55 + q, or the one before where r is not above 2^55 - q. The square
// is made of q's parts u and v, and k is what is left in units of 2^44, and 2046 more. Where q is not near, by digits.
fn settled(m: u64, q: u64) -> u64
    requires { (2 ^ 52 ≤ m) × (m < 2 ^ 54) × (2 ^ 52 ≤ q) × (q < 2 ^ 53) }
    ensures { result ≡ closest_root (m * 2 ^ 52) 1 }
{
    let u = q / 0x40_0000;
    let v = q % 0x40_0000;
    let p = u * v;
    let k = std::num::wrapping_sub_u64(m * 256 + 2046, u * u + p / 0x20_0000);
    let r = (k % 4096 + 2) * 0x1000_0000_0000 - (p % 0x20_0000 * 0x80_0000 + v * v);
    if (k < 4096) & (0x80_0000_0000_0002 < r + 3 * q) & (r < 0x80_0000_0000_0000 + 3 * q) {
        q + less(0x80_0000_0000_0000 + q, r) - less(r + q, 0x80_0000_0000_0001)
    } else {
        nearest_root(m)
    }
}

// The pattern of the root of d * 2^w / 2^2096, for a d of 53 digits: half of w is the exponent. Of p, a guess at that
// pattern, the digits count.
fn root_scaled(d: u64, w: u64, p: u64) -> u64
    requires { (2 ^ 52 ≤ d) × (d < 2 ^ 53) × (w < 4092) }
    ensures { (result ≡ w / 2 * 2 ^ 52 + closest_root (d * (1 + w % 2) * 2 ^ 52) 1) × (result ≤ (w / 2 + 2) * 2 ^ 52) }
{
    w / 2 * f64::FIELD + settled(d * (1 + w % 2), f64::FIELD + p % f64::FIELD)
}

// A guess at the pattern of √x by floats, from the pattern b of x: one at 1 / √x, brought nearer by three steps of Newton's
// method, then one at √x by a fourth. Nothing is proved of it, since `settled` holds it against x.
fn guess(x: f64, b: u64) -> u64
    requires { b < 0x7ff0000000000000 }
{
    let h = 0.5 * x;
    let y = f64::from_bits(0x5fe6_eb50_c7b5_37a9 - b / 2);
    let z = y * (1.5 - h * y * y);
    let w = z * (1.5 - h * z * z);
    let v = w * (1.5 - h * w * w);
    let s = x * v;
    to_word(s + 0.5 * v * (x - s * s))
}

// The pattern of the root of x, from the pattern b of x, for a normal x above zero.
fn root_normal(x: f64, b: u64) -> u64
    requires { (2 ^ 52 ≤ b) × (b < 0x7ff0000000000000) }
    ensures { (result ≡ to_bits binary64 (root binary64 (from_bits binary64 b))) × (result < 0x7ff0000000000000) }
{
    root_scaled(
        f64::FIELD + b % f64::FIELD,
        b / f64::FIELD + 1021,
        guess(x, b),
    )
}

// The same for a subnormal one, whose pattern is t. No guess is made.
fn root_subnormal(t: u64) -> u64
    requires { (0 < t) × (t < 2 ^ 52) }
    ensures { result ≡ to_bits binary64 (root binary64 (from_bits binary64 t)) }
{
    let z = u64::leading_zeros(t) as u64 - 11;
    root_scaled(t << z, 1022 - z, 0)
}

// A zero and the infinity above zero are their own roots; what else is below zero has none.
pub fn root64_bits(b: u64) -> u64
    ensures { result ≡ to_bits binary64 (root binary64 (from_bits binary64 b)) }
{
    if (f64::FIELD <= b) & (b < f64::LAST) {
        root_normal(f64::from_bits(b), b)
    } else if b % f64::SIGN == 0 {
        b
    } else if b < f64::FIELD {
        root_subnormal(b)
    } else if b == f64::LAST {
        b
    } else {
        0x7ff8_0000_0000_0000
    }
}

// A normal x above zero is not read back from its pattern.
pub fn root64(x: f64) -> f64
    ensures { result ≡ root binary64 x }
{
    if x != x {
        return x;
    }
    let b = f64::to_bits(x);
    if (f64::FIELD <= b) & (b < f64::LAST) {
        f64::from_bits(root_normal(x, b))
    } else {
        float_of(root64_bits(b))
    }
}
