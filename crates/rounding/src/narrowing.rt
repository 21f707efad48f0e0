// f64 to f32, to nearest, a tie to the even one, by integer arithmetic on the pattern.
ghost use Rattle.std.specs.Float.{binary32, binary64};
ghost use Rattle.std.specs.Prelude.{◌≡◌, ◌<◌, ◌≤◌, from_bits, to_bits};
ghost use Rattle.ieee.specs.Rounded.{rounded};
ghost use Rattle.rounding.specs.inner.Sizes.{narrow_size};

use crate::ties_even::nearest_shift;
use patterns::{Binary, float_of};

// The size of a normal `f32`, or of what a carry makes infinity. An `f32` has 29 digits less and counts its exponent from
// 896 lower. Half of what goes is added, less one where the last digit that stays is even; a carry out of the digits runs
// into the exponent by itself.
#[tactic(auto, using(ieee::proofs::Patterns::Narrowed::shortened_normal))]
fn narrow_normal(m: u64) -> u64
    requires { (0x3810_0000_0000_0000 ≤ m) × (m < 0x47f0_0000_0000_0000) }
    ensures { (result ≡ narrow_size m) × (result ≤ 0x7f80_0000) }
{
    (m + (0xfff_ffff + m / 0x2000_0000 % 2)) / 0x2000_0000 - 0x1_c000_0000
}

// The size of a finite `f64`, by its pattern, as the pattern of the nearest `f32`.
#[tactic(auto, using(crate::proofs::Tiny::tiny_is_none, ieee::proofs::Patterns::Narrowed::narrow_small, ieee::proofs::Patterns::Narrowed::narrow_large))]
fn narrow_size(m: u64) -> u64
    requires { m < 0x7ff0_0000_0000_0000 }
    ensures { result ≡ narrow_size m }
{
    if m < 0x35f0_0000_0000_0000 {
        // less than half of the smallest
        0
    } else if m < 0x3810_0000_0000_0000 {
        // below the normal values more digits go
        nearest_shift(f64::FIELD + m % f64::FIELD, 926 - m / f64::FIELD)
    } else if m < 0x47f0_0000_0000_0000 {
        narrow_normal(m)
    } else {
        // 2^128 and up
        f32::LAST
    }
}

#[tactic(auto, using(ieee::proofs::Patterns::Narrowed::narrow_finite, ieee::proofs::Patterns::Narrowed::narrow_inf, ieee::proofs::Patterns::Narrowed::narrow_nan, ieee::proofs::Patterns::Signs::bits_lt))]
pub fn narrow_bits(b: u64) -> u32
    ensures { result ≡ to_bits binary32 (rounded binary32 (from_bits binary64 b)) }
{
    let s = b / f64::SIGN * f32::SIGN;
    let m = b % f64::SIGN;
    if m < f64::LAST {
        (s + narrow_size(m)) as u32
    } else if m == f64::LAST {
        (s + f32::LAST) as u32
    } else {
        0x7fc0_0000
    }
}

// Normal values, and the zeros, which are common, go the short way, with no test of the result. A NaN, which has no one
// pattern, goes first.
pub fn narrow(x: f64) -> f32
    ensures { result ≡ rounded binary32 x }
{
    if x != x {
        return f32::nan();
    }
    let b = f64::to_bits(x);
    let s = b / f64::SIGN * f32::SIGN;
    let m = b % f64::SIGN;
    if (0x3810_0000_0000_0000 <= m) & (m < 0x47f0_0000_0000_0000) {
        f32::from_bits((s + narrow_normal(m)) as u32)
    } else if m == 0 {
        f32::from_bits(s as u32)
    } else {
        float_of(narrow_bits(b))
    }
}
