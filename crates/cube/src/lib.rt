// Whether 8 * s^3 > p^2 for two `f32`, exactly, by integer arithmetic on the patterns. Internal: `floats` passes it on.
#![tactic(auto)]

ghost use Rattle.std.specs.Prelude.{ltb, ◌≡◌, ◌+◌, ◌*◌, ◌/◌, ◌%◌, ◌<◌, ◌^◌};
ghost use Rattle.std.specs.Float.{binary32};
ghost use Rattle.std.specs.Float.Ieee.{of_bits};
ghost use Rattle.ieee.specs.Cube.{cube_above};
ghost use Rattle.ieee.specs.inner.Fields.{exp, sig};

use patterns::{Binary, bits, exponent, trailing};

// n / 2^k, also where k is more than a word has places.
fn shifted_down(n: u64, k: u64) -> u64
    ensures { result ≡ n / 2 ^ k }
{
    if k < 64 { n >> k } else { 0 }
}

// Whether b * 2^e < a^3, and so whether the quotient of b * 2^e by a is below a * a. It is made 16 digits a turn: q is the
// quotient of the digits taken so far, and rest what they have more than q * a. More digits make q no less, so the
// answer is clear once q is a * a.
fn below_cube(a: u64, b: u64, e: u64) -> bool
    requires { (a < 2 ^ 24) × (b < 2 ^ 48) }
    ensures { result ≡ ltb (b * 2 ^ e) (a * a * a) }
{
    if a == 0 {
        return false;
    }
    let square = a * a;
    let n = b << (e % 16);
    let mut q = n / a;
    let mut rest = n % a;
    for _i in 0..e / 16 {
        if square <= q {
            return false;
        }
        let d = rest * 0x1_0000;
        q = q * 0x1_0000 + d / a;
        rest = d % a;
    }
    q < square
}

// The size of a finite `f32`: digits * 2^place / 2^149.
#[derive(Clone, Copy)]
struct Size {
    digits: u64,
    place: u64,
    ghost few: { digits < 2 ^ 24 },
    ghost near: { place < 254 },
}

// Whether 8 * s^3 > p^2: so whether b^2 * 2^right < a^3 * 2^left, of the digits a and b. The lesser of the two powers is
// taken off both sides.
fn sizes_above(s: Size, p: Size) -> bool
    ensures { result ≡ ltb (p.digits * 2 ^ p.place * (p.digits * 2 ^ p.place) * 2 ^ 149)
        (8 * (s.digits * 2 ^ s.place * (s.digits * 2 ^ s.place) * (s.digits * 2 ^ s.place))) }
{
    let square = p.digits * p.digits;
    let left = 3 * s.place + 3;
    let right = 2 * p.place + 149;
    if left <= right {
        below_cube(s.digits, square, right - left)
    } else {
        below_cube(s.digits, shifted_down(square, left - right), 0)
    }
}

// The size that a pattern says, but for the sign.
#[tactic(auto, using(ieee::proofs::Patterns::Fields::sig_above, ieee::proofs::Patterns::Fields::sig_zero, ieee::proofs::Patterns::Fields::exp_is))]
fn size_of(b: u64) -> Size
    requires { b % 2 ^ 31 < 0x7f80_0000 }
    ensures digits { result.digits ≡ sig binary32 (b % 2 ^ 31 / 2 ^ 23) (b % 2 ^ 23) }
    ensures place { result.place ≡ exp (b % 2 ^ 31 / 2 ^ 23) }
{
    let e = exponent::<f32>(b);
    let t = trailing::<f32>(b);
    if e == 0 {
        Size {
            digits: t,
            place: 0,
        }
    } else {
        Size {
            digits: f32::FIELD + t,
            place: e - 1,
        }
    }
}

// Nothing is above the square of an infinity or a NaN. A pattern past infinity's is a NaN's or has the sign: no such cube is
// above a square.
pub fn cube_above_bits(a: u32, b: u32) -> bool
    ensures { result ≡ cube_above (of_bits binary32 a) (of_bits binary32 b) }
{
    let m = a as u64;
    let n = b as u64;
    if f32::LAST <= n % f32::SIGN {
        false
    } else if f32::LAST < m {
        false
    } else if m == f32::LAST {
        true
    } else {
        sizes_above(size_of(m), size_of(n))
    }
}

#[tactic(auto, using(ieee::proofs::Patterns::Back::read_back))]
pub fn cube_above(s: f32, p: f32) -> bool
    ensures { result ≡ cube_above s p }
{
    cube_above_bits(bits(s), bits(p))
}
