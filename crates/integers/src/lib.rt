// A float as an integer (IEEE 754-2019 5.8, convertToIntegerTowardZero): the fraction is dropped. For what does not
// fit, 5.8 leaves the answer open. Here, as in Rust, it is the end of the range that is nearer, and 0 for a NaN:
// the model's `to_signed h`, of h bits and a sign, and `to_unsigned w`, of w bits. Internal: `floats` passes on
// what has no `requires`.
#![tactic(auto)]

ghost use Rattle.std.specs.Prelude.{◌≡◌, ◌-◌, ◌/◌, ◌^◌, ◌<◌, ◌≤◌, ◌%◌, ℕ, ℤ, false, T, pos, neg_ℤ, from_bits};
ghost use Rattle.std.specs.Float.{binary32, binary64, fin};
ghost use Rattle.std.specs.Float.Ieee.{le, lt, of_bits, to_signed, to_unsigned};
ghost use Rattle.ieee.specs.inner.Fields.{sized};

use patterns::{Binary, float_of, to_word};

// The size of a float below 2^63 without its fraction, from its pattern. With the digits at the top of a word one shift
// serves every size from 1 on.
#[tactic(auto, using(ieee::proofs::Patterns::Integer::none_size, ieee::proofs::Patterns::Integer::shift_size))]
fn cut_size(b: u64) -> u64
    requires { b % 2 ^ 63 / 2 ^ 52 < 1086 }
    ensures { result ≡ sized binary64 (b % 2 ^ 63 / 2 ^ 52) (b % 2 ^ 52) / 2 ^ 1074 }
{
    let e = b % f64::SIGN / f64::FIELD;
    if e < 1023 {
        0
    } else {
        ((f64::FIELD + b % f64::FIELD) * 0x800) >> (1086 - e)
    }
}

// x as an integer of h bits and a sign. The sign is put on last: a processor would guess a branch by the sign wrongly every
// other time. From 2^h on there are only the ends.
fn to_signed(x: f64, h: u64, least: i64, most: i64) -> i64
    requires { (h ≤ 63) × (least ≡ neg_ℤ (pos (2 ^ h))) × (most ≡ pos (2 ^ h - 1)) }
    ensures { result ≡ to_signed h x }
{
    let b = to_word(x);
    if b % f64::SIGN / f64::FIELD < 1023 + h {
        let n = cut_size(b) as i64;
        if b < f64::SIGN { n } else { -n }
    } else if x != x {
        0
    } else if b < f64::SIGN {
        most
    } else {
        least
    }
}

// The integers of a sign and some bits, into which a float is put.
pub trait Signed: Copy {
    // How many bits, and a value as an integer.
    ghost size: { ℕ };

    ghost value: { Self → ℤ };

    fn of_float(x: f64) -> Self
        ensures { value result ≡ to_signed size x };
}

impl Signed for i32 {
    ghost size = { 31 };

    ghost value = { λ z. z };

    fn of_float(x: f64) -> i32 {
        to_signed(x, 31, i32::MIN as i64, i32::MAX as i64) as i32
    }
}

#[tactic(auto, using(ieee::proofs::Order::Ranges::signed_kept))]
impl Signed for i64 {
    ghost size = { 63 };

    ghost value = { λ z. z };

    fn of_float(x: f64) -> i64 {
        to_signed(x, 63, i64::MIN, i64::MAX)
    }
}

// Either format to either integer. An `f64` has each value of an `f32`.
pub fn to_integer<F: Binary, I: Signed>(x: F) -> I
    ensures { I.value result ≡ to_signed I.size (F.float x) }
{
    I::of_float(x.wide())
}

pub fn to_integer_bits<F: Binary, I: Signed>(b: F::Pattern) -> I
    ensures { I.value result ≡ to_signed I.size (of_bits F.format (F.number b)) }
{
    to_integer(float_of::<F>(b))
}

// A NaN fails both tests.
pub fn to_u64(x: f32) -> u64
    ensures { result ≡ to_unsigned 64 x }
{
    if x >= 18446744073709551616.0 {
        u64::MAX
    } else if x > -1.0 {
        std::num::truncating_f32_to_u64(x)
    } else {
        0
    }
}

// The whole part of a float from 1 up and below 2^23: its digits, shifted.
#[tactic(auto, using(ieee::proofs::Order::Comparison::le_right, ieee::proofs::Patterns::Back::read_back, ieee::proofs::Patterns::WholePart::field_range, ieee::proofs::Patterns::WholePart::whole_part))]
pub fn whole_part32(x: f32) -> u32
    requires low { T (le (fin false 1 (pos 0)) x) }
    requires high { T (lt x (fin false 1 (pos 23))) }
    ensures { result ≡ to_unsigned 64 x }
{
    let b = f32::to_bits(x);
    (0x80_0000 + b % 0x80_0000) >> (150 - b / 0x80_0000)
}

pub fn to_u64_bits(b: u32) -> u64
    ensures { result ≡ to_unsigned 64 (from_bits binary32 b) }
{
    to_u64(float_of(b))
}
