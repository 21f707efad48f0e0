// The surface rows while they are summed: the key of a normal, and its row, found by an index in lent words. Internal: `walk` asks it.
// Stays here: the areas and how many rows are in them apart: rows are added to an area that C lends whole.
#![tactic(auto)]

ghost use Rattle.std.specs.Prelude.{◌≡◌, ◌+◌, ◌*◌, ◌/◌, ◌%◌, ◌^◌, ◌<◌, length, ℤ, from_bits, Bool, IsTrue, ltb, Float};
ghost use Rattle.std.specs.Float.{binary32};
ghost use Rattle.ieee.specs.Single.{◌⊗◌};
ghost use Rattle.slots.specs.inner.Forms.{narrow};
ghost use Rattle.cells.specs.inner.Table.{coded as coded_of};
ghost use Rattle.surfaces.specs.Surfaces.{ten, tenths as tenths_of, tenth as tenth_of, normal_key};
ghost use Rattle.surfaces.specs.inner.Index.{key_code, with_row, Ready, AddsArea};

use slots::{Code, Narrow};

// A unit normal.
#[derive(Clone, Copy)]
pub struct Normal {
    pub x: f32,
    pub y: f32,
    pub z: f32,
}

// The same in tenths.
#[derive(Clone, Copy)]
pub struct Key {
    pub x: i32,
    pub y: i32,
    pub z: i32,
}

// The pattern of a component times 10.
fn tenfold(c: f32) -> u64
    ensures { (from_bits binary32 result ≡ c ⊗ ten) × (result < 2 ^ 32) }
{
    floats::bits(c * 10.0) as u64
}

// A component in tenths, half away from zero.
#[tactic(auto, using(ieee::proofs::Order::Ranges::signed_kept), unfolding(crate::specs::Surfaces::tenths))]
fn tenths(c: f32) -> i32
    ensures { result ≡ tenths_of c }
{
    let y = floats::round(c * 10.0);
    floats::to_integer(y)
}

#[tactic(auto, using(crate::proofs::Codes::tenths_kept), unfolding(crate::specs::Surfaces::normal_key))]
pub fn quantize_normal(n: Normal) -> Key
    ensures { result ≡ normal_key n.x n.y n.z }
{
    Key {
        x: tenths(n.x),
        y: tenths(n.y),
        z: tenths(n.z),
    }
}

// A number of tenths as a float.
fn tenth(k: i32) -> f32
    ensures { result ≡ tenth_of k }
{
    std::num::nearest_i32_to_f32(k) / 10.0
}

// The code of a component by the pattern of ten times it, below 2^23 tenths: no float or signed integer between.
fn pattern_code(b: u64) -> u64
    requires { (b < 2 ^ 32) × (b % 2147483648 / 8388608 < 150) }
    ensures { (c : Float) → from_bits binary32 b ≡ c ⊗ ten → result ≡ coded_of (tenths_of c) }
{
    let n = rounding::half_size::<f32>(b);
    cells::coded_size(b / 0x8000_0000, n)
}

// The code of a key.
impl From<Key> for Code {
    ghost from_gives = { λ k l. l ≡ key_code k };

    #[tactic(auto, unfolding(crate::specs::inner::Index::key_code))]
    fn from(k: Key) -> Code {
        Code {
            x: cells::coded(i64::from(k.x)),
            y: cells::coded(i64::from(k.y)),
            z: cells::coded(i64::from(k.z)),
        }
    }
}

// Does the pattern say less than 2^23 tenths?
fn few_tenths(b: u64) -> bool
    ensures { result ≡ ltb (b % 2147483648 / 8388608) 150 }
{
    b % 0x8000_0000 / 0x80_0000 < 150
}

// The code of a normal's key: by the patterns, where all three say so few tenths, as those of a unit normal do.
fn code_of_normal(n: Normal) -> Code
    ensures { result ≡ key_code (normal_key n.x n.y n.z) }
{
    let x = tenfold(n.x);
    let y = tenfold(n.y);
    let z = tenfold(n.z);
    if few_tenths(x) & (few_tenths(y) & few_tenths(z)) {
        Code {
            x: pattern_code(x),
            y: pattern_code(y),
            z: pattern_code(z),
        }
    } else {
        Code::from(quantize_normal(n))
    }
}

// A number by its code: its half, or what is left of that below 0.
#[tactic(auto, using(crate::proofs::Codes::rest_is, crate::proofs::Codes::of_even, crate::proofs::Codes::of_odd))]
fn decoded(x: u64) -> i32
    requires { x < 4294967296 }
    ensures { (z : ℤ) → x ≡ coded_of z → result ≡ z }
{
    let h = (x / 2) as i32;
    if x % 2 == 0 { h } else { -1 - h }
}

// The key of a normal by its code.
// Stays: no TryFrom, since the code is always a normal's, and its one caller would have no use for an error.
fn key_of(l: Code) -> Key
    requires { narrow.Fits l }
    ensures { (x y z : Float) → l ≡ key_code (normal_key x y z) → result ≡ normal_key x y z }
{
    Key {
        x: decoded(l.x),
        y: decoded(l.y),
        z: decoded(l.z),
    }
}

// Writes row n: the area of a triangle, added to 0, and the key over 10.
fn new_row(rows: &mut [f32], n: usize, k: Key, area: f32)
    requires { (n < 32768) × (4 * n + 3 < length rows.old) }
    ensures { rows.new ≡ with_row rows.old n k area }
{
    let at = 4 * n;
    let row = [0.0 + area, tenth(k.x), tenth(k.y), tenth(k.z)];
    rows[at..at + 4].copy_from_slice(&row);
}

// An area more for the key of a normal, in the n rows of m at most. The answer is how many rows there are then. The key itself
// is made for a new row only.
pub fn put_normal(
    index: &mut [u32],
    rows: &mut [f32],
    m: usize,
    n: usize,
    normal: Normal,
    area: f32,
) -> usize
    requires { Ready m n index.old rows.old }
    ensures { AddsArea m n (normal_key normal.x normal.y normal.z) area
        index.old index.new rows.old rows.new result }
{
    let l = code_of_normal(normal);
    match slots::find::<Narrow>(index, m, l) {
        Ok(row) => {
            rows[4 * row] += area;
            n
        }
        Err(free) => {
            slots::claim::<Narrow>(index, m, free, n, l);
            new_row(rows, n, key_of(l), area);
            n + 1
        }
    }
}
