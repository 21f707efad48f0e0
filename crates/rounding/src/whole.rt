// Floor, ceiling, and rounding half away from zero: to a whole number of the float's own format.
ghost use Rattle.std.specs.Prelude.{◌≡◌, ◌+◌, ◌/◌, ◌%◌, ◌^◌, ◌<◌, if◌then◌else◌, nat_le};
ghost use Rattle.std.specs.Float.Ieee.{hid, low, of_bits, to_bits, top};
ghost use Rattle.ieee.specs.inner.Fields.{sized};
ghost use Rattle.ieee.specs.Integral.{ceiling, floor, half_away, integral, to_whole};
ghost use Rattle.rounding.specs.inner.Ways.{way_of};

use crate::ties_away::nearest_shift;
use patterns::{Binary, bits, exponent, float_of, to_word, trailing};

// What becomes of a size's fraction: it is dropped, it counts as one more, or it does so from a half on.
#[derive(Clone, Copy)]
enum Way {
    Cut,
    Away,
    Half,
}

// d / 2^j as a whole number.
#[tactic(auto, using(ieee::proofs::Numbers::Basic::one_shl))]
fn shifted(d: u64, j: u64, way: Way) -> u64
    requires { (d < 2 ^ 53) × (0 < j) × (j < 64) }
    ensures { result ≡ to_whole (way_of way) d (2 ^ j) }
{
    match way {
        Way::Cut => d >> j,
        Way::Away => (d + ((1u64 << j) - 1)) >> j,
        Way::Half => nearest_shift(d, j),
    }
}

// The way of the float with the pattern b: one from zero up, another below.
// Stays: two ways apart, here and below, since the definition `integral` takes two.
fn way_at<F: Binary>(b: u64, above: Way, below: Way) -> Way
    ensures { way_of result ≡ (if nat_le (top F.format) b then way_of below else way_of above) }
{
    if b < F::SIGN { above } else { below }
}

// The size of a float as a whole number, from its pattern b, below those that are all whole.
#[tactic(auto, using(ieee::proofs::Patterns::Whole::few_shift, ieee::proofs::Patterns::Whole::tiny_size))]
fn whole_size<F: Binary>(b: u64, above: Way, below: Way) -> u64
    requires { b % top F.format / hid F.format < low F.format + 1 }
    ensures { result ≡ to_whole (if nat_le (top F.format) b then way_of below else way_of above)
        (sized F.format (b % top F.format / hid F.format) (b % hid F.format)) (2 ^ low F.format) }
{
    let way = way_at::<F>(b, above, below);
    let e = exponent::<F>(b);
    let t = trailing::<F>(b);
    if e < F::WHOLE - 63 {
        // so far below a half it only counts whether it is 0
        shifted(e + t, 63, way)
    } else {
        shifted(F::FIELD + t, F::WHOLE - e, way)
    }
}

// x as a whole number, by one way from zero up and by another below. Large values are whole. The size is made whole, and
// the sign put on.
fn whole<F: Binary>(x: F, above: Way, below: Way) -> F
    ensures { F.float result ≡ integral F.format (way_of above) (way_of below) (F.float x) }
{
    let b = to_word(x);
    if exponent::<F>(b) >= F::WHOLE {
        x
    } else {
        let n = F::of_whole(whole_size::<F>(b, above, below));
        if b < F::SIGN { n } else { n.opposite() }
    }
}

pub fn floor<F: Binary>(x: F) -> F
    ensures { F.float result ≡ floor F.format (F.float x) }
{
    whole(x, Way::Cut, Way::Away)
}

pub fn ceiling<F: Binary>(x: F) -> F
    ensures { F.float result ≡ ceiling F.format (F.float x) }
{
    whole(x, Way::Away, Way::Cut)
}

// Half away from zero: 2.5 to 3, -0.5 to -1.
pub fn round<F: Binary>(x: F) -> F
    ensures { F.float result ≡ half_away F.format (F.float x) }
{
    whole(x, Way::Half, Way::Half)
}

pub fn floor_bits<F: Binary>(b: F::Pattern) -> F::Pattern
    ensures { F.number result ≡ to_bits F.format (floor F.format (of_bits F.format (F.number b))) }
{
    bits(floor(float_of::<F>(b)))
}

pub fn ceiling_bits<F: Binary>(b: F::Pattern) -> F::Pattern
    ensures { F.number result ≡ to_bits F.format (ceiling F.format (of_bits F.format (F.number b))) }
{
    bits(ceiling(float_of::<F>(b)))
}

pub fn round_bits<F: Binary>(b: F::Pattern) -> F::Pattern
    ensures { F.number result ≡ to_bits F.format (half_away F.format (of_bits F.format (F.number b))) }
{
    bits(round(float_of::<F>(b)))
}
