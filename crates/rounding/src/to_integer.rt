// To the nearest whole number, a half away from zero, as an integer: what the cells of a weld and the keys of
// normals are made of.
ghost use Rattle.std.specs.Float.Ieee.{hid, low, top};
ghost use Rattle.std.specs.Prelude.{◌≡◌, ◌+◌, ◌/◌, ◌%◌, ◌^◌, ◌<◌};
ghost use Rattle.ieee.specs.inner.Fields.{sized};
ghost use Rattle.ieee.specs.Integral.{half, to_whole};

use crate::ties_away::nearest_shift;
use patterns::{Binary, exponent, trailing};

// The size of a float from its pattern b, below those that are all whole. Below 2^-10 it is 0, whatever its digits: one
// shift serves all.
pub fn half_size<F: Binary>(b: u64) -> u64
    requires { b % top F.format / hid F.format < low F.format + 1 }
    ensures { result ≡ to_whole half (sized F.format (b % top F.format / hid F.format) (b % hid F.format)) (2 ^ low F.format) }
{
    let e = exponent::<F>(b);
    let k = if F::WHOLE - 63 < e { F::WHOLE - e } else { 63 };
    nearest_shift(F::FIELD + trailing::<F>(b), k)
}
