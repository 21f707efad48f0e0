// Float helpers that answer every input, a NaN, an infinity and a -0 too. A contract is one equation with a definition of
// `ieee`'s specs/ or of the kit's model, which follows a clause of IEEE 754-2019; those of the magnitudes of patterns are `SignCleared`.
// Where `f32` and `f64` do the same, one function serves both: the trait `Binary` of `patterns` says what they share.
// A form on bit patterns, `_bits`, also fixes the pattern of a NaN result: 7ff8000000000000 or 7fc00000.
// The crates behind it: `patterns`, `integers`, `rounding`, `root`, `cube`; their laws stand in `ieee`.
#![tactic(auto)]

pub use cube::{cube_above, cube_above_bits};
pub use integers::{to_integer, to_integer_bits, to_u64, to_u64_bits};
pub use patterns::{
    bits, float_of, greatest, greatest_bits, least, least_bits, magnitude, magnitude_bits,
};
pub use root::{root64, root64_bits};
pub use rounding::{
    ceiling, ceiling_bits, floor, floor_bits, narrow, narrow_bits, round, round_bits,
};
