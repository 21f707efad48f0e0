// Roundings: to a whole number of the format, and f64 to f32. Internal: `floats` passes on
// what has no `requires`.
#![tactic(auto)]

mod narrowing; // f64 to f32
mod ties_away; // to nearest, one tie rule
mod ties_even; // and the other
mod to_integer; // half away from zero, as an integer
mod whole; // floor, ceiling, and rounding half away from zero

pub use narrowing::{narrow, narrow_bits};
pub use to_integer::half_size;
pub use whole::{ceiling, ceiling_bits, floor, floor_bits, round, round_bits};
