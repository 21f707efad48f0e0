// A float's bit pattern, and what needs no rounding. Internal: `floats` passes it on, and what works on patterns uses it.
#![tactic(auto)]

mod binary; // what `f32` and `f64` share
mod words; // a float's bit pattern, and back
mod order; // magnitude, least and greatest

pub use binary::Binary;
pub use order::{greatest, greatest_bits, least, least_bits, magnitude, magnitude_bits};
pub use words::{bits, exponent, float_of, of_word, to_word, trailing};
