// A float's bit pattern, and the float of a bit pattern.
ghost use Rattle.std.specs.Float.Ieee.{fits, hid, of_bits, to_bits, top};
ghost use Rattle.std.specs.Prelude.{◌≡◌, ◌*◌, ◌/◌, ◌%◌, ◌<◌, true};

use crate::binary::Binary;

// The pattern of x as a word. Compiled code may leave any digits in a NaN, so a NaN has one pattern here.
#[tactic(auto, using(crate::proofs::Laws::nan_word, crate::proofs::Laws::nan_fits))]
pub fn to_word<F: Binary>(x: F) -> u64
    ensures { (result ≡ to_bits F.format (F.float x)) × (fits F.format (F.float x) ≡ true) }
{
    if x.no_number() {
        F::LAST + F::FIELD / 2
    } else {
        x.to_word()
    }
}

// The float with the pattern b.
#[tactic(auto, using(ieee::proofs::Patterns::Nan::above_inf))]
pub fn of_word<F: Binary>(b: u64) -> F
    requires { b < 2 * top F.format }
    ensures { F.float result ≡ of_bits F.format b }
{
    if F::LAST < b % F::SIGN {
        F::nan()
    } else {
        F::of_word(b)
    }
}

#[tactic(auto, using(crate::proofs::Laws::word_lt))]
pub fn bits<F: Binary>(x: F) -> F::Pattern
    ensures { F.number result ≡ to_bits F.format (F.float x) }
{
    F::pattern(to_word(x))
}

pub fn float_of<F: Binary>(b: F::Pattern) -> F
    ensures { F.float result ≡ of_bits F.format (F.number b) }
{
    of_word(F::word(b))
}

// The fields of a pattern below its sign (3.4): that of the exponent, and the digits that are written.
pub fn exponent<F: Binary>(b: u64) -> u64
    ensures { result ≡ b % top F.format / hid F.format }
{
    b % F::SIGN / F::FIELD
}

pub fn trailing<F: Binary>(b: u64) -> u64
    ensures { (result ≡ b % hid F.format) × (result < hid F.format) }
{
    b % F::FIELD
}
