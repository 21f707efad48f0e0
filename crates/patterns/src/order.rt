// Magnitude, and the lesser and the greater of two floats.
ghost use Rattle.std.specs.Float.Ieee.{of_bits, to_bits};
ghost use Rattle.std.specs.Prelude.{◌≡◌};
ghost use Rattle.ieee.specs.Magnitude.{magnitude, SignCleared};
ghost use Rattle.ieee.specs.Order.{greatest, least};

use crate::binary::Binary;
use crate::words::{bits, float_of, of_word, to_word};

// A pattern without its highest bit, the sign. A NaN keeps its digits.
#[tactic(auto, using(crate::proofs::Laws::cleared))]
pub fn magnitude_bits<F: Binary>(b: F::Pattern) -> F::Pattern
    ensures { SignCleared F.format (F.number b) (F.number result) }
{
    F::pattern(F::word(b) % F::SIGN)
}

#[tactic(auto, using(ieee::proofs::Patterns::Signs::sign_cleared, ieee::proofs::Patterns::Back::read_back))]
pub fn magnitude<F: Binary>(x: F) -> F
    ensures { F.float result ≡ magnitude (F.float x) }
{
    of_word(to_word(x) % F::SIGN)
}

// The second is taken where the first is a NaN, and where the first lies past it.
#[tactic(auto, unfolding(ieee::specs::Order::least))]
pub fn least<F: Binary>(x: F, y: F) -> F
    ensures { F.float result ≡ least (F.float x) (F.float y) }
{
    if x.no_number() | y.below(x) { y } else { x }
}

#[tactic(auto, unfolding(ieee::specs::Order::greatest))]
pub fn greatest<F: Binary>(x: F, y: F) -> F
    ensures { F.float result ≡ greatest (F.float x) (F.float y) }
{
    if x.no_number() | x.below(y) { y } else { x }
}

pub fn least_bits<F: Binary>(a: F::Pattern, b: F::Pattern) -> F::Pattern
    ensures { F.number result ≡ to_bits F.format (least (of_bits F.format (F.number a)) (of_bits F.format (F.number b))) }
{
    bits(least(float_of::<F>(a), float_of(b)))
}

pub fn greatest_bits<F: Binary>(a: F::Pattern, b: F::Pattern) -> F::Pattern
    ensures { F.number result ≡ to_bits F.format (greatest (of_bits F.format (F.number a)) (of_bits F.format (F.number b))) }
{
    bits(greatest(float_of::<F>(a), float_of(b)))
}
