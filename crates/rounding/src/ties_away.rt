// To nearest, a tie away from zero (IEEE 754-2019 4.3.1, roundTiesToAway).
ghost use Rattle.std.specs.Prelude.{◌≡◌, ◌^◌, ◌<◌};
ghost use Rattle.ieee.specs.Integral.{half, to_whole};

// n / 2^k to the nearest whole number, a tie to the greater: one is added at the digit behind the last, which then goes.
#[tactic(auto, using(ieee::proofs::Patterns::Whole::half_digit))]
pub fn nearest_shift(n: u64, k: u64) -> u64
    requires { (n < 2 ^ 53) × (0 < k) × (k < 64) }
    ensures { result ≡ to_whole half n (2 ^ k) }
{
    ((n >> (k - 1)) + 1) >> 1
}
