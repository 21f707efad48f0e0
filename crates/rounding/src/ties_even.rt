// To nearest, a tie to the even one (IEEE 754-2019 4.3.1, roundTiesToEven).
ghost use Rattle.std.specs.Float.Ieee.Nearest.{closest};
ghost use Rattle.std.specs.Prelude.{◌≡◌, ◌^◌, ◌<◌};

// n / 2^k to the nearest whole number, a tie to the even one: half of 2^k is added, less one where the quotient is even.
#[tactic(auto, using(ieee::proofs::Numbers::Basic::nearest_shift, ieee::proofs::Numbers::Basic::one_shl))]
pub fn nearest_shift(n: u64, k: u64) -> u64
    requires { (n < 2 ^ 53) × (0 < k) × (k < 64) }
    ensures { result ≡ closest n (2 ^ k) }
{
    (n + ((1u64 << (k - 1)) - 1) + (n >> k) % 2) >> k
}
