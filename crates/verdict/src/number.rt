// A quality as a number, for a listing's lines and for C.
ghost use Rattle.std.specs.Prelude.{◌≡◌};
ghost use Rattle.verdict.specs.Numbers.{quality_number};

use crate::Quality;

impl From<Quality> for u32 {
    ghost from_gives = { λ quality n. n ≡ quality_number quality };

    #[tactic(auto, unfolding(crate::specs::Numbers::quality_number))]
    fn from(quality: Quality) -> u32 {
        match quality {
            Quality::Closed => 0,
            Quality::OpenShell => 1,
            Quality::Degenerate => 2,
        }
    }
}
