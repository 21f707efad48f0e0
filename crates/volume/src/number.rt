// A method as a number, for a listing's lines and for C.
ghost use Rattle.std.specs.Prelude.{◌≡◌};
ghost use Rattle.volume.specs.Numbers.{method_number};

use crate::Method;

impl From<Method> for u32 {
    ghost from_gives = { λ method n. n ≡ method_number method };

    #[tactic(auto, unfolding(crate::specs::Numbers::method_number))]
    fn from(method: Method) -> u32 {
        match method {
            Method::Mesh => 0,
            Method::MeshOpen => 1,
            Method::PrismFallback => 2,
            Method::MeshUnclipped => 3,
            Method::MeshProfileInvalid => 4,
        }
    }
}
