// The axes, and which ids name a vertex. Internal: `paint`, `raster` and `sums` ask it.
#![tactic(auto)]

ghost use Rattle.std.specs.Prelude.{◌≡◌};
ghost use Rattle.vertices.specs.Vertices.{axis_number, in_range, corners_in_range};

use ids::Triangle;

// An axis of space.
#[derive(Clone, Copy, PartialEq, Eq)]
pub enum Axis {
    X,
    Y,
    Z,
}

// Where a vertex has its coordinate on the axis.
impl From<Axis> for usize {
    ghost from_gives = { λ axis n. n ≡ axis_number axis };

    fn from(axis: Axis) -> usize {
        match axis {
            Axis::X => 0,
            Axis::Y => 1,
            Axis::Z => 2,
        }
    }
}

// Does the id name a vertex?
#[tactic(auto, unfolding(crate::specs::Vertices::in_range))]
pub fn in_range(vertices: &[f32], id: u32) -> bool
    ensures { result ≡ in_range vertices.now id }
{
    (id as usize) < vertices.len() / 3
}

// Does each of the three name a vertex?
#[tactic(auto, unfolding(crate::specs::Vertices::corners_in_range))]
pub fn corners_in_range(vertices: &[f32], corners: Triangle) -> bool
    ensures { result ≡ corners_in_range vertices.now corners }
{
    in_range(vertices, corners.a) & (in_range(vertices, corners.b) & in_range(vertices, corners.c))
}
