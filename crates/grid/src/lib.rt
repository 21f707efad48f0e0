// The point test, and the arithmetic of a grid of cells over a box. Internal: `paint` and `raster` use it.
#![tactic(auto)]

ghost use Rattle.std.specs.Prelude.{◌≡◌};
ghost use Rattle.grid.specs.Point.{place, place_number, counts as is_counted};
ghost use Rattle.grid.specs.Grid.{grid_of};
ghost use Rattle.grid.specs.inner.Edges.{edge_if};
ghost use Rattle.grid.specs.inner.Sized.{GridSized};

mod along; // the cells along one axis

pub use along::{Along, Span};

// A point of the plane.
#[derive(Clone, Copy)]
pub struct Point {
    pub x: f32,
    pub y: f32,
}

// A triangle in the plane.
#[derive(Clone, Copy)]
pub struct Flat {
    pub a: Point,
    pub b: Point,
    pub c: Point,
}

// Cells in columns and rows.
#[derive(Clone, Copy)]
pub struct Grid {
    pub columns: Along,
    pub rows: Along,
}

// Where a point lies by a triangle.
#[derive(Clone, Copy, PartialEq, Eq)]
pub enum Place {
    Inside,
    OnEdge,
    Outside,
}

// ---- the point test

// Of a point that is not outside: on an edge where one of the values is zero.
fn edge_if(zero: bool) -> Place
    ensures { result ≡ edge_if zero }
{
    if zero { Place::OnEdge } else { Place::Inside }
}

// Where the point lies. 000 asks for the signs of three differences. They are those of comparing the two products, since the difference
// of two unequal floats is never rounded to zero. Zero is asked of the difference itself: two infinite products are equal, and their
// difference is a NaN. The first sign decides which of the others matter.
pub fn point_in_triangle(p: Point, t: Flat) -> Place
    ensures { result ≡ place p t }
{
    let d = (p.x - t.b.x) * (t.a.y - t.b.y);
    let d_less = (t.a.x - t.b.x) * (p.y - t.b.y);
    let e = (p.x - t.c.x) * (t.b.y - t.c.y);
    let e_less = (t.b.x - t.c.x) * (p.y - t.c.y);
    let f = (p.x - t.a.x) * (t.c.y - t.a.y);
    let f_less = (t.c.x - t.a.x) * (p.y - t.a.y);
    if d < d_less {
        if (e_less < e) | (f_less < f) {
            return Place::Outside;
        }
        return edge_if((e - e_less == 0.0) | (f - f_less == 0.0));
    }
    if d_less < d {
        if (e < e_less) | (f < f_less) {
            return Place::Outside;
        }
        return edge_if((e - e_less == 0.0) | (f - f_less == 0.0));
    }
    if ((e < e_less) & (f_less < f)) | ((e_less < e) & (f < f_less)) {
        return Place::Outside; // though d may be zero
    }
    edge_if((d - d_less == 0.0) | ((e - e_less == 0.0) | (f - f_less == 0.0)))
}

// A number for each case: the further in, the greater.
impl From<Place> for u8 {
    ghost from_gives = { λ place n. n ≡ place_number place };

    #[tactic(auto, unfolding(crate::specs::Point::place_number))]
    fn from(place: Place) -> u8 {
        match place {
            Place::Inside => 2,
            Place::OnEdge => 1,
            Place::Outside => 0,
        }
    }
}

// Is the doubled area's magnitude not under 1e-12?
pub fn counts(t: Flat) -> bool
    ensures { result ≡ is_counted t }
{
    let d = (t.b.x - t.a.x) * (t.c.y - t.a.y) - (t.c.x - t.a.x) * (t.b.y - t.a.y);
    !((d < 1e-12) & (-d < 1e-12))
}

// ---- both axes

// The grid from (x, y) on over the lengths w and h.
#[tactic(auto, unfolding(crate::specs::Grid::grid_of))]
pub fn grid_over(x: f32, y: f32, w: f32, h: f32, size: f32) -> Grid
    ensures { (result ≡ grid_of x y w h size) × GridSized result }
{
    Grid {
        columns: Along::over(x, w, size),
        rows: Along::over(y, h, size),
    }
}
