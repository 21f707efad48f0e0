// For the differential runs alone, and in no header: what they ask of the port and C has no name for.
// Its static library is shipped to nobody.
#![tactic(auto)]

ghost use Rattle.std.specs.Prelude.{eqb, leb, ltb, length, replicate, ◌&&◌, cond, ◌++◌, ◌≡◌, ◌+◌, ◌*◌};
ghost use Rattle.std.specs.Float.{binary32};
ghost use Rattle.std.specs.Float.Ieee.{of_bits};
ghost use Rattle.ieee.specs.Cube.{cube_above};
ghost use Rattle.ieee.specs.Single.{nought};
ghost use Rattle.ids.specs.Lent.{cleared, most_entries};
ghost use Rattle.vertices.specs.Vertices.{vertex_count};
ghost use Rattle.weld.specs.Weld.{epsilon_of, welded};
ghost use Rattle.grid.specs.Point.{place, place_number};
ghost use Rattle.vertices.specs.Areas.{raster_bytes};
ghost use Rattle.raster.specs.Footprint.{footprint};
ghost use Rattle.probe.specs.inner.Asked.{axis_at, flat_at, point_at, window_at, words_of_pair};

use grid::{Flat, Point};
use ids::MOST_ENTRIES;
use raster::Axis;

#[unsafe(no_mangle)]
pub extern "C" fn probe_cube_above(s: u32, p: u32) -> bool
    ensures { result ≡ cube_above (of_bits binary32 s) (of_bits binary32 p) }
{
    floats::cube_above_bits(s, p)
}

#[unsafe(no_mangle)]
pub extern "C" fn probe_epsilon(distance: f32, unit: f32) -> f32
    ensures { result ≡ epsilon_of distance unit }
{
    weld::epsilon(distance, unit)
}

// The weld, where there are not too many vertices and the part has just the words needed; else nothing is done.
#[unsafe(no_mangle)]
pub extern "C" fn probe_welded_indices(
    vertices: &[f32],
    ids: &[u32],
    eps: f32,
    part: &mut [u32],
) -> bool
    ensures { (result ≡ (leb (length vertices.now) most_entries
        && eqb (length part.old) (8 * vertex_count vertices.now + length ids.now)))
        × (part.new ≡ cond result
        (replicate (8 * vertex_count vertices.now) 0 ++ welded vertices.now ids.now eps)
        part.old) }
{
    if MOST_ENTRIES < vertices.len() {
        return false;
    }
    let needed = 8 * (vertices.len() / 3) + ids.len();
    if part.len() == needed {
        weld::welded_indices(vertices, ids, eps, part);
        return true;
    }
    false
}

// Where does the point q, whose coordinates come first, lie by the triangle whose corners follow? 0 is outside, 1 on
// an edge, 2 inside.
#[unsafe(no_mangle)]
pub extern "C" fn probe_point_in_triangle(q: &[f32; 8]) -> u32
    ensures { result ≡ place_number (place (point_at q.now 0) (flat_at q.now)) }
{
    let p = Point { x: q[0], y: q[1] };
    let a = Point { x: q[2], y: q[3] };
    let b = Point { x: q[4], y: q[5] };
    let c = Point { x: q[6], y: q[7] };
    u8::from(grid::point_in_triangle(p, Flat { a, b, c })) as u32
}

// 0 is x, 1 is y, and any other number z.
fn axis(n: u32) -> Axis
    ensures { result ≡ axis_at n }
{
    if n == 0 {
        Axis::X
    } else if n == 1 {
        Axis::Y
    } else {
        Axis::Z
    }
}

// The footprint's area; `cells` gets how many are covered and how many of these are on the rim. All this where the raster is long enough;
// else nothing is done, and the answer is 0. The bounds are the least and the greatest on the first axis, then on the second.
#[unsafe(no_mangle)]
pub extern "C" fn probe_footprint_raw(
    vertices: &[f32],
    ids: &[u32],
    axes: &[u32; 2],
    bounds: &[f32; 4],
    area: &mut [u8],
    cells: &mut [u32; 2],
) -> f32
    ensures { (result ≡ cond (ltb (length area.old) raster_bytes) nought
        (footprint vertices.now ids.now (window_at axes.now bounds.now)).area)
        × (cells.new ≡ cond (ltb (length area.old) raster_bytes) cells.old
        (words_of_pair (footprint vertices.now ids.now (window_at axes.now bounds.now)).cells))
        × (area.new
        ≡ cond (ltb (length area.old) raster_bytes) area.old (cleared raster_bytes area.old)) }
{
    if area.len() < 65536 {
        return 0.0;
    }
    let u = axis(axes[0]);
    let v = axis(axes[1]);
    let s = raster::window_on(u, v, bounds[0], bounds[1], bounds[2], bounds[3]);
    let found = raster::footprint_raw(vertices, ids, s, area);
    let pair = found.cells;
    *cells = [pair.covered, pair.rim];
    found.area
}
