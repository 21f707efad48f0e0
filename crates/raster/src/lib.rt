// `footprint_raw`: how much ground a mesh covers, counted in cells of a lent raster, and how many of these are on the rim. Internal:
// `volume` asks it for an open shell, and has the raster cleared for any other.
// Stays here: an area and how many of its bytes are meant, since what is left of a lent raster is said of the whole (`cleared`).
#![tactic(auto)]

ghost use Rattle.std.specs.Prelude.{◌≡◌, ◌≤◌, length};
ghost use Rattle.ids.specs.Lent.{cleared};
ghost use Rattle.grid.specs.Grid.{cells};
ghost use Rattle.grid.specs.inner.Sized.{GridSized};
ghost use Rattle.vertices.specs.Areas.{raster_bytes};
ghost use Rattle.vertices.specs.Vertices.{axis_number};
ghost use Rattle.raster.specs.Footprint.{window_of, no_cells, no_footprint, footprint_on, footprint};
ghost use Rattle.raster.specs.inner.Counts.{Counts};

use grid::Grid;
use paint::View;
pub use vertices::Axis;

// What is looked at: the axes u and v, from xmin to xmax on the first and from ymin to ymax on the second.
#[derive(Clone, Copy)]
pub struct Window {
    pub u: Axis,
    pub v: Axis,
    pub xmin: f32,
    pub xmax: f32,
    pub ymin: f32,
    pub ymax: f32,
}

// A footprint's cells: how many are covered, and how many of these are on the rim.
#[derive(Clone, Copy, PartialEq, Eq)]
pub struct Pair {
    pub covered: u32,
    pub rim: u32,
}

#[derive(Clone, Copy)]
pub struct Footprint {
    pub area: f32,
    pub cells: Pair,
}

// Stays: six numbers, since they are the fields of the struct that they make, which the definitions of `volume` and `qto` read by name.
pub fn window_on(u: Axis, v: Axis, xmin: f32, xmax: f32, ymin: f32, ymax: f32) -> Window
    ensures { result ≡ window_of u v xmin xmax ymin ymax }
{
    Window {
        u,
        v,
        xmin,
        xmax,
        ymin,
        ymax,
    }
}

pub fn no_cells() -> Pair
    ensures { result ≡ no_cells }
{
    Pair { covered: 0, rim: 0 }
}

// How many cells are covered, and how many of these are on the rim. Both in one pass with no branch: two filters would read the bytes
// twice.
fn tally(part: &[u8]) -> Pair
    requires { length part.now ≤ raster_bytes }
    ensures { Counts part.now result }
{
    let mut covered = 0u32;
    let mut rim = 0u32;
    for cell in part {
        covered += (*cell > 0) as u32;
        rim += (*cell == 1) as u32;
    }
    Pair { covered, rim }
}

// Zeroes the first n bytes: a step by name, which `volume` takes too where it has no footprint to make.
pub fn clear(area: &mut [u8], n: usize)
    requires { n ≤ length area.old }
    ensures { area.new ≡ cleared n area.old }
{
    area[..n].fill(0);
}

fn no_footprint() -> Footprint
    ensures { result ≡ no_footprint }
{
    Footprint {
        area: 0.0,
        cells: no_cells(),
    }
}

// The footprint on a grid, over a part of one byte a cell.
fn footprint_on(mesh: &View, g: Grid, part: &mut [u8]) -> Footprint
    requires { GridSized g × (length part.old ≡ cells g) }
    ensures { result ≡ footprint_on mesh.now.vertices.now (axis_number mesh.now.u) (axis_number mesh.now.v) mesh.now.ids.now g }
{
    part.fill(0);
    paint::paint_all(mesh, g, part);
    let cells = tally(part);
    Footprint {
        area: std::num::nearest_u32_to_f32(cells.covered) * g.columns.w * g.rows.w,
        cells,
    }
}

// The footprint. Of the raster only the first 65,536 bytes change, the most that a grid needs: clearing them leaves what clearing them
// before would have left.
fn footprint_over(vertices: &[f32], ids: &[u32], s: Window, raster: &mut [u8]) -> Footprint
    requires { raster_bytes ≤ length raster.old }
    ensures { (result ≡ footprint vertices.now ids.now s)
        × (cleared raster_bytes raster.new ≡ cleared raster_bytes raster.old) }
{
    let w = floats::greatest(s.xmax - s.xmin, 0.0);
    let h = floats::greatest(s.ymax - s.ymin, 0.0);
    let size = floats::greatest(w, h) / 256.0;
    if (w <= 0.0) | ((h <= 0.0) | (size <= 0.0)) {
        return no_footprint();
    }
    let g = grid::grid_over(s.xmin, s.ymin, w, h, size);
    let mesh = View {
        vertices,
        ids,
        u: s.u,
        v: s.v,
    };
    footprint_on(&mesh, g, &mut raster[..g.columns.n * g.rows.n])
}

// The area of the cells that the mesh covers in the window, how many they are, and how many of them are on the rim. The raster's first
// 65,536 bytes are zero afterwards, and the others as they were.
pub fn footprint_raw(vertices: &[f32], indices: &[u32], s: Window, raster: &mut [u8]) -> Footprint
    requires { raster_bytes ≤ length raster.old }
    ensures { (result ≡ footprint vertices.now indices.now s)
        × (raster.new ≡ cleared raster_bytes raster.old) }
{
    let found = footprint_over(vertices, indices, s, raster);
    clear(raster, 65536);
    found
}
