// Triangles on a raster of one byte a cell: which cells they cover, and which of these by edges alone. Internal: `raster` asks it.
#![tactic(auto)]

ghost use Rattle.std.specs.Prelude.{◌≡◌, ◌&&◌, ◌+◌, ◌*◌, ◌<◌, max, eqb, true, length};
ghost use Rattle.ids.specs.Triangles.{triangle, triangle_count};
ghost use Rattle.vertices.specs.Vertices.{axis_number, corners_in_range, coordinate as coordinate_of};
ghost use Rattle.grid.specs.Point.{place, place_number};
ghost use Rattle.grid.specs.Grid.{cells, by_cell};
ghost use Rattle.grid.specs.inner.Centred.{Centred};
ghost use Rattle.grid.specs.inner.Sized.{GridSized};
ghost use Rattle.paint.specs.Covered.{point as point_of, flat as flat_of, between, cell_lies, lies};
ghost use Rattle.paint.specs.inner.Painted.{only_if, centre_number, cell_number, Adds};

use grid::{Flat, Grid, Point, Span};
use ids::Triangle;
use vertices::Axis;

// A mesh, seen along the axis that is neither u nor v.
#[derive(Clone, Copy)]
pub struct View<'a> {
    pub vertices: &'a [f32],
    pub ids: &'a [u32],
    pub u: Axis,
    pub v: Axis,
}

// A grid, and the centres of its columns. Every row asks for them, so they are worked out once.
#[derive(Clone, Copy)]
struct Sheet<'a> {
    grid: Grid,
    centres: &'a [f32; 256],
    ghost whole: { length centres.now ≡ 256 },
    ghost centred: { Centred grid.columns centres.now },
    ghost sized: { GridSized grid },
}

// ---- one triangle in the plane

// The cell becomes the number of where the point lies, if that is greater. 2, inside, is the greatest: such a cell is not tested again.
#[tactic(auto, using(crate::proofs::Numbers::most_two))]
fn mark(cell: &mut u8, p: Point, t: Flat)
    ensures { cell.new ≡ max cell.old (place_number (place p t)) }
{
    if *cell < 2 {
        let number = u8::from(grid::point_in_triangle(p, t));
        // Stays: no `max`, which stores for each cell that is outside: the footprint of a sphere took a tenth longer by it.
        if *cell < number {
            *cell = number;
        }
    }
}

// Stays: the bytes beside the sheet, though they are always as many as its grid has cells, since they are lent to be written while the
// sheet is only read: in one struct, each clause would name a field behind two references, and the sheet would be lent as `&mut`.
impl Sheet<'_> {
    // The cells of row j in some columns.
    fn paint_row(&self, part: &mut [u8], t: Flat, columns: Span, j: usize)
        requires { (columns.last < self.now.grid.columns.n) × (j < self.now.grid.rows.n) × (length part.old ≡ cells self.now.grid) }
        ensures { Adds part.old part.new
            (by_cell self.now.grid (λ i k. only_if (eqb k j && between columns.first columns.last i) (centre_number self.now.grid t i k))) }
    {
        let y = self.grid.rows.centre(j);
        for i in columns.first..columns.last + 1 {
            let x = self.centres[i];
            mark(&mut part[j * self.grid.columns.n + i], Point { x, y }, t);
        }
    }

    // Those of some rows.
    fn paint_box(&self, part: &mut [u8], t: Flat, columns: Span, rows: Span)
        requires { (columns.last < self.now.grid.columns.n) × (rows.last < self.now.grid.rows.n)
            × (length part.old ≡ cells self.now.grid) }
        ensures { Adds part.old part.new
            (by_cell self.now.grid (λ i j. only_if (between rows.first rows.last j && between columns.first columns.last i)
            (centre_number self.now.grid t i j))) }
    {
        for j in rows.first..rows.last + 1 {
            self.paint_row(part, t, columns, j);
        }
    }

    // The cells that a triangle in the plane has inside or on an edge.
    fn paint(&self, part: &mut [u8], t: Flat)
        requires { length part.old ≡ cells self.now.grid }
        ensures { Adds part.old part.new
            (by_cell self.now.grid (λ i j. place_number (cell_lies self.now.grid t i j))) }
    {
        if grid::counts(t) {
            let columns = self.grid.columns.span(t.a.x, t.b.x, t.c.x);
            let rows = self.grid.rows.span(t.a.y, t.b.y, t.c.y);
            self.paint_box(part, t, columns, rows);
        }
    }

    // Those that triangle t of the list has: none where an id is out of range.
    fn paint_triangle(&self, part: &mut [u8], mesh: &View, t: usize)
        requires { (t < triangle_count mesh.now.ids.now) × (length part.old ≡ cells self.now.grid) }
        ensures { Adds part.old part.new
            (by_cell self.now.grid (λ i j. place_number (lies mesh.now.vertices.now (axis_number mesh.now.u) (axis_number mesh.now.v)
            self.now.grid (triangle mesh.now.ids.now t) i j))) }
    {
        let corners = Triangle::of(mesh.ids, t);
        if vertices::corners_in_range(mesh.vertices, corners) {
            self.paint(part, mesh.flat(corners));
        }
    }

    // Those that all triangles have, one after the other.
    fn paint_triangles(&self, part: &mut [u8], mesh: &View)
        requires { length part.old ≡ cells self.now.grid }
        ensures { Adds part.old part.new
            (by_cell self.now.grid (cell_number mesh.now.vertices.now (axis_number mesh.now.u) (axis_number mesh.now.v)
            self.now.grid mesh.now.ids.now)) }
    {
        for t in 0..mesh.ids.len() / 3 {
            self.paint_triangle(part, mesh, t);
        }
    }
}

// ---- one triangle of the mesh

// A vertex's coordinate on an axis.
fn coordinate(vertices: &[f32], axis: Axis, id: u32) -> f32
    requires { 3 * id + 2 < length vertices.now }
    ensures { result ≡ coordinate_of vertices.now (axis_number axis) id }
{
    vertices[3 * id as usize + usize::from(axis)]
}

impl View<'_> {
    // A vertex in the plane of u and v.
    fn point(&self, id: u32) -> Point
        requires { 3 * id + 2 < length self.now.vertices.now }
        ensures { result ≡ point_of self.now.vertices.now (axis_number self.now.u) (axis_number self.now.v) id }
    {
        Point {
            x: coordinate(self.vertices, self.u, id),
            y: coordinate(self.vertices, self.v, id),
        }
    }

    // Three of them.
    fn flat(&self, t: Triangle) -> Flat
        requires { corners_in_range self.now.vertices.now t ≡ true }
        ensures { result ≡ flat_of self.now.vertices.now (axis_number self.now.u) (axis_number self.now.v) t }
    {
        Flat {
            a: self.point(t.a),
            b: self.point(t.b),
            c: self.point(t.c),
        }
    }
}

// ---- all triangles

// Each byte becomes the greatest number of its cell by any triangle, or stays what it was where that is greater.
pub fn paint_all(mesh: &View, g: Grid, part: &mut [u8])
    requires { GridSized g × (length part.old ≡ cells g) }
    ensures { Adds part.old part.new
        (by_cell g (cell_number mesh.now.vertices.now (axis_number mesh.now.u) (axis_number mesh.now.v) g mesh.now.ids.now)) }
{
    let mut centres = [0f32; 256];
    g.columns.centres(&mut centres);
    let sheet = Sheet {
        grid: g,
        centres: &centres,
    };
    sheet.paint_triangles(part, mesh);
}
