// One triangle of a mesh: its cross product, its volume term and its length, and the facet that it adds.
ghost use Rattle.std.specs.Prelude.{◌≡◌, ◌<◌, ◌≤◌, T, length};
ghost use Rattle.std.specs.Float.{binary64};
ghost use Rattle.ieee.specs.Root.{root};
ghost use Rattle.ids.specs.Lent.{most_entries};
ghost use Rattle.ids.specs.Triangles.{triangle, triangle_count};
ghost use Rattle.vertices.specs.Vertices.{vertex_count};
ghost use Rattle.sums.specs.Facet.{minus as minus_of, cross as cross_of, dot as dot_of, normal as normal_of, tetra as tetra_of};
ghost use Rattle.sums.specs.Facet.{part_of, rebased, part};
ghost use Rattle.sums.specs.Fine.{all_fine};
ghost use Rattle.sums.specs.inner.Prepared.{no_triangle, facet_by, part_in, HasRoot, with_root};

use ids::Triangle;

// ---- three numbers
// Stays: arrays and functions, since the definitions `minus`, `cross` and `dot` are of lists, and a `Sub` would be for two differences.

// u - v
fn minus(u: [f64; 3], v: [f64; 3]) -> [f64; 3]
    ensures { result ≡ minus_of u v }
{
    [u[0] - v[0], u[1] - v[1], u[2] - v[2]]
}

// u × v
fn cross(u: [f64; 3], v: [f64; 3]) -> [f64; 3]
    ensures { result ≡ cross_of u v }
{
    [
        u[1] * v[2] - u[2] * v[1],
        u[2] * v[0] - u[0] * v[2],
        u[0] * v[1] - u[1] * v[0],
    ]
}

// u · v
fn dot(u: [f64; 3], v: [f64; 3]) -> f64
    ensures { result ≡ dot_of u v }
{
    u[0] * v[0] + u[1] * v[1] + u[2] * v[2]
}

// ---- a triangle: three corners of three coordinates

// The cross product of the two sides that leave the first corner.
fn normal(t: [[f64; 3]; 3]) -> [f64; 3]
    ensures { result ≡ normal_of t }
{
    let [a, b, c] = t;
    cross(minus(b, a), minus(c, a))
}

// a · (b × c): six times the volume of the tetrahedron on the triangle and the origin.
fn tetra(t: [[f64; 3]; 3]) -> f64
    ensures { result ≡ tetra_of t }
{
    let [a, b, c] = t;
    dot(a, cross(b, c))
}

// What a used triangle adds: its area, also as f32, its volume term, and its unit normal.
#[derive(Clone, Copy)]
pub struct Facet {
    pub area: f64,
    pub area32: f32,
    pub volume: f64,
    pub nx: f32,
    pub ny: f32,
    pub nz: f32,
}

// ---- a triangle on its way, in two stages: first its cross product and volume term are there, then the length. Between them the
// triangle before it gets its length, and behind them the one before that is taken, so that a processor works at all three.

// The cross product n, its square and its length, which is 0 until the second stage, and the volume term.
// Stays: a flag beside the numbers, since an Option of them was tried, and takes 16 instructions and 3 branches a triangle more.
#[derive(Clone, Copy)]
pub struct Prepared {
    pub in_range: bool,
    pub square: f64,
    pub length: f64,
    pub nx: f64,
    pub ny: f64,
    pub nz: f64,
    pub volume: f64,
}

// One that adds nothing.
pub fn nothing() -> Prepared
    ensures { result ≡ no_triangle }
{
    Prepared {
        in_range: false,
        square: 0.0,
        length: 0.0,
        nx: 0.0,
        ny: 0.0,
        nz: 0.0,
        volume: 0.0,
    }
}

// The triangle with these corners.
fn cross_corners(t: [[f64; 3]; 3]) -> Prepared
    ensures { part_in result ≡ part_of t }
{
    let n = normal(t);
    Prepared {
        in_range: true,
        square: dot(n, n),
        length: 0.0,
        nx: n[0],
        ny: n[1],
        nz: n[2],
        volume: tetra(t),
    }
}

// Vertex v less the origin. No float is a NaN, so the cast loses nothing.
fn corner(vertices: &[f32], origin: [f64; 3], v: usize) -> [f64; 3]
    requires { (v < vertex_count vertices.now) × T (all_fine vertices.now) }
    ensures { result ≡ rebased vertices.now origin v }
{
    let at = 3 * v;
    let x = vertices[at] as f64;
    let y = vertices[at + 1] as f64;
    let z = vertices[at + 2] as f64;
    [x - origin[0], y - origin[1], z - origin[2]]
}

// Triangle t; nothing where there is none.
pub fn cross_at(vertices: &[f32], indices: &[u32], origin: [f64; 3], t: usize) -> Prepared
    requires { (length indices.now ≤ most_entries) × T (all_fine vertices.now) }
    ensures { t < triangle_count indices.now
        → part_in result ≡ part vertices.now origin (triangle indices.now t) }
{
    if indices.len() / 3 <= t {
        return nothing();
    }
    let corners = Triangle::of(indices, t);
    if !vertices::corners_in_range(vertices, corners) {
        return nothing();
    }
    let p = corner(vertices, origin, corners.a as usize);
    let q = corner(vertices, origin, corners.b as usize);
    let r = corner(vertices, origin, corners.c as usize);
    cross_corners([p, q, r])
}

// The root of a square. The two triangles of a flat rectangle have one square, so the root is often known. Only zeros are equal and not the
// same.
fn length_of(square: f64, last: f64, length: f64) -> f64
    requires { length ≡ root binary64 last }
    ensures { result ≡ root binary64 square }
{
    if (square == last) & (0.0 < square) {
        length
    } else {
        floats::root64(square)
    }
}

// A triangle's second stage, behind another whose length is known.
pub fn with_root(r: Prepared, last: Prepared) -> Prepared
    requires { HasRoot last }
    ensures { result ≡ with_root r }
{
    Prepared {
        length: length_of(r.square, last.square, last.length),
        ..r
    }
}

// The facet of one that is in range and no sliver.
pub fn facet_by(r: Prepared) -> Facet
    ensures { result ≡ facet_by r }
{
    let area = 0.5 * r.length;
    let inv = 1.0 / r.length;
    Facet {
        area,
        area32: floats::narrow(area),
        volume: r.volume,
        nx: floats::narrow(r.nx * inv),
        ny: floats::narrow(r.ny * inv),
        nz: floats::narrow(r.nz * inv),
    }
}
