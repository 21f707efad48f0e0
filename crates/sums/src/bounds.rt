// The box: the least and the greatest coordinates of all vertices, its minimum, by which corners are rebased, and its volume.
ghost use Rattle.std.specs.Prelude.{◌≡◌, suc, ◌<◌, false, is_nan};
ghost use Rattle.ieee.specs.Order.{greatest, least};
ghost use Rattle.ieee.specs.Single.{extent as extent_of};
ghost use Rattle.vertices.specs.Vertices.{vertex_count};
ghost use Rattle.sums.specs.Box.{box_to, box, origin as origin_of, box_volume};

// Stays: six fields by name, since 01's definitions `box_to`, `origin` and `box_volume`, and `volume` over them, name each.
#[derive(Clone, Copy)]
pub struct Bounds {
    pub xmin: f32,
    pub ymin: f32,
    pub zmin: f32,
    pub xmax: f32,
    pub ymax: f32,
    pub zmax: f32,
}

// The lesser and the greater of a bound, which is no NaN, and a coordinate.
// Stays: by one test, since each coordinate of the mesh comes here, and the functions of `floats` ask for a NaN besides.
fn lower(x: f32, y: f32) -> f32
    requires { is_nan x ≡ false }
    ensures { result ≡ least x y }
{
    if y < x { y } else { x }
}

fn higher(x: f32, y: f32) -> f32
    requires { is_nan x ≡ false }
    ensures { result ≡ greatest x y }
{
    if x < y { y } else { x }
}

// The bounds with vertex v.
fn with_vertex(vertices: &[f32], v: usize, b: Bounds) -> Bounds
    requires { (v < vertex_count vertices.now) × (b ≡ box_to vertices.now v) }
    ensures { result ≡ box_to vertices.now (suc v) }
{
    let at = 3 * v;
    let x = vertices[at];
    let y = vertices[at + 1];
    let z = vertices[at + 2];
    Bounds {
        xmin: lower(b.xmin, x),
        ymin: lower(b.ymin, y),
        zmin: lower(b.zmin, z),
        xmax: higher(b.xmax, x),
        ymax: higher(b.ymax, y),
        zmax: higher(b.zmax, z),
    }
}

// Those of no vertex.
fn no_bounds(vertices: &[f32]) -> Bounds
    ensures { result ≡ box_to vertices.now 0 }
{
    let up = f32::from_bits(0x7f80_0000);
    let down = f32::from_bits(0xff80_0000);
    Bounds {
        xmin: up,
        ymin: up,
        zmin: up,
        xmax: down,
        ymax: down,
        zmax: down,
    }
}

pub fn box_of(vertices: &[f32]) -> Bounds
    ensures { result ≡ box vertices.now }
{
    let mut b = no_bounds(vertices);
    for v in 0..vertices.len() / 3 {
        b = with_vertex(vertices, v, b);
    }
    b
}

// By what the corners are rebased.
pub fn origin(b: Bounds) -> [f64; 3]
    ensures { result ≡ origin_of b }
{
    [
        std::num::f32_to_f64_with_nan(b.xmin),
        std::num::f32_to_f64_with_nan(b.ymin),
        std::num::f32_to_f64_with_nan(b.zmin),
    ]
}

// The length from lo to hi, never below 0.
pub fn extent(lo: f32, hi: f32) -> f32
    ensures { result ≡ extent_of lo hi }
{
    floats::greatest(hi - lo, 0.0)
}

pub fn box_volume(b: Bounds, cube: f32) -> f32
    ensures { result ≡ box_volume b cube }
{
    let x = extent(b.xmin, b.xmax);
    let y = extent(b.ymin, b.ymax);
    let z = extent(b.zmin, b.zmax);
    x * y * z * cube
}
