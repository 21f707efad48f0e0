// The cells of a weld: which cell a vertex is in, and a table in lent words of the first vertex in each. Internal: `weld` asks it, and
// `surfaces` has an integer as an unsigned number from here.
#![tactic(auto)]

ghost use Rattle.std.specs.Prelude.{◌≡◌, ◌+◌, ◌-◌, ◌*◌, ◌/◌, ◌%◌, ◌^◌, ◌<◌, min, length, get_or, set};
ghost use Rattle.vertices.specs.Vertices.{vertex_count};
ghost use Rattle.cells.specs.Cells.{cell_of};
ghost use Rattle.cells.specs.inner.Table.{coded as coded_of, vertex_code, Welds, Weldable};

use patterns::Binary;
use slots::{Code, Wide};

// ---- the cell of a vertex

// An integer as an unsigned number: twice it, or for one below zero twice what is left of it above -1, and one more.
pub fn coded(z: i64) -> u64
    ensures { result ≡ coded_of z }
{
    if z >= 0 {
        2 * z as u64
    } else {
        2 * (-1 - z) as u64 + 1
    }
}

// The same of a size and a sign, which is 1 below zero: twice the size, and one less below zero, unless that is 0.
pub fn coded_size(sign: u64, n: u64) -> u64
    requires { n < 2 ^ 63 }
    ensures { result ≡ 2 * n - min sign n }
{
    2 * n - sign.min(n)
}

// The cell of a coordinate. A NaN, whose cell is 0, goes first. Below 2^52 the number comes from the pattern's fields, with no
// float or signed integer between.
fn cell(x: f32, inv: f64) -> u64
    ensures { result ≡ coded_of (cell_of inv x) }
{
    if x.is_nan() {
        return 0;
    }
    let y = x as f64 * inv;
    let b = floats::bits(y);
    let e = b % f64::SIGN / f64::FIELD;
    if e < 1075 {
        coded_size(b / f64::SIGN, rounding::half_size::<f64>(b))
    } else {
        coded(floats::to_integer(y))
    }
}

// The cell of vertex v.
#[tactic(auto, unfolding(crate::specs::Cells::cell_at))]
fn cell_at(vertices: &[f32], v: usize, inv: f64) -> Code
    requires { v < vertex_count vertices.now }
    ensures { result ≡ vertex_code vertices.now inv v }
{
    let at = 3 * v;
    Code {
        x: cell(vertices[at], inv),
        y: cell(vertices[at + 1], inv),
        z: cell(vertices[at + 2], inv),
    }
}

// ---- the table

// Vertex v becomes another: the upper half of its word.
fn note(part: &mut [u32], v: usize, name: usize)
    requires { (v < length part.old) × (name < 65536) }
    ensures { part.new ≡ set part.old v (get_or part.old v 0 % 65536 + 65536 * name) }
{
    part[v] = part[v] % 65536 + 65536 * name as u32;
}

// Enters vertex v.
fn enter(vertices: &[f32], inv: f64, part: &mut [u32], v: usize)
    requires { Weldable vertices.now inv part.old v × (v < vertex_count vertices.now) }
    ensures { Welds (vertex_count vertices.now) vertices.now inv part.new (v + 1) }
{
    let n = vertices.len() / 3;
    let k = cell_at(vertices, v, inv);
    match slots::find::<Wide>(part, n, k) {
        Ok(first) => note(part, v, first),
        Err(free) => {
            slots::claim::<Wide>(part, n, free, v, k);
            note(part, v, v);
        }
    }
}

// Enters all vertices.
pub fn gather(vertices: &[f32], inv: f64, part: &mut [u32])
    requires { Weldable vertices.now inv part.old 0 }
    ensures { Welds (vertex_count vertices.now) vertices.now inv part.new
        (vertex_count vertices.now) }
{
    for v in 0..vertices.len() / 3 {
        enter(vertices, inv, part, v);
    }
}
