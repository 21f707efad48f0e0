// `welded_indices`: vertices in one cell become the first of them. Internal: `verdict` asks it where the given ids are not boundary-free,
// and has given ids laid into its area by `lay`; `qto` asks for ε.
// Stays here: an area and how many words stand in front apart: the table's words come first and go, the ids behind them stay.
#![tactic(auto)]

ghost use Rattle.std.specs.Prelude.{◌≡◌, ◌+◌, ◌*◌, ◌≤◌, ◌++◌, length, take, map, replicate};
ghost use Rattle.vertices.specs.Vertices.{vertex_count};
ghost use Rattle.weld.specs.Weld.{epsilon_of, weld_all, welded};
ghost use Rattle.weld.specs.inner.Mapped.{id_by, WeldFits};

// ε of a distance in metres and the metres a unit.
#[tactic(auto, unfolding(crate::specs::Weld::epsilon_of))]
pub fn epsilon(distance: f32, unit: f32) -> f32
    ensures { result ≡ epsilon_of distance unit }
{
    distance / floats::greatest(unit, 1e-12)
}

// ---- ids

// An id by the words of the vertices' names.
#[tactic(auto, unfolding(crate::specs::inner::Mapped::id_by, cells::specs::inner::Table::name_in))]
fn id_by(names: &[u32], id: u32) -> u32
    ensures { result ≡ id_by names.now id }
{
    match names.get(id as usize) {
        Some(word) => *word / 65536,
        None => id,
    }
}

// All ids by them.
fn map_ids(ids: &[u32], names: &[u32], to: &mut [u32])
    requires { length to.old ≡ length ids.now }
    ensures { to.new ≡ map (id_by names.now) ids.now }
{
    for (i, id) in ids.iter().enumerate() {
        to[i] = id_by(names, *id);
    }
}

// The weld by 1/ε.
fn weld(vertices: &[f32], ids: &[u32], inv: f64, part: &mut [u32])
    requires { WeldFits vertices.now ids.now part.old }
    ensures { part.new
        ≡ replicate (8 * vertex_count vertices.now) 0 ++ weld_all vertices.now inv ids.now }
{
    let n = vertices.len() / 3;
    let (front, back) = part.split_at_mut(8 * n);
    table::clear(front, 2 * n);
    cells::gather(vertices, inv, front);
    map_ids(ids, &front[..n], back);
    front.fill(0);
}

// The ids as they are.
// Stays: word by word, since `copy_from_slice` asks for memmove, and the header says that the library needs memset alone.
fn copy_ids(ids: &[u32], to: &mut [u32])
    requires { length to.old ≡ length ids.now }
    ensures { to.new ≡ ids.now }
{
    for (i, id) in ids.iter().enumerate() {
        to[i] = *id;
    }
}

// The ids as they are, behind m words that stay.
pub fn lay(ids: &[u32], part: &mut [u32], m: usize)
    requires { length part.old ≡ m + length ids.now }
    ensures { part.new ≡ take m part.old ++ ids.now }
{
    copy_ids(ids, &mut part[m..]);
}

// The same, behind m words that are then zero.
fn keep(ids: &[u32], part: &mut [u32], m: usize)
    requires { length part.old ≡ m + length ids.now }
    ensures { part.new ≡ replicate m 0 ++ ids.now }
{
    lay(ids, part, m);
    part[..m].fill(0);
}

// The ids after the weld at eps, behind 8 words a vertex that are then zero: no cell is left that tells the position.
pub fn welded_indices(vertices: &[f32], indices: &[u32], eps: f32, part: &mut [u32])
    requires { WeldFits vertices.now indices.now part.old }
    ensures { part.new
        ≡ replicate (8 * vertex_count vertices.now) 0 ++ welded vertices.now indices.now eps }
{
    let m = 8 * (vertices.len() / 3);
    if eps.is_nan() | ((eps <= 0.0) | (vertices.len() < 3)) {
        keep(indices, part, m);
        return;
    }
    weld(
        vertices,
        indices,
        1.0 / std::num::f32_to_f64_with_nan(eps),
        part,
    );
}
