// `compute`: the takeoff of one mesh under an edition of the slope rule. It answers or refuses by the documents' table. The record comes by
// value, and beside it the pairs of its footprints; the surface rows stand in the lent surface area.
// Stays here: an edition by its number, since C passes any and an unknown one is refused with 7 (`check_of`), and `thresholds_of` is of
// every number; and the three lent areas apart, since C lends them so.
#![tactic(auto)]

ghost use Rattle.std.specs.Prelude.{◌≡◌, length};
ghost use Rattle.refusals.specs.inner.Admitted.{Admitted};
ghost use Rattle.qto.specs.Compute.{Computes, zero_takeoff};
ghost use Rattle.qto.specs.inner.Steps.{Arrangeable, Arranged, Measurable, Measured};
ghost use Rattle.qto.specs.inner.Steps.{Recordable, RecordedBy, Recorded};

use ids::Refusal;
use record::MeshQto;
use refusals::Check;
use sums::{Areas, Bounds};
use verdict::Sizes;
use volume::Pairs;
use walk::TriangleCounts;

// A mesh as the caller gave it.
#[derive(Clone, Copy)]
struct Mesh<'a> {
    vertices: &'a [f32],
    indices: &'a [u32],
    unit_scale: f32,
}

// ---- what is measured

#[derive(Clone, Copy)]
pub struct Extremes {
    pub largest: f32,
    pub smallest: f32,
}

// Scales the rows and puts them in order.
fn arrange(rows: &mut [f32], by: f32) -> Extremes
    requires { Arrangeable rows.old by }
    ensures { Arranged rows.old by result rows.new }
{
    rows::scale(rows, by);
    rows::sort(rows);
    let largest = rows::largest(rows);
    let smallest = rows::smallest(rows);
    Extremes { largest, smallest }
}

#[derive(Clone, Copy)]
pub struct Measures {
    pub volume: f32,
    pub surface: f32,
    pub areas: Areas,
    pub largest: f32,
    pub smallest: f32,
    pub count: usize,
    pub triangles: TriangleCounts,
}

// The sums over the mesh, and its surface rows.
fn measure(
    mesh: &Mesh,
    b: Bounds,
    edition: u32,
    index: &mut [u32],
    surfaces: &mut [f32],
) -> Measures
    requires { Measurable mesh.now.vertices.now mesh.now.indices.now b mesh.now.unit_scale edition
        index.old surfaces.old }
    ensures { Measured mesh.now.vertices.now mesh.now.indices.now mesh.now.unit_scale edition surfaces.old
        result surfaces.new }
{
    let square = mesh.unit_scale * mesh.unit_scale;
    let cube = std::num::f32_to_f64_with_nan(square * mesh.unit_scale);
    let w = walk::walk(
        mesh.vertices,
        mesh.indices,
        sums::origin(b),
        sums::thresholds_of(edition),
        index,
        surfaces,
    );
    let n = w.rows;
    let t = w.totals;
    let e = arrange(&mut surfaces[0..4 * n], square);
    Measures {
        volume: floats::narrow(t.volume6 / 6.0 * cube),
        surface: floats::narrow(t.surface * std::num::f32_to_f64_with_nan(square)),
        areas: t.areas.scaled(square),
        largest: e.largest,
        smallest: e.smallest,
        count: n,
        triangles: w.counts,
    }
}

// ---- the record

// The record of a mesh, and beside it the pairs of the z, y and x footprints: six zeros unless it is an open shell.
#[derive(Clone, Copy)]
pub struct Takeoff {
    pub qto: MeshQto,
    pub pairs: Pairs,
}

// The record of a mesh and its pairs, by its measures. Work words and raster are zero afterwards.
fn record_by(mesh: &Mesh, b: Bounds, m: Measures, work: &mut [u32], raster: &mut [u8]) -> Takeoff
    requires { Recordable mesh.now.vertices.now mesh.now.indices.now b m work.old raster.old }
    ensures { RecordedBy mesh.now.vertices.now mesh.now.indices.now mesh.now.unit_scale m
        result work.new raster.new }
{
    let cube = mesh.unit_scale * mesh.unit_scale * mesh.unit_scale;
    let aabb = sums::box_volume(b, cube);
    let eps = weld::epsilon(1e-4, mesh.unit_scale);
    let s = Sizes {
        volume: m.volume,
        surface: m.surface,
        aabb,
    };
    let q = verdict::classify_mesh_quality(mesh.vertices, mesh.indices, eps, s, work);
    let carried = volume::best_volume(q, s, mesh.vertices, mesh.indices, b, cube, raster);
    let best = carried.best;
    let qto = MeshQto {
        volume_m3: m.volume,
        aabb_volume_m3: aabb,
        surface_area_m2: m.surface,
        area_top_m2: m.areas.top,
        area_bottom_m2: m.areas.bottom,
        area_side_m2: m.areas.side,
        area_inclined_m2: m.areas.inclined,
        largest_surface_m2: m.largest,
        smallest_surface_m2: m.smallest,
        surface_count: m.count as u32,
        mesh_quality: q,
        volume_reliable: best.reliable,
        volume_method: best.method,
        volume_best_m3: best.volume,
        volume_prism_bound_m3: best.prism,
        profile_invalid: None,
        triangles_used: m.triangles.used,
        triangles_out_of_range: m.triangles.out_of_range,
        triangles_sliver: m.triangles.sliver,
    };
    Takeoff {
        qto,
        pairs: carried.pairs,
    }
}

// The full record and its pairs: parts of the lent areas from their front. The rows' index stands where the edge part will stand.
fn full(
    mesh: &Mesh,
    edition: u32,
    work: &mut [u32],
    raster: &mut [u8],
    surfaces: &mut [f32],
) -> Takeoff
    requires { Admitted mesh.now.vertices.now mesh.now.indices.now mesh.now.unit_scale edition
        (length work.old) (length raster.old) (length surfaces.old) }
    ensures { Recorded mesh.now.vertices.now mesh.now.indices.now mesh.now.unit_scale edition
        work.old raster.old surfaces.old
        result work.new raster.new surfaces.new }
{
    let b = sums::box_of(mesh.vertices);
    let n = 5 * (mesh.indices.len() / 3);
    let m = measure(mesh, b, edition, &mut work[0..n], surfaces);
    let words = refusals::work_words(mesh.vertices.len(), mesh.indices.len());
    let bytes = refusals::raster_bytes();
    record_by(mesh, b, m, &mut work[0..words], &mut raster[0..bytes])
}

// The zero record, and no pairs.
fn zero_takeoff() -> Takeoff
    ensures { result ≡ zero_takeoff }
{
    Takeoff {
        qto: MeshQto::zero(),
        pairs: volume::no_pairs(),
    }
}

// The takeoff of a mesh: the record and its pairs, or the one refusal that applies.
#[tactic(auto, using(refusals::proofs::Checks::admitted))]
pub fn compute(
    vertices: &[f32],
    indices: &[u32],
    unit_scale: f32,
    edition: u32,
    work: &mut [u32],
    raster: &mut [u8],
    surfaces: &mut [f32],
) -> Result<Takeoff, Refusal>
    ensures { Computes vertices.now indices.now unit_scale edition
        work.old raster.old surfaces.old
        result work.new raster.new surfaces.new }
{
    match refusals::checked(
        vertices,
        indices,
        unit_scale,
        edition,
        work.len(),
        raster.len(),
        surfaces.len(),
    )? {
        Check::Zero => Ok(zero_takeoff()),
        Check::Full => {
            let mesh = Mesh {
                vertices,
                indices,
                unit_scale,
            };
            Ok(full(&mesh, edition, work, raster, surfaces))
        }
    }
}
