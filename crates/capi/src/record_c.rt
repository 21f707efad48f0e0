// The record under the name of the C interface: `compute` with its flags, and the answer as a number and 26 words.
// Stays here: slices and numbers, since that is the C interface; what makes numbers of answers is a function, since neither Result nor
// Option nor u32 is a type of this crate.
ghost use Rattle.std.specs.Prelude.{◌≡◌};
ghost use Rattle.record.specs.Numbers.{prism_number, prism_bits};
ghost use Rattle.qto.specs.Numbers.{words_of, ComputesNumbered};

use crate::ids_c::refused;
use ids::Refusal;
use qto::Takeoff;

// ---- the prism bound as numbers

// Was the bound computed?
#[tactic(auto, unfolding(record::specs::Numbers::prism_number))]
fn prism_number(prism: Option<f32>) -> u32
    ensures { result ≡ prism_number prism }
{
    match prism {
        None => 0,
        Some(_) => 1,
    }
}

// Its bits, and 0 where it was not.
#[tactic(auto, unfolding(record::specs::Numbers::prism_bits))]
fn prism_bits(prism: Option<f32>) -> u32
    ensures { result ≡ prism_bits prism }
{
    match prism {
        None => 0,
        Some(p) => floats::bits(p),
    }
}

// ---- the record and its pairs as words

fn record_words(t: Takeoff) -> [u32; 26]
    ensures { result ≡ words_of t }
{
    let q = t.qto;
    let pairs = t.pairs;
    [
        u32::from(q.mesh_quality),
        q.volume_reliable as u32,
        u32::from(q.volume_method),
        record::profile_number(q.profile_invalid),
        floats::bits(q.volume_m3),
        floats::bits(q.aabb_volume_m3),
        floats::bits(q.surface_area_m2),
        floats::bits(q.area_top_m2),
        floats::bits(q.area_bottom_m2),
        floats::bits(q.area_side_m2),
        floats::bits(q.area_inclined_m2),
        floats::bits(q.largest_surface_m2),
        floats::bits(q.smallest_surface_m2),
        floats::bits(q.volume_best_m3),
        prism_number(q.volume_prism_bound_m3),
        prism_bits(q.volume_prism_bound_m3),
        q.surface_count,
        q.triangles_used,
        q.triangles_out_of_range,
        q.triangles_sliver,
        pairs.z.covered,
        pairs.z.rim,
        pairs.y.covered,
        pairs.y.rim,
        pairs.x.covered,
        pairs.x.rim,
    ]
}

// The takeoff of a mesh under an edition, with its flags: fills the record and answers 0, or refuses and leaves all as it was.
#[unsafe(no_mangle)]
pub extern "C" fn mf_compute(
    vertices: &[f32],
    ids: &[u32],
    unit: f32,
    edition: u32,
    clip: u32,
    defect: u32,
    work: &mut [u32],
    raster: &mut [u8],
    surfaces: &mut [f32],
    record: &mut [u32; 26],
) -> u32
    ensures { ComputesNumbered vertices.now ids.now unit edition clip defect
        work.old raster.old surfaces.old «record».old
        result work.new raster.new surfaces.new «record».new }
{
    if !record::flags_fit(clip, defect) {
        return refused(Refusal::File);
    }
    let answer = qto::compute(vertices, ids, unit, edition, work, raster, surfaces);
    match answer {
        Ok(t) => {
            let qto = t
                .qto
                .apply_product_flags(clip == 1, record::profile_of(defect));
            *record = record_words(Takeoff { qto, ..t });
            0
        }
        Err(refusal) => refused(refusal),
    }
}
