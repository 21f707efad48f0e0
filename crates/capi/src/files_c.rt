// Files under the names of the C interface: each is the routine of its crate, and its answer as a number.
// Stays here: slices and numbers, since that is the C interface; what makes numbers of answers is a function, since neither Result nor
// Option nor u32 is a type of this crate.
ghost use Rattle.std.specs.Prelude.{◌≡◌};
ghost use Rattle.meshfile.specs.Numbers.{WritesNumbered, ReadsNumbered};
ghost use Rattle.stl.specs.Reading.{most_triangles, most_large};
ghost use Rattle.stl.specs.Numbers.{stl_number, ReadsStlNumbered};
ghost use Rattle.stl.specs.inner.FewTriangles.{FewTriangles};

use crate::ids_c::refused;
use ids::Refusal;

// ---- STL

#[tactic(auto, unfolding(stl::specs::Numbers::stl_number))]
fn stl_number(answer: Result<usize, Refusal>) -> u32
    requires { FewTriangles answer }
    ensures { result ≡ stl_number answer }
{
    match answer {
        Ok(n) => n as u32,
        Err(refusal) => refused(refusal),
    }
}

#[unsafe(no_mangle)]
pub extern "C" fn mf_read_stl(bytes: &[u8], vertices: &mut [f32], ids: &mut [u32]) -> u32
    ensures { ReadsStlNumbered most_triangles bytes.now vertices.old ids.old result
        vertices.new ids.new }
{
    stl_number(stl::read(bytes, vertices, ids))
}

#[unsafe(no_mangle)]
pub extern "C" fn mf_read_stl_large(bytes: &[u8], vertices: &mut [f32], ids: &mut [u32]) -> u32
    ensures { ReadsStlNumbered most_large bytes.now vertices.old ids.old result
        vertices.new ids.new }
{
    stl_number(stl::read_large(bytes, vertices, ids))
}

// ---- the mesh file, all its numbers as patterns

// The file of a unit, vertices, ids and flags, and its length; or a refusal, which leaves the bytes as they were.
#[unsafe(no_mangle)]
pub extern "C" fn mf_write_mesh(
    unit: u32,
    vertices: &[u32],
    ids: &[u32],
    clip: u32,
    defect: u32,
    bytes: &mut [u8],
) -> u32
    ensures { WritesNumbered
        (record { unit = unit; vertices = vertices.now; ids = ids.now; clip = clip; defect = defect })
        bytes.old result bytes.new }
{
    if !record::flags_fit(clip, defect) {
        return refused(Refusal::File);
    }
    let answer = meshfile::write(
        unit,
        vertices,
        ids,
        clip == 1,
        record::profile_of(defect),
        bytes,
    );
    match answer {
        Ok(length) => length as u32,
        Err(cause) => refused(cause),
    }
}

// A file's vertices and ids, and in counts their numbers, the unit and the flags; or a refusal, which leaves all as it was.
#[unsafe(no_mangle)]
pub extern "C" fn mf_read_mesh(
    bytes: &[u8],
    vertices: &mut [u32],
    ids: &mut [u32],
    counts: &mut [u32; 5],
) -> u32
    ensures { ReadsNumbered bytes.now vertices.old ids.old counts.old result
        vertices.new ids.new counts.new }
{
    let answer = meshfile::read_bits(bytes, vertices, ids);
    match answer {
        Ok(m) => {
            let profile = m.profile;
            *counts = [
                m.floats as u32,
                m.ids as u32,
                m.unit,
                m.clip as u32,
                record::profile_number(profile),
            ];
            0
        }
        Err(fault) => refused(fault),
    }
}
