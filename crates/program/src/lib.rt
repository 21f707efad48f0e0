// What the programs `takeoff` and `takeoff_stl` do between reading and writing: the bytes of a mesh file or of an STL in, the bytes of its
// listing or of `refused N` out.
// Stays here: bytes and how many were kept apart: `PrintsFront`, which CLAIMS cites, speaks of both.
#![tactic(auto)]

ghost use Rattle.std.specs.Prelude.{◌≡◌, ◌+◌, ◌*◌, ◌/◌, ◌≤◌, length, take, IfOk};
ghost use Rattle.ids.specs.Pieces.{share_edge, pieces as pieces_in};
ghost use Rattle.ids.specs.Refusal.{refusal_number};
ghost use Rattle.rows.specs.Rows.{rows_of};
ghost use Rattle.record.specs.Flags.{flagged};
ghost use Rattle.listing.specs.Listing.{listing_of, refused_line};
ghost use Rattle.listing.specs.Lists.{head_bytes};
ghost use Rattle.program.specs.Program.{mesh_text, text_of, Prints};
ghost use Rattle.program.specs.Promises.{PrintsFront};
ghost use Rattle.program.specs.StlText.{stl_text_of};
ghost use Rattle.program.specs.inner.Read.{OfTriangles, read_text};

use ids::Refusal;
use meshfile::MeshFile;
use record::MeshQto;

// How many bytes of its input a program keeps. The longest file has one byte less, so these decide about all input (`PrintsFront`).
pub const KEPT: usize = 12319;

// The same for an STL: the longest has 170 triangles.
pub const STL_KEPT: usize = 8585;

// How many bytes the longest listing asks for: 512 rows.
pub const TEXT: usize = 18784;

// The edition of the slope rule that both programs name.
pub const EDITION: u32 = 1;

// The number of pieces: with this work area it is never refused.
fn pieces_of(ids: &[u32], work: &mut [u32]) -> u32
    requires { (length ids.now ≤ 1536) × (512 ≤ length work.old) }
    ensures { result ≡ pieces_in share_edge ids.now }
{
    pieces::pieces(ids, work).unwrap()
}

// `refused N`.
fn print_refusal(refusal: Refusal, text: &mut [u8]) -> usize
    requires { head_bytes ≤ length text.old }
    ensures { Prints (refused_line (refusal_number refusal)) text.old result text.new }
{
    listing::list_refusal(refusal, text).unwrap()
}

// The listing of a record with the file's flags.
fn print_record(
    q: MeshQto,
    m: MeshFile<f32>,
    count: u32,
    surfaces: &[f32],
    text: &mut [u8],
) -> usize
    requires { (4 * q.surface_count ≤ length surfaces.now) × (head_bytes + 36 * q.surface_count ≤ length text.old) }
    ensures { Prints
        (listing_of (flagged m.clip m.profile q) (rows_of (take (4 * q.surface_count) surfaces.now)) count)
        text.old result text.new }
{
    let profile = m.profile;
    let flagged = q.apply_product_flags(m.clip, profile);
    listing::list(flagged, surfaces, count, text).unwrap()
}

// The mesh of a file: its listing, or the refusal of the documents' table.
fn print_mesh(m: MeshFile<f32>, vertices: &[f32], ids: &[u32], text: &mut [u8]) -> usize
    requires { (length vertices.now ≤ 1536) × (length ids.now ≤ 1536) × (length text.old ≡ 18784) }
    ensures { Prints (mesh_text vertices.now ids.now m.unit m.clip m.profile)
        text.old result text.new }
{
    let mut work = [0u32; 13824];
    let mut raster = [0u8; 65536];
    let mut surfaces = [0f32; 2048];
    let count = pieces_of(ids, &mut work);
    let answer = qto::compute(
        vertices,
        ids,
        m.unit,
        EDITION,
        &mut work,
        &mut raster,
        &mut surfaces,
    );
    match answer {
        Ok(t) => print_record(t.qto, m, count, &surfaces, text),
        Err(why) => print_refusal(why, text),
    }
}

// What was read: its mesh, with its floats and ids first in the two areas, or the refusal.
fn print_read(
    found: Result<MeshFile<f32>, Refusal>,
    vertices: &[f32],
    ids: &[u32],
    text: &mut [u8],
) -> usize
    requires few { IfOk found (λ m. (m.floats ≤ 1536) × (m.ids ≤ 1536)) }
    requires areas { (length vertices.now ≡ 1536) × (length ids.now ≡ 1536) × (length text.old ≡ 18784) }
    ensures { Prints (read_text vertices.now ids.now found) text.old result text.new }
{
    match found {
        Ok(m) => print_mesh(m, &vertices[..m.floats], &ids[..m.ids], text),
        Err(refusal) => print_refusal(refusal, text),
    }
}

// The bytes of its input that a program has kept: the first n of the area, or all.
fn kept(bytes: &[u8], n: usize) -> &[u8]
    ensures { result.now ≡ take n bytes.now }
{
    &bytes[..n.min(bytes.len())]
}

// What the program prints for the bytes that it has read: the text stands first in the area, and its length comes back.
// Stays: a function for each format, here and below, over `print_read` and `kept`: each is a public name with a text of its own.
pub fn run(bytes: &[u8], text: &mut [u8; TEXT]) -> usize
    ensures { Prints (text_of bytes.now) text.old result text.new }
{
    let mut vertices = [0f32; 1536];
    let mut ids = [0u32; 1536];
    let found = meshfile::read(bytes, &mut vertices, &mut ids);
    print_read(found, &vertices, &ids, text)
}

// What the program prints for an input of which it has kept the first n bytes: all of it, or as many as the area holds.
#[tactic(auto, using(crate::proofs::Printed::by_front))]
pub fn run_front(bytes: &[u8; KEPT], n: usize, text: &mut [u8; TEXT]) -> usize
    ensures { PrintsFront text_of bytes.now n text.old result text.new }
{
    run(kept(bytes, n), text)
}

// ---- an STL

// What a mesh file says beside its floats and ids, for n triangles of an STL: the unit is 0.001, and there are no flags.
fn stl_mesh(n: usize) -> MeshFile<f32>
    requires { n ≤ 170 }
    ensures { OfTriangles n result }
{
    MeshFile {
        unit: floats::float_of(0x3a83_126f),
        floats: 9 * n,
        ids: 3 * n,
        clip: false,
        profile: None,
    }
}

// What the program prints for an STL that it has read: the text of its mesh, in millimetres and without flags.
pub fn run_stl(bytes: &[u8], text: &mut [u8; TEXT]) -> usize
    ensures { Prints (stl_text_of bytes.now) text.old result text.new }
{
    let mut vertices = [0f32; 1536];
    let mut ids = [0u32; 1536];
    let found = stl::read(bytes, &mut vertices, &mut ids).map(stl_mesh);
    print_read(found, &vertices, &ids, text)
}

// The same for an input of which the program has kept the first n bytes.
#[tactic(auto, using(crate::proofs::StlPromises::by_stl_front))]
pub fn run_stl_front(bytes: &[u8; STL_KEPT], n: usize, text: &mut [u8; TEXT]) -> usize
    ensures { PrintsFront stl_text_of bytes.now n text.old result text.new }
{
    run_stl(kept(bytes, n), text)
}
