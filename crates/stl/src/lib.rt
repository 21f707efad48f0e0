// Binary STL (document 02, A4): a mount's bytes read into lent floats and ids. Every triangle has corners and ids of its own.
// Stays here: the bytes and how many triangles apart: the count is the file's, and `RoomFor` holds it against three lengths.
#![tactic(auto)]

ghost use Rattle.std.specs.Prelude.{◌≡◌, ◌+◌, ◌*◌, ◌/◌, ◌%◌, ◌≤◌, ◌<◌, length};
ghost use Rattle.words.specs.Words.{floats_of};
ghost use Rattle.stl.specs.Stl.{stl_count, stl_length, stl_of, corners_to, ids_to};
ghost use Rattle.stl.specs.Reading.{ReadsStl, most_triangles, most_large};
ghost use Rattle.stl.specs.inner.Filled.{RoomFor, Filled};

use ids::Refusal;

// What the count behind the header says.
fn count_of(bytes: &[u8]) -> usize
    requires { 84 ≤ length bytes.now }
    ensures { (result ≡ stl_count bytes.now) × (result < 4294967296) }
{
    words::u32_at(bytes, 80) as usize
}

// How many triangles the bytes hold, if no more than so many; or the refusal of the fault that is met first.
fn triangles_in(bytes: &[u8], most: usize) -> Result<usize, Refusal>
    ensures { result ≡ stl_of most bytes.now }
{
    if bytes.len() < 84 {
        return Err(Refusal::File);
    }
    let n = count_of(bytes);
    if most < n {
        return Err(Refusal::FileTooLarge);
    }
    if bytes.len() != 84 + 50 * n {
        return Err(Refusal::File);
    }
    Ok(n)
}

// Where the corners of triangle t stand: behind its normal.
fn corners_at(t: usize) -> usize
    requires { stl_length t + 12 < 18446744073709551616 }
    ensures { result ≡ stl_length t + 12 }
{
    96 + 50 * t
}

// The corners of n triangles fill the area: of each the nine floats behind its normal.
fn put_corners(bytes: &[u8], n: usize, area: &mut [f32])
    requires { (stl_length n ≤ length bytes.now) × (length area.old ≡ 9 * n) }
    ensures { area.new ≡ floats_of (corners_to bytes.now n) }
{
    for t in 0..n {
        let at = corners_at(t);
        let to = 9 * t;
        words::put_words(&bytes[at..at + 36], &mut area[to..to + 9]);
    }
}

// The ids of as many triangles as the area has room for: each is its place.
fn put_ids(area: &mut [u32])
    requires { (length area.old % 3 ≡ 0) × (length area.old ≤ 4294967296) }
    ensures { area.new ≡ ids_to (length area.old / 3) }
{
    for (i, id) in area.iter_mut().enumerate() {
        *id = i as u32;
    }
}

// The corners and ids of n triangles go to the front of the two areas, which are long enough.
fn fill(bytes: &[u8], n: usize, vertices: &mut [f32], ids: &mut [u32])
    requires { RoomFor n (length bytes.now) (length vertices.old) (length ids.old) }
    ensures { Filled bytes.now n vertices.old ids.old vertices.new ids.new }
{
    put_corners(bytes, n, &mut vertices[..9 * n]);
    put_ids(&mut ids[..3 * n]);
}

// `read` for any greatest count for which three ids a triangle are words.
fn read_most(
    bytes: &[u8],
    most: usize,
    vertices: &mut [f32],
    ids: &mut [u32],
) -> Result<usize, Refusal>
    requires { 3 * most ≤ 4294967296 }
    ensures { ReadsStl most bytes.now vertices.old ids.old result
        vertices.new ids.new }
{
    let n = triangles_in(bytes, most)?;
    if (vertices.len() < 9 * n) | (ids.len() < 3 * n) {
        return Err(Refusal::ShortArea);
    }
    fill(bytes, n, vertices, ids);
    Ok(n)
}

// The mesh of a binary STL of up to 170 triangles, and how many: its corners and ids go to the front of the two areas. A refusal writes
// nothing: of the file for the fault that is met first, and then of an area that is too short.
// Stays: two names over `read_most`, here and below, since ARCHITECTURE and CLAIMS name both.
pub fn read(bytes: &[u8], vertices: &mut [f32], ids: &mut [u32]) -> Result<usize, Refusal>
    ensures { ReadsStl most_triangles bytes.now vertices.old ids.old result
        vertices.new ids.new }
{
    read_most(bytes, 170, vertices, ids)
}

// The same with up to 10,922 triangles, as many as the record takes with corners of their own.
pub fn read_large(bytes: &[u8], vertices: &mut [f32], ids: &mut [u32]) -> Result<usize, Refusal>
    ensures { ReadsStl most_large bytes.now vertices.old ids.old result
        vertices.new ids.new }
{
    read_most(bytes, 10922, vertices, ids)
}
