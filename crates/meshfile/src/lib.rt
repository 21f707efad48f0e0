// The program's input, a mesh file: its bytes read into lent vertices and ids, and written. The format is document 01's.
// Stays here: a place and a number beside the bytes: both come from the file's records, and `contents_at` speaks of the whole file.
#![tactic(auto)]

mod kind; // the records' kinds
mod writing; // the way back

ghost use Rattle.std.specs.Prelude.{◌≡◌, ◌+◌, ◌*◌, ◌≤◌, ◌<◌, ◌++◌, map, length, take, drop};
ghost use Rattle.words.specs.Words.{words_in};
ghost use Rattle.meshfile.specs.inner.Kinds.{kind_number};
ghost use Rattle.meshfile.specs.Format.{length_fits, front_of, flags_in, ending_of};
ghost use Rattle.meshfile.specs.Reading.{mesh_as, answer_as, ReadsAs, Reads, ReadsBits};
ghost use Rattle.meshfile.specs.inner.Steps.{ids_from, vertices_from, layout_of, in_room, contents_at, IdsRead};

use ids::Refusal;
use kind::Kind;
use record::ProfileDefect;
use words::FromWord;
pub use writing::write;

// What a file holds beside its floats and ids: their numbers, the unit, as a float or as its pattern, and the flags.
#[derive(Clone, Copy)]
pub struct MeshFile<U> {
    pub unit: U,
    pub floats: usize,
    pub ids: usize,
    pub clip: bool,
    pub profile: Option<ProfileDefect>,
}

// ---- one record

// Is it a length that the kind may have?
fn length_fits(kind: Kind, n: usize) -> bool
    ensures { result ≡ length_fits (kind_number kind) n }
{
    match kind {
        Kind::Unit => n == 4,
        Kind::Vertices | Kind::Ids => n % 4 == 0,
        Kind::Flags => n == 2,
    }
}

// How long the payload is that stands in front of the bytes, or the fault that is met first.
#[tactic(auto, using(crate::proofs::Fronts::too_many_front))]
fn front_of(bytes: &[u8], kind: Kind) -> Result<usize, Refusal>
    ensures { result ≡ front_of (kind_number kind) bytes.now }
{
    if bytes.len() < 6 {
        return Err(Refusal::File);
    }
    if words::u16_at(bytes, 4) != u8::from(kind) as u32 {
        return Err(Refusal::File);
    }
    let n = words::u32_at(bytes, 0) as usize;
    if !length_fits(kind, n) {
        return Err(Refusal::File);
    }
    if 1536 < n / 4 {
        return Err(Refusal::FileTooLarge);
    }
    if bytes.len() < 6 + n {
        return Err(Refusal::File);
    }
    Ok(n)
}

// ---- the records in their order

// The values of the flags, as kind 4 has them.
// Stays: numbers, since they are the two bytes of kind 4, which `contents_at` has, and C's.
#[derive(Clone, Copy)]
pub struct FlagValues {
    pub clip: u32,
    pub defect: u32,
}

// Where everything stands: how many floats and ids, and the values of the flags.
#[derive(Clone, Copy)]
pub struct Parts {
    pub floats: usize,
    pub ids: usize,
    pub flags: FlagValues,
}

// Kind 4 with known values and then the end.
fn flags_in(bytes: &[u8], n: usize) -> Result<FlagValues, Refusal>
    requires { (n ≡ 2) × (8 ≤ length bytes.now) }
    ensures { result ≡ flags_in (Ok n) bytes.now }
{
    let clip = words::byte(bytes, 6);
    let defect = words::byte(bytes, 7);
    if !record::flags_fit(clip, defect) {
        return Err(Refusal::File);
    }
    if 6 + n < bytes.len() {
        return Err(Refusal::File);
    }
    Ok(FlagValues { clip, defect })
}

// The end, or kind 4.
fn ending_of(bytes: &[u8]) -> Result<FlagValues, Refusal>
    ensures { result ≡ ending_of bytes.now }
{
    if bytes.is_empty() {
        return Ok(FlagValues { clip: 0, defect: 0 });
    }
    let n = front_of(bytes, Kind::Flags)?;
    flags_in(bytes, n)
}

// From kind 3 on.
fn ids_from(bytes: &[u8], floats: usize) -> Result<Parts, Refusal>
    ensures { result ≡ ids_from floats (front_of 3 bytes.now) bytes.now }
{
    let n = front_of(bytes, Kind::Ids)?;
    let flags = ending_of(&bytes[6 + n..])?;
    Ok(Parts {
        floats,
        ids: n / 4,
        flags,
    })
}

// From kind 2 on.
fn vertices_from(bytes: &[u8]) -> Result<Parts, Refusal>
    ensures { result ≡ vertices_from (front_of 2 bytes.now) bytes.now }
{
    let n = front_of(bytes, Kind::Vertices)?;
    ids_from(&bytes[6 + n..], n / 4)
}

// From kind 1, the unit, on.
fn layout_of(bytes: &[u8]) -> Result<Parts, Refusal>
    ensures { result ≡ layout_of bytes.now }
{
    let n = front_of(bytes, Kind::Unit)?;
    vertices_from(&bytes[6 + n..])
}

// The same where areas of v floats and w ids are long enough.
fn layout_within(bytes: &[u8], v: usize, w: usize) -> Result<Parts, Refusal>
    ensures { result ≡ in_room v w (layout_of bytes.now) }
{
    let p = layout_of(bytes)?;
    if (v < p.floats) | (w < p.ids) {
        return Err(Refusal::ShortArea);
    }
    Ok(p)
}

// ---- what stands there

// Beside the floats and ids.
fn beside<U: FromWord>(bytes: &[u8], p: Parts) -> MeshFile<U>
    requires { 22 + 4 * p.floats + 4 * p.ids ≤ length bytes.now }
    ensures { result ≡ mesh_as U.of_word (contents_at bytes.now p) }
{
    MeshFile {
        unit: U::from_word(words::u32_at(bytes, 6)),
        floats: p.floats,
        ids: p.ids,
        clip: p.flags.clip == 1,
        profile: record::profile_of(p.flags.defect),
    }
}

// The n words from a place on, each as what it stands for, go to the front of the area.
fn fill<U: FromWord>(bytes: &[u8], at: usize, n: usize, area: &mut [U])
    requires { (at + 4 * n ≤ length bytes.now) × (n ≤ length area.old) }
    ensures { area.new ≡ map U.of_word (words_in (take (4 * n) (drop at bytes.now))) ++ drop n area.old }
{
    words::put_words(&bytes[at..at + 4 * n], &mut area[..n]);
}

// The file that the bytes hold, but for its vertices, for which there is room for v: the ids go to the front of their area.
fn read_ids<U: FromWord>(bytes: &[u8], v: usize, ids: &mut [u32]) -> Result<MeshFile<U>, Refusal>
    ensures { IdsRead U.of_word bytes.now v ids.old result ids.new }
{
    let p = layout_within(bytes, v, ids.len())?;
    fill(bytes, 22 + 4 * p.floats, p.ids, ids);
    Ok(beside(bytes, p))
}

// The file that the bytes hold: its floats, each as what its word stands for, and its ids go to the front of the two areas.
fn read_as<U: FromWord>(
    bytes: &[u8],
    vertices: &mut [U],
    ids: &mut [u32],
) -> Result<MeshFile<U>, Refusal>
    ensures { ReadsAs (map U.of_word) (answer_as U.of_word) bytes.now vertices.old ids.old result
        vertices.new ids.new }
{
    let m = read_ids(bytes, vertices.len(), ids)?;
    fill(bytes, 16, m.floats, vertices);
    Ok(m)
}

// The file that the bytes hold: the patterns of its floats, and its ids, go to the front of the two areas. A refusal writes nothing: of the
// file for the fault that is met first, and then of an area that is too short.
// Stays: two names over `read_as`, here and below, since ARCHITECTURE and CLAIMS name both.
pub fn read_bits(
    bytes: &[u8],
    vertices: &mut [u32],
    ids: &mut [u32],
) -> Result<MeshFile<u32>, Refusal>
    ensures { ReadsBits bytes.now vertices.old ids.old result
        vertices.new ids.new }
{
    read_as(bytes, vertices, ids)
}

// The same with each pattern as a float.
pub fn read(bytes: &[u8], vertices: &mut [f32], ids: &mut [u32]) -> Result<MeshFile<f32>, Refusal>
    ensures { Reads bytes.now vertices.old ids.old result
        vertices.new ids.new }
{
    read_as(bytes, vertices, ids)
}
