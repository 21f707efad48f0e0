// A mesh file written into lent bytes, all numbers as patterns. `write` is public, as `meshfile::write`.
ghost use Rattle.std.specs.Prelude.{◌≡◌, ◌+◌, ◌*◌, ◌≤◌, cond, [], ◌∷◌, ◌++◌, length, drop};
ghost use Rattle.record.specs.Numbers.{profile_number};
ghost use Rattle.words.specs.Words.{bytes_of, all_bytes};
ghost use Rattle.meshfile.specs.inner.Kinds.{kind_number};
ghost use Rattle.meshfile.specs.Format.{most_in_file};
ghost use Rattle.meshfile.specs.Written.{chunk_of, file_bytes};
ghost use Rattle.meshfile.specs.Writing.{contents_of, Writes};

use crate::kind::Kind;
use ids::Refusal;
use record::ProfileDefect;

// ---- one record, into an area of its length

// What stands before a payload of n bytes.
fn put_header(kind: Kind, n: u32, area: &mut [u8])
    requires { 6 ≤ length area.old }
    ensures { area.new ≡ bytes_of n ++ (kind_number kind ∷ 0 ∷ drop 6 area.old) }
{
    words::put_u32(area, 0, n);
    area[4] = u8::from(kind);
    area[5] = 0;
}

// A record of words.
fn put_record(kind: Kind, payload: &[u32], area: &mut [u8])
    requires { (length area.old ≡ 6 + 4 * length payload.now) × (length payload.now ≤ most_in_file) }
    ensures { area.new ≡ chunk_of (kind_number kind) (all_bytes payload.now) }
{
    put_header(kind, 4 * payload.len() as u32, area);
    words::put_bytes(payload, &mut area[6..]);
}

// Kind 4.
fn put_flags(clip: bool, profile: Option<ProfileDefect>, area: &mut [u8])
    requires { length area.old ≡ 8 }
    ensures { area.new ≡ chunk_of 4 (cond clip 1 0 ∷ profile_number profile ∷ []) }
{
    put_header(Kind::Flags, 2, area);
    area[6] = clip as u8;
    area[7] = record::profile_number(profile) as u8;
}

// ---- the records in their order

fn put_file(
    unit: u32,
    vertices: &[u32],
    ids: &[u32],
    clip: bool,
    profile: Option<ProfileDefect>,
    area: &mut [u8],
)
    requires { (length area.old ≡ 30 + 4 * length vertices.now + 4 * length ids.now)
        × (length vertices.now ≤ most_in_file) × (length ids.now ≤ most_in_file) }
    ensures { area.new ≡ file_bytes (contents_of unit vertices.now ids.now clip profile) }
{
    let floats_end = 16 + 4 * vertices.len();
    let ids_end = floats_end + 6 + 4 * ids.len();
    put_record(Kind::Unit, &[unit], &mut area[..10]);
    put_record(Kind::Vertices, vertices, &mut area[10..floats_end]);
    put_record(Kind::Ids, ids, &mut area[floats_end..ids_end]);
    put_flags(clip, profile, &mut area[ids_end..]);
}

// The file, kind 4 among its records, goes to the front of the bytes, and its length comes back. A refusal writes nothing: of more than
// 1,536 floats or ids, and then of too few bytes.
pub fn write(
    unit: u32,
    vertices: &[u32],
    ids: &[u32],
    clip: bool,
    profile: Option<ProfileDefect>,
    bytes: &mut [u8],
) -> Result<usize, Refusal>
    ensures { Writes (contents_of unit vertices.now ids.now clip profile) bytes.old result
        bytes.new }
{
    if (1536 < vertices.len()) | (1536 < ids.len()) {
        return Err(Refusal::FileTooLarge);
    }
    let n = 30 + 4 * vertices.len() + 4 * ids.len();
    if bytes.len() < n {
        return Err(Refusal::ShortArea);
    }
    put_file(unit, vertices, ids, clip, profile, &mut bytes[..n]);
    Ok(n)
}
