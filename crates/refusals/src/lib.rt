// The table of refusals: document 01, 'Order of checks and what comes back', with 02's row. Internal: `qto` asks it.
// Stays here: an edition by its number, since any may be passed, and `check_of` refuses the unknown ones.
#![tactic(auto)]

ghost use Rattle.std.specs.Prelude.{◌≡◌, ◌≤◌};
ghost use Rattle.ids.specs.Lent.{most_entries};
ghost use Rattle.sums.specs.Editions.{edition_known};
ghost use Rattle.sums.specs.Fine.{all_fine};
ghost use Rattle.refusals.specs.Refusals.{unit_fits, areas_short, check_of};
ghost use Rattle.vertices.specs.Areas.{work_words, raster_bytes};

use ids::{MOST_ENTRIES, Refusal};

// What comes back of a mesh that is not refused: the zero record, or a full one.
#[derive(Clone, Copy)]
pub enum Check {
    Zero,
    Full,
}

// From 2^-20 to 16.
#[tactic(auto, unfolding(crate::specs::Refusals::unit_fits))]
fn unit_fits(unit: f32) -> bool
    ensures { result ≡ unit_fits unit }
{
    (unit >= 0.00000095367431640625) & (unit <= 16.0)
}

#[tactic(auto, unfolding(sums::specs::Editions::edition_known))]
fn edition_known(edition: u32) -> bool
    ensures { result ≡ edition_known edition }
{
    matches!(edition, 1 | 2)
}

// Is every float finite, and at most 2^33 in magnitude? All are looked at whatever the first ones are: a processor then does several
// at a time.
fn all_fine(vertices: &[f32]) -> bool
    ensures { result ≡ all_fine vertices.now }
{
    let mut fine = true;
    for x in vertices {
        let size = floats::magnitude(*x);
        fine = fine & (size <= 8589934592.0);
    }
    fine
}

// How many work words f floats and i ids need.
pub fn work_words(f: usize, i: usize) -> usize
    requires { (f ≤ most_entries) × (i ≤ most_entries) }
    ensures { result ≡ work_words f i }
{
    5 * i + 4 * (i / 3) + 8 * (f / 3)
}

// How many bytes of raster every mesh needs.
pub fn raster_bytes() -> usize
    ensures { result ≡ raster_bytes }
{
    65536
}

// Is one of the lent areas too short for f floats and i ids?
fn areas_short(f: usize, i: usize, work: usize, raster: usize, surfaces: usize) -> bool
    requires { (f ≤ most_entries) × (i ≤ most_entries) }
    ensures { result ≡ areas_short f i work raster surfaces }
{
    let words = work_words(f, i);
    (work < words) | ((raster < raster_bytes()) | (surfaces < 4 * (i / 3)))
}

// What the table says.
#[tactic(auto, unfolding(crate::specs::Refusals::check_of))]
pub fn checked(
    vertices: &[f32],
    indices: &[u32],
    unit_scale: f32,
    edition: u32,
    work: usize,
    raster: usize,
    surfaces: usize,
) -> Result<Check, Refusal>
    ensures { result ≡ check_of vertices.now indices.now unit_scale edition work raster surfaces }
{
    let f = vertices.len();
    let i = indices.len();
    if (MOST_ENTRIES < f) | (MOST_ENTRIES < i) {
        return Err(Refusal::TooMany);
    }
    if (i < 3) | (f < 9) {
        return Ok(Check::Zero);
    }
    if !unit_fits(unit_scale) {
        return Err(Refusal::Unit);
    }
    if !edition_known(edition) {
        return Err(Refusal::Edition);
    }
    let short = areas_short(f, i, work, raster, surfaces);
    let fine = all_fine(vertices);
    if short {
        return Err(Refusal::ShortArea);
    }
    if !fine {
        return Err(Refusal::Float);
    }
    Ok(Check::Full)
}
