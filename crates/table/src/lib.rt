// Triangles, lent areas and tables in them: what the routines on ids, the weld's cells and the surface rows share. Internal.
// Stays here: an area and how many of its words are meant, since what is left of a lent area is said of the whole (`cleared`).
#![tactic(auto)]

ghost use Rattle.std.specs.Prelude.{◌≡◌, ◌≤◌, ◌<◌, length, OnOk};
ghost use Rattle.ids.specs.Triangles.{distinct as is_distinct, triangle};
ghost use Rattle.ids.specs.Lent.{cleared, refusal, unless_refused, most_entries};
ghost use Rattle.table.specs.inner.Rows.{home_row, next_row};
ghost use Rattle.table.specs.inner.Words.{TriangleOf};

use ids::{MOST_ENTRIES, Refusal, Triangle};

mod uses; // how often a key is used, as its row's word has it

pub use uses::Uses;

// Do the three ids of triangle t differ?
pub fn distinct_at(ids: &[u32], t: usize) -> bool
    requires { TriangleOf ids.now t }
    ensures { result ≡ is_distinct (triangle ids.now t) }
{
    Triangle::of(ids, t).distinct()
}

// Refuses what every routine on ids refuses: more ids than there may be, and fewer words lent than it needs.
#[tactic(auto, unfolding(ids::specs::Lent::refusal, ids::specs::Lent::unless_refused))]
pub fn admit(ids: usize, needed: usize, lent: usize) -> Result<(), Refusal>
    ensures refuses { result ≡ unless_refused (refusal ids needed lent) Err (Ok tt) }
    ensures admits { OnOk result ((ids ≤ most_entries) × (needed ≤ lent)) }
{
    if MOST_ENTRIES < ids {
        return Err(Refusal::TooMany);
    }
    if lent < needed {
        return Err(Refusal::ShortArea);
    }
    Ok(())
}

// Zeroes the first n words.
#[tactic(auto, unfolding(ids::specs::Lent::cleared))]
pub fn clear(work: &mut [u32], n: usize)
    requires { n ≤ length work.old }
    ensures { work.new ≡ cleared n work.old }
{
    work[..n].fill(0);
}

// The row at which a search starts, of n, by a hash.
#[tactic(auto, unfolding(crate::specs::inner::Rows::home_row))]
pub fn home(hash: u32, n: usize) -> usize
    requires { (0 < n) × (n < 4294967296) }
    ensures { (result ≡ home_row n hash) × (result < n) }
{
    (hash as u64 * n as u64 / 0x1_0000_0000) as usize
}

// The row after r, round.
#[tactic(auto, unfolding(crate::specs::inner::Rows::next_row))]
pub fn next(r: usize, n: usize) -> usize
    requires { (r < n) × (n < 4294967296) }
    ensures { result ≡ next_row n r }
{
    let s = r + 1;
    if s == n { 0 } else { s }
}
