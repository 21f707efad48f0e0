// The faces of the triangles of a list of ids, counted in a table in lent words. Internal: `chain` and `tally` ask it.
// Stays here: the words and their n rows apart, for the reason that `steps` has.
#![tactic(auto)]

ghost use Rattle.std.specs.Prelude.{◌≡◌, ◌+◌, ◌*◌, ◌≤◌, ◌<◌, length};
ghost use Rattle.ids.specs.Triangles.{triangle};
ghost use Rattle.ids.specs.FaceNet.{sorted_ids, face_use, face, faces};
ghost use Rattle.table.specs.inner.Rows.{sum_to, Found};
ghost use Rattle.table.specs.inner.Table.{max_to};
ghost use Rattle.faces.specs.inner.Rows.{face_at, face_word, face_uses, put_face, face_of, face_hash, FaceTable, FaceRows};
ghost use Rattle.faces.specs.inner.Rows.{FaceSearch, FaceToAdd, FacesToCome, FacesAdded, row_off, row_size};

use ids::Triangle;
use table::Uses;

// The ids of a triangle, sorted.
#[derive(Clone, Copy, PartialEq)]
struct Face {
    low: u32,
    mid: u32,
    high: u32,
}

impl Face {
    #[tactic(auto, using(crate::proofs::Faces::sorted_by))]
    fn of(t: Triangle) -> Face
        ensures { sorted_ids t ≡ face_of result }
    {
        let first = t.a.min(t.b);
        let last = t.a.max(t.b);
        Face {
            low: first.min(t.c),
            mid: first.max(last.min(t.c)),
            high: last.max(t.c),
        }
    }

    // The hash, of the same kind as that of an edge.
    #[tactic(auto, unfolding(crate::specs::inner::Rows::face_hash))]
    fn hash(self) -> u32
        ensures { result ≡ face_hash (face_of self) }
    {
        let part = self.low as u64 * 1014252765 % 0x1_0000_0000;
        let more = (part + self.mid as u64 * 2645834705) % 0x1_0000_0000;
        ((more + self.high as u64 * 1973868335) % 0x1_0000_0000) as u32
    }
}

// Does a triangle use its face upwards? It does if an even number of its pairs fall.
#[tactic(auto, using(crate::proofs::Parity::fallen_small))]
fn upwards(t: Triangle) -> bool
    ensures { result ≡ (face_use t).up }
{
    let falls = (t.b < t.a) as u32 + ((t.c < t.b) as u32 + (t.c < t.a) as u32);
    falls % 2 == 0
}

// The first row, from `start` on and round, that holds the face or is free.
// Stays: a loop beside that of `steps`: a range would need an answer for a full table, which there is not, and one search for both would
// take a closure with clauses on when a row ends it, which each caller would have to show of its rows, for five lines that they share.
#[tactic(auto, using(table::proofs::Counts::none_used))]
fn find(ids: &[u32], work: &[u32], n: usize, face: Face, start: usize) -> usize
    requires { FaceSearch ids.now n start work.now }
    ensures { Found n start (face_at ids.now work.now) (face_uses work.now) (face_of face) result }
{
    let mut r = start;
    'search: loop {
        let at = 2 * r;
        if work[at + 1] == 0 {
            break 'search r;
        }
        if Face::of(Triangle::of(ids, work[at] as usize)) == face {
            break 'search r;
        }
        r = table::next(r, n);
    }
}

// Counts one more use in row r, which then names triangle t.
fn bump(work: &mut [u32], r: usize, t: usize, by: u32)
    requires { (r < 65536) × (2 * r + 1 < length work.old) × (t < 32768) × (by ≤ 65536) × (face_uses work.old r < 32768) }
    ensures { work.new ≡ put_face work.old r t (face_word work.old r + by) }
{
    let at = 2 * r;
    let word = work[at + 1] + by;
    work[at] = t as u32;
    work[at + 1] = word;
}

// Adds the use that triangle t makes of its face: none if it repeats an id.
fn triangle(ids: &[u32], work: &mut [u32], n: usize, t: usize)
    requires { FaceToAdd ids.now n work.old t }
    ensures { FacesAdded ids.now n work.old work.new (face (triangle ids.now t)) }
{
    let corners = Triangle::of(ids, t);
    if !corners.distinct() {
        return;
    }
    let face = Face::of(corners);
    let start = table::home(face.hash(), n);
    let r = find(ids, work, n, face, start);
    bump(work, r, t, Uses::weight(upwards(corners)));
}

// Adds the uses of all triangles to an empty table of n rows.
pub fn gather(ids: &[u32], work: &mut [u32], n: usize)
    requires { FacesToCome ids.now n work.old }
    ensures { FaceTable ids.now n work.new (faces ids.now) }
{
    for t in 0..ids.len() / 3 {
        triangle(ids, work, n, t);
    }
}

// ---- what the rows say

// The largest magnitude of a row's sum, and the number of rows whose sum is not 0.
#[derive(Clone, Copy)]
pub struct Sums {
    pub max_abs: u32,
    pub off: u32,
}

pub fn net(work: &[u32], n: usize) -> Sums
    requires { FaceRows n work.now }
    ensures { (result.max_abs ≡ max_to (row_size work.now) n)
        × (result.off ≡ sum_to (row_off work.now) n) }
{
    let mut sums = Sums { max_abs: 0, off: 0 };
    for i in 0..n {
        let size = Uses::from(work[2 * i + 1]).size();
        sums.max_abs = sums.max_abs.max(size);
        sums.off += (0 < size) as u32;
    }
    sums
}
