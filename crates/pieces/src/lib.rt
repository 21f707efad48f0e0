// Pieces: the number of groups of distinct-id triangles, joined wherever two share an edge, over one lent word a triangle.
//
// A word has what its triangle hangs on (`forest`) and a slot of the table of sides (`sides`). Once all that share an edge are joined,
// each piece has one triangle that hangs on itself.
// Stays: ids and work are two parameters, since of a struct with both loans each contract would have to say that the loans stay, as
// parameters say by their types; what is asked of the two is one record, Joinable.
#![tactic(auto)]

ghost use Rattle.std.specs.Prelude.{◌≡◌, ◌+◌, ◌*◌, ◌≤◌, ◌<◌, length, count_by};
ghost use Rattle.std.specs.List.{range_with_len};
ghost use Rattle.ids.specs.Triangles.{triangle_count};
ghost use Rattle.ids.specs.Pieces.{share_edge, pieces as pieces_of};
ghost use Rattle.table.specs.inner.Words.{Leaves};
ghost use Rattle.sides.specs.inner.Joins.{OneWordEach, Joinable, Grows};
ghost use Rattle.sides.specs.inner.Sides.{taken};
ghost use Rattle.sides.specs.inner.Passes.{Settles};
ghost use Rattle.pieces.specs.inner.Joined.{Tied, AllJoined, is_root};
ghost use Rattle.pieces.specs.Answer.{PiecesGiven};

use ids::Refusal;

// ---- a triangle that found no room in free slots: there are fewer than three

// Joins triangles s and t, if they have distinct ids and share an edge.
fn tie(ids: &[u32], work: &mut [u32], s: usize, t: usize)
    requires { Joinable ids.now work.old × (s < length work.old) × (t < length work.old) }
    ensures { Grows ids.now work.old work.new
        (Tied ids.now (length work.old) s t (t + 1)) }
{
    let solid = table::distinct_at(ids, s) & table::distinct_at(ids, t);
    if solid & sides::share_edge(ids, s, t) {
        forest::join(work, s, t);
    }
}

// Joins triangle t to each one behind it that it is to be joined with.
fn settle(ids: &[u32], work: &mut [u32], t: usize)
    requires { Joinable ids.now work.old × (t < length work.old) }
    ensures { Grows ids.now work.old work.new
        (Tied ids.now (length work.old) t (t + 1) (length work.old)) }
{
    for j in t + 1..work.len() {
        tie(ids, work, t, j);
    }
}

// ---- the whole

// A pass, and if it entered nothing the first triangle by itself: where to go on.
fn advance(ids: &[u32], work: &mut [u32], class: u64, from: usize) -> usize
    requires { Joinable ids.now work.old × (from < length work.old) }
    ensures { (from < result) × (result ≤ length work.old)
        × Settles ids.now (taken ids.now class) (length work.old) (3 * from) (3 * result)
        work.old work.new }
{
    let next = sides::pass(ids, work, class, from);
    if from < next {
        return next;
    }
    settle(ids, work, from);
    from + 1
}

// Joins all triangles that share an edge of a class, pass after pass.
fn join_class(ids: &[u32], work: &mut [u32], class: u64)
    requires { Joinable ids.now work.old }
    ensures { Settles ids.now (taken ids.now class) (length work.old) 0
        (3 * length work.old) work.old work.new }
{
    let mut t = 0;
    // Stays: each turn goes on where the pass before it stopped, so no range or iterator gives the next t.
    while t < work.len() {
        t = advance(ids, work, class, t);
    }
}

// Joins all triangles that share an edge, class after class.
fn join_all(ids: &[u32], work: &mut [u32])
    requires { OneWordEach ids.now work.old }
    ensures { AllJoined ids.now work.new }
{
    forest::plant(work);
    for class in 0..3 {
        join_class(ids, work, class);
    }
}

// Is triangle t a distinct-id triangle that hangs on itself?
#[tactic(auto, unfolding(crate::specs::inner::Joined::is_root, ids::specs::Pieces::solid))]
fn is_root(ids: &[u32], work: &[u32], t: usize) -> bool
    requires { OneWordEach ids.now work.now × (t < length work.now) }
    ensures { result ≡ is_root ids.now work.now t }
{
    forest::parent(work, t) == t && table::distinct_at(ids, t)
}

// How many distinct-id triangles hang on themselves.
fn count(ids: &[u32], work: &[u32]) -> u32
    requires { OneWordEach ids.now work.now }
    ensures { result ≡ count_by (is_root ids.now work.now) (range_with_len 0 (length work.now)) }
{
    (0..work.len()).filter(|t| is_root(ids, work, *t)).count() as u32
}

// The number of pieces, over an area of just the words that it takes, which are zero afterwards.
fn pieces_in(ids: &[u32], work: &mut [u32]) -> u32
    requires { OneWordEach ids.now work.old }
    ensures { Leaves (triangle_count ids.now) (pieces_of share_edge ids.now) result work.new }
{
    join_all(ids, work);
    let r = count(ids, work);
    let n = work.len();
    table::clear(work, n);
    r
}

// The number of pieces. Refused: more than 98,304 ids, and fewer words than triangles.
#[tactic(auto, using(table::proofs::Words::answered))]
pub fn pieces(ids: &[u32], work: &mut [u32]) -> Result<u32, Refusal>
    ensures { PiecesGiven ids.now work.old result work.new }
{
    let n = ids.len() / 3;
    table::admit(ids.len(), n, work.len())?;
    Ok(pieces_in(ids, &mut work[..n]))
}
