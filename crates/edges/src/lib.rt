// The edges of the triangles of a list of ids, counted in a table in lent words. Internal: `chain` and `tally` ask it.
// Stays here: the words and their n rows apart, for the reason that `steps` has.
#![tactic(auto)]

ghost use Rattle.std.specs.Prelude.{◌≡◌, ◌+◌, ◌*◌, ◌/◌, ◌≤◌, Bool, List, ℕ};
ghost use Rattle.ids.specs.Triangles.{Triangle, over_triangles};
ghost use Rattle.ids.specs.Uses.{Use, bit};
ghost use Rattle.ids.specs.Lent.{most_entries};
ghost use Rattle.ids.specs.EdgeChain.{Edge, proper_step, around, around_proper, present, unbalanced, crowded, unpaired, incoherent};
ghost use Rattle.table.specs.inner.Rows.{sum_to};
ghost use Rattle.steps.specs.inner.Rows.{EdgeTable, EdgeRows, EdgesFit, EdgesAdded};
ghost use Rattle.edges.specs.inner.Tests.{use_bit, row_bit};
ghost use Rattle.edges.specs.inner.Gather.{EdgesToCome, TriangleAdded};

use ids::Triangle;
use table::Uses;

// ---- one triangle

// Which edges of a triangle count.
pub trait Counted {
    ghost edges: { Triangle → List (Use Edge) };

    // Adds their uses.
    fn triangle(work: &mut [u32], n: usize, t: Triangle)
        requires { EdgesFit n 3 work.old }
        ensures { TriangleAdded n work.old work.new (edges t) };
}

// All three, but none if the triangle repeats an id.
pub struct Whole;

impl Counted for Whole {
    ghost edges = { around };

    fn triangle(work: &mut [u32], n: usize, t: Triangle) {
        if !t.distinct() {
            return;
        }
        steps::walk(work, n, t.a, t.b);
        steps::walk(work, n, t.b, t.c);
        steps::walk(work, n, t.c, t.a);
    }
}

// Those between ids that differ.
pub struct Proper;

impl Counted for Proper {
    ghost edges = { around_proper };

    fn triangle(work: &mut [u32], n: usize, t: Triangle) {
        proper_step(work, n, t.a, t.b);
        proper_step(work, n, t.b, t.c);
        proper_step(work, n, t.c, t.a);
    }
}

// Adds the use that a step makes: none between equal ids.
fn proper_step(work: &mut [u32], n: usize, u: u32, v: u32)
    requires { EdgesFit n 1 work.old }
    ensures { EdgesAdded n work.old work.new (proper_step u v) }
{
    if u == v {
        return;
    }
    steps::walk(work, n, u, v);
}

// ---- all triangles

// How many rows there are for so many ids: 4 for 3, so 131,072 at most.
pub fn rows(ids: usize) -> usize
    requires { ids ≤ most_entries }
    ensures { result ≡ ids * 4 / 3 }
{
    ids * 4 / 3
}

// Adds the uses of all triangles to an empty table of n rows.
pub fn gather<C: Counted>(ids: &[u32], work: &mut [u32], n: usize)
    requires { EdgesToCome ids.now n work.old }
    ensures { EdgeTable n work.new (over_triangles C.edges ids.now) }
{
    for t in 0..ids.len() / 3 {
        C::triangle(work, n, Triangle::of(ids, t));
    }
}

// ---- tests on the edges

// A test on an edge, by how often it is used, each way. An edge that is not used passes none.
pub trait EdgeTest {
    ghost holds: { ℕ → ℕ → Bool };

    fn passes(uses: Uses) -> bool
        ensures { bit result ≡ use_bit holds (uses.ups + uses.downs) uses.ups };
}

// Any edge.
pub struct Present;

impl EdgeTest for Present {
    ghost holds = { present };

    #[tactic(auto, using(crate::proofs::Tested::present_bit))]
    fn passes(uses: Uses) -> bool {
        0 < uses.all()
    }
}

// A sum other than 0.
pub struct Unbalanced;

impl EdgeTest for Unbalanced {
    ghost holds = { unbalanced };

    #[tactic(auto, using(crate::proofs::Tested::unbalanced_bit))]
    fn passes(uses: Uses) -> bool {
        uses.ups != uses.downs
    }
}

// More than two uses.
pub struct Crowded;

impl EdgeTest for Crowded {
    ghost holds = { crowded };

    #[tactic(auto, using(crate::proofs::Tested::crowded_bit))]
    fn passes(uses: Uses) -> bool {
        2 < uses.all()
    }
}

// Used, but not just twice, once each way. No branch here and below: which rows are used is as by chance, and a processor would guess
// wrongly.
pub struct Unpaired;

impl EdgeTest for Unpaired {
    ghost holds = { unpaired };

    fn passes(uses: Uses) -> bool {
        let all = uses.all();
        let paired = (all == 2) & (uses.ups == 1);
        (0 < all) & !paired
    }
}

// The same, but not used once either.
pub struct Incoherent;

impl EdgeTest for Incoherent {
    ghost holds = { incoherent };

    #[tactic(auto, using(crate::proofs::Tested::incoherent_bit))]
    fn passes(uses: Uses) -> bool {
        let all = uses.all();
        let paired = (all == 2) & (uses.ups == 1);
        (1 < all) & !paired
    }
}

// How many edges pass a test. The sums have 32 bits, so that a processor can add several rows at a time.
// Stays: by row number, here and in `survey_rows`, since the contract sums over row numbers: a chunk of three words has none.
pub fn count<T: EdgeTest>(work: &[u32], n: usize) -> u32
    requires { EdgeRows n work.now }
    ensures { (result ≡ sum_to (row_bit T.holds work.now) n) × (result ≤ n) }
{
    let mut total: u32 = 0;
    for i in 0..n {
        total += T::passes(Uses::from(work[3 * i + 2])) as u32;
    }
    total
}

// How many edges pass each of three tests, in one pass over the rows.
#[derive(Clone, Copy)]
pub struct Survey {
    pub present: u32,
    pub unbalanced: u32,
    pub crowded: u32,
}

pub fn survey_rows(work: &[u32], n: usize) -> Survey
    requires { EdgeRows n work.now }
    ensures { (result.present ≡ sum_to (row_bit present work.now) n)
        × (result.unbalanced ≡ sum_to (row_bit unbalanced work.now) n)
        × (result.crowded ≡ sum_to (row_bit crowded work.now) n) }
{
    let mut survey = Survey {
        present: 0,
        unbalanced: 0,
        crowded: 0,
    };
    for i in 0..n {
        let uses = Uses::from(work[3 * i + 2]);
        survey.present += Present::passes(uses) as u32;
        survey.unbalanced += Unbalanced::passes(uses) as u32;
        survey.crowded += Crowded::passes(uses) as u32;
    }
    survey
}
