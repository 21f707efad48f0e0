// `EdgeChain`, `FaceNet`, `is_closed_manifold` and `winding_coherent`: 000's routines on ids alone. Each takes ids and a lent area,
// and either refuses, with nothing changed, or answers and leaves zero in the words that it needs.
// Stays here: the words and their n rows apart, for the reason that `steps` has; and ids and work apart, since C lends both.
#![tactic(auto)]

ghost use Rattle.std.specs.Prelude.{◌≡◌, ◌&&◌, List, ℕ, Bool, ◌*◌, length};
ghost use Rattle.ids.specs.Triangles.{triangle_count};
ghost use Rattle.ids.specs.EdgeChain.{enough, proper_edges, closed_manifold, winding_coherent};
ghost use Rattle.table.specs.inner.Words.{Lends, Leaves};
ghost use Rattle.steps.specs.inner.Rows.{EdgeTable, EdgeRows};
ghost use Rattle.chain.specs.Answers.{incidence_of, net_of};
ghost use Rattle.chain.specs.Answers.{EdgeChainGiven, FaceNetGiven, VerdictGiven};
ghost use Rattle.chain.specs.Answers.{ClosedManifoldGiven, WindingCoherentGiven};

use ids::Refusal;
pub use tally::{Incidence, Net};

// ---- over an area of just the words needed, which is zero afterwards

// Makes the chain and reads it.
fn chain_in(ids: &[u32], part: &mut [u32]) -> Incidence
    requires { Lends (4 * length ids.now) ids.now part.old }
    ensures { Leaves (4 * length ids.now) (incidence_of ids.now) result part.new }
{
    let said = tally::chain_of(ids, part);
    table::clear(part, 4 * ids.len());
    said
}

// Sums the faces.
fn net_in(ids: &[u32], part: &mut [u32]) -> Net
    requires { Lends (4 * triangle_count ids.now) ids.now part.old }
    ensures { Leaves (4 * triangle_count ids.now) (net_of ids.now) result part.new }
{
    let said = tally::net_of(ids, part);
    table::clear(part, 4 * (ids.len() / 3));
    said
}

// ---- the two questions with yes or no for an answer: they have one table, of all edges but those between equal ids

trait Question {
    ghost holds: { List ℕ → Bool };

    // What a table of all edges says, where there are enough ids.
    fn ask(part: &[u32], n: usize) -> bool
        requires { EdgeRows n part.now }
        ensures { (ids : List ℕ) → EdgeTable n part.now (proper_edges ids)
            → (enough (length ids) && result) ≡ holds ids };
}

// No edge is there that is not used twice, once each way.
struct ClosedManifold;

impl Question for ClosedManifold {
    ghost holds = { closed_manifold };

    fn ask(part: &[u32], n: usize) -> bool {
        let unpaired = edges::count::<edges::Unpaired>(part, n);
        unpaired == 0
    }
}

// Some edge is there, and at most one in fifty is used neither once nor twice, once each way.
struct WindingCoherent;

impl Question for WindingCoherent {
    ghost holds = { winding_coherent };

    fn ask(part: &[u32], n: usize) -> bool {
        let present = edges::count::<edges::Present>(part, n);
        let incoherent = edges::count::<edges::Incoherent>(part, n);
        (0 < present) & (50 * incoherent <= present)
    }
}

// Makes the table, asks it, and clears it.
fn answer_in<Q: Question>(ids: &[u32], part: &mut [u32]) -> bool
    requires { Lends (4 * length ids.now) ids.now part.old }
    ensures { Leaves (4 * length ids.now) (Q.holds ids.now) result part.new }
{
    let m = 4 * ids.len();
    let n = edges::rows(ids.len());
    table::clear(part, m);
    edges::gather::<edges::Proper>(ids, part, n);
    let said = Q::ask(part, n);
    table::clear(part, m);
    tally::enough(ids.len()) & said
}

// Refuses, or answers the question.
#[tactic(auto, using(table::proofs::Words::answered))]
fn answer<Q: Question>(ids: &[u32], work: &mut [u32]) -> Result<bool, Refusal>
    ensures { VerdictGiven Q.holds ids.now work.old result work.new }
{
    let m = 4 * ids.len();
    table::admit(ids.len(), m, work.len())?;
    Ok(answer_in::<Q>(ids, &mut work[..m]))
}

// ---- the public routines

// The edge chain of a list of ids: is it boundary-free, is it over-incident?
#[tactic(auto, using(table::proofs::Words::answered))]
pub fn edge_chain(ids: &[u32], work: &mut [u32]) -> Result<Incidence, Refusal>
    ensures { EdgeChainGiven ids.now work.old result work.new }
{
    let m = 4 * ids.len();
    table::admit(ids.len(), m, work.len())?;
    Ok(chain_in(ids, &mut work[..m]))
}

// Is each edge used twice, once each way?
pub fn is_closed_manifold(ids: &[u32], work: &mut [u32]) -> Result<bool, Refusal>
    ensures { ClosedManifoldGiven ids.now work.old result work.new }
{
    answer::<ClosedManifold>(ids, work)
}

// Is at most one edge in fifty used neither once nor twice, once each way?
pub fn winding_coherent(ids: &[u32], work: &mut [u32]) -> Result<bool, Refusal>
    ensures { WindingCoherentGiven ids.now work.old result work.new }
{
    answer::<WindingCoherent>(ids, work)
}

// The face net of a list of ids: the largest magnitude of a face's sum, and whether all sums are 0.
#[tactic(auto, using(table::proofs::Words::answered))]
pub fn face_net(ids: &[u32], work: &mut [u32]) -> Result<Net, Refusal>
    ensures { FaceNetGiven ids.now work.old result work.new }
{
    let m = 4 * (ids.len() / 3);
    table::admit(ids.len(), m, work.len())?;
    Ok(net_in(ids, &mut work[..m]))
}
