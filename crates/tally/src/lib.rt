// What a table of edges or of faces says of a list of ids, and the edge chain and face net of ids, counted in a lent part. Internal:
// `chain` and `verdict` ask it. Nothing is refused here, and what was counted is left in the part.
// Stays here: the words and their n rows apart, for the reason that `steps` has.
#![tactic(auto)]

ghost use Rattle.std.specs.Prelude.{◌≡◌, List, ℕ, ◌*◌, ◌≤◌, length};
ghost use Rattle.ids.specs.Triangles.{triangle_count};
ghost use Rattle.ids.specs.Lent.{most_entries};
ghost use Rattle.ids.specs.EdgeChain.{enough as enough_ids, chain, boundary_free, over_incident};
ghost use Rattle.ids.specs.FaceNet.{faces, max_abs, all_cancel};
ghost use Rattle.steps.specs.inner.Rows.{EdgeTable, EdgeRows};
ghost use Rattle.edges.specs.inner.Gather.{EdgesToCome};
ghost use Rattle.faces.specs.inner.Rows.{FaceTable, FaceRows};

use edges::Whole;

// What the edge chain and the face net say of ids.
#[derive(Clone, Copy)]
pub struct Incidence {
    pub boundary_free: bool,
    pub over_incident: bool,
}

#[derive(Clone, Copy)]
pub struct Net {
    pub max_abs: u32,
    pub all_cancel: bool,
}

// At least 9 ids, and 3 divides their number.
pub fn enough(n: usize) -> bool
    ensures { result ≡ enough_ids n }
{
    (9 <= n) & (n % 3 == 0)
}

// ---- what a table says

// Counts the edges of the chain that are there, that are unbalanced and that have more than two uses.
pub fn tally_edges(part: &[u32], n: usize) -> Incidence
    requires { EdgeRows n part.now }
    ensures { (ids : List ℕ) → EdgeTable n part.now (chain ids)
        → (result.boundary_free ≡ boundary_free ids) × (result.over_incident ≡ over_incident ids) }
{
    let s = edges::survey_rows(part, n);
    Incidence {
        boundary_free: (0 < s.present) & (s.unbalanced == 0),
        over_incident: 0 < s.crowded,
    }
}

// The largest magnitude of a face's sum, and whether all sums are 0.
pub fn tally_faces(part: &[u32], n: usize) -> Net
    requires { FaceRows n part.now }
    ensures { (ids : List ℕ) → FaceTable ids n part.now (faces ids)
        → (result.max_abs ≡ max_abs ids) × (result.all_cancel ≡ all_cancel ids) }
{
    let net = faces::net(part, n);
    Net {
        max_abs: net.max_abs,
        all_cancel: net.off == 0,
    }
}

// ---- what ids say, counted in a lent part

// Adds the uses of the chain to an empty table: none unless there are enough ids.
#[tactic(auto, using(crate::proofs::Chain::chain_all, crate::proofs::Chain::chain_none))]
fn gather_chain(ids: &[u32], part: &mut [u32], n: usize)
    requires { EdgesToCome ids.now n part.old }
    ensures { EdgeTable n part.new (chain ids.now) }
{
    if enough(ids.len()) {
        edges::gather::<Whole>(ids, part, n);
    }
}

// Are these ids boundary-free, are they over-incident?
pub fn chain_of(ids: &[u32], part: &mut [u32]) -> Incidence
    requires { (length ids.now ≤ most_entries) × (4 * length ids.now ≤ length part.old) }
    ensures { (result.boundary_free ≡ boundary_free ids.now) × (result.over_incident ≡ over_incident ids.now) }
{
    let n = edges::rows(ids.len());
    table::clear(part, 4 * ids.len());
    gather_chain(ids, part, n);
    tally_edges(part, n)
}

// Their face net.
pub fn net_of(ids: &[u32], part: &mut [u32]) -> Net
    requires { (length ids.now ≤ most_entries) × (4 * triangle_count ids.now ≤ length part.old) }
    ensures { (result.max_abs ≡ max_abs ids.now) × (result.all_cancel ≡ all_cancel ids.now) }
{
    let n = 2 * (ids.len() / 3);
    table::clear(part, 2 * n);
    faces::gather(ids, part, n);
    tally_faces(part, n)
}
