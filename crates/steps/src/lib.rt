// Steps from id to id in a table of edges, in lent words: each is found there, or a free row for it, and counted. Internal: `edges` asks
// it.
#![tactic(auto)]

ghost use Rattle.std.specs.Prelude.{◌≡◌, [], ◌∷◌, ◌+◌, ◌*◌, ◌<◌, length};
ghost use Rattle.ids.specs.EdgeChain.{step as step_use};
ghost use Rattle.table.specs.inner.Rows.{Found};
ghost use Rattle.steps.specs.inner.Rows.{edge_at, edge_word, edge_uses, put_edge, edge_hash, EdgeSearch, EdgesFit, EdgesAdded};

use ids::Edge;
use table::Uses;

// The hash of an edge. The two factors were chosen so that the edges of grids, fans, boxes, strips and mirrored rims
// spread about as well at every size.
#[tactic(auto, unfolding(crate::specs::inner::Rows::edge_hash))]
fn hash(edge: Edge) -> u32
    ensures { result ≡ edge_hash edge }
{
    ((edge.low as u64 * 517785211 + edge.high as u64 * 3599898067) % 0x1_0000_0000) as u32
}

// The first row, from `start` on and round, that holds the edge or is free.
// Stays: a loop, since the search ends by what it finds and goes round: a range would need an answer for a full table, which there is not.
#[tactic(auto, using(table::proofs::Counts::none_used))]
fn find(work: &[u32], n: usize, edge: Edge, start: usize) -> usize
    requires { EdgeSearch n start work.now }
    ensures { Found n start (edge_at work.now) (edge_uses work.now) edge result }
{
    let mut r = start;
    'search: loop {
        let at = 3 * r;
        if work[at + 2] == 0 {
            break 'search r;
        }
        let here = Edge {
            low: work[at],
            high: work[at + 1],
        };
        if here == edge {
            break 'search r;
        }
        r = table::next(r, n);
    }
}

// Counts one more use in row r, which is then the edge's.
fn bump(work: &mut [u32], r: usize, edge: Edge, by: u32)
    requires { (r < 131072) × (3 * r + 2 < length work.old) × (edge_word work.old r + by < 4294967296) }
    ensures { work.new ≡ put_edge work.old r edge.low edge.high (edge_word work.old r + by) }
{
    let at = 3 * r;
    let word = work[at + 2] + by;
    work[at] = edge.low;
    work[at + 1] = edge.high;
    work[at + 2] = word;
}

// Adds the use that a step from id u to id v makes.
// Stays: `work` and `n` apart, here and in `edges` and `faces`: a struct of both would hold the lent words as a borrow, and each contract
// would have to say that n and the borrow stay, besides what it says of the words.
pub fn walk(work: &mut [u32], n: usize, u: u32, v: u32)
    requires { EdgesFit n 1 work.old }
    ensures { EdgesAdded n work.old work.new (step_use u v ∷ []) }
{
    let edge = Edge::between(u, v);
    let start = table::home(hash(edge), n);
    let r = find(work, n, edge, start);
    bump(work, r, edge, Uses::weight(u < v));
}
