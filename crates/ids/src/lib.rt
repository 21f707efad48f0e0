// Lists of ids: in specs/ their triangles, edge chain, face net and pieces, and what every id routine refuses and leaves in the area that
// it is lent; in proofs/ what these say of every edge, face and piece, and laws that other crates cite. Of code there are a triangle's ids,
// an edge's and the refusals.
#![tactic(auto)]

mod edge; // an undirected edge
mod refusal; // why a routine refuses
mod triangle; // a triangle's three ids

pub use edge::Edge;
pub use refusal::Refusal;
pub use triangle::Triangle;

// The most floats, and the most ids, that a mesh may have (01).
pub const MOST_ENTRIES: usize = 98304;
