// The sides of triangles in a table in lent words, pass by pass. Internal: what the piece count stands on.
//
// Side c is the edge from place c of the list of ids to the next corner of its triangle, round. The slots are a table of sides by their
// edges: the first side with an edge is entered, and each later one is joined to that one's triangle. There are as many slots as
// triangles, and up to three times as many edges, so the triangles are gone through several times. Edges fall into three classes that
// take turns: of a closed surface, with one edge and a half a triangle, a class fills half the slots. A pass enters the sides of a class
// from some triangle on until the slots are full enough, then only looks the triangles behind up, and the next pass starts where this
// one stopped entering. Each pass has another hash, and looks at no more than `limit` rows for a side.
// Stays here: a slot's number beside the words, as in `forest`, whose words these are.
#![tactic(auto)]

ghost use Rattle.std.specs.Prelude.{◌≡◌, ◌+◌, ◌*◌, ◌/◌, ◌≤◌, ◌<◌, min, length};
ghost use Rattle.ids.specs.Triangles.{triangle};
ghost use Rattle.ids.specs.EdgeChain.{same_edge};
ghost use Rattle.ids.specs.Pieces.{has_edge, share_edge};
ghost use Rattle.table.specs.inner.Words.{TriangleOf};
ghost use Rattle.sides.specs.inner.Joins.{Joinable};
ghost use Rattle.sides.specs.inner.Sides.{corner_after, side_edge, edge_class, taken, side_home, SoughtIn, Seekable};
ghost use Rattle.sides.specs.inner.Passes.{SlotsReady, SideReady, Enters, EntersTo, Settles};

use ids::{Edge, Triangle};

// ---- a side

// The corner after c in its triangle, round.
#[tactic(auto, unfolding(crate::specs::inner::Sides::corner_after))]
fn after(c: usize) -> usize
    requires { c < 4294967295 }
    ensures { result ≡ corner_after c }
{
    if c % 3 == 2 { c - 2 } else { c + 1 }
}

// The edge of side c.
#[tactic(auto, using(crate::proofs::Sides::after_in), unfolding(crate::specs::inner::Sides::side_edge))]
fn edge_of(ids: &[u32], c: usize) -> Edge
    requires { TriangleOf ids.now (c / 3) }
    ensures { result ≡ side_edge ids.now c }
{
    Edge::between(ids[c], ids[after(c)])
}

// Is this edge that of side c?
#[tactic(auto, unfolding(ids::specs::EdgeChain::same_edge))]
fn is_edge(ids: &[u32], c: usize, edge: Edge) -> bool
    requires { TriangleOf ids.now (c / 3) }
    ensures { result ≡ same_edge edge (side_edge ids.now c) }
{
    edge == edge_of(ids, c)
}

// The class of an edge.
#[tactic(auto, unfolding(crate::specs::inner::Sides::edge_class))]
fn class_of(edge: Edge) -> u64
    ensures { result ≡ edge_class edge }
{
    (edge.low as u64 + edge.high as u64) / 8 % 3
}

// Is the edge one of triangle t's?
fn has_edge(ids: &[u32], t: usize, edge: Edge) -> bool
    requires { TriangleOf ids.now t }
    ensures { result ≡ has_edge (triangle ids.now t) edge }
{
    let at = 3 * t;
    is_edge(ids, at, edge) | (is_edge(ids, at + 1, edge) | is_edge(ids, at + 2, edge))
}

// Do triangles s and t share an edge?
pub fn share_edge(ids: &[u32], s: usize, t: usize) -> bool
    requires { TriangleOf ids.now s × TriangleOf ids.now t }
    ensures { result ≡ share_edge (triangle ids.now s) (triangle ids.now t) }
{
    let at = 3 * s;
    let ab = edge_of(ids, at);
    let bc = edge_of(ids, at + 1);
    let ca = edge_of(ids, at + 2);
    has_edge(ids, t, ab) | (has_edge(ids, t, bc) | has_edge(ids, t, ca))
}

// ---- a pass and its hash

// The class of edges that a pass takes, the two factors of its hash, and how many rows a search looks at.
#[derive(Clone, Copy)]
struct Plan {
    class: u64,
    low: u32,
    high: u32,
    limit: usize,
}

// An odd number from another, as by chance: no rule that edges could keep leads from one pass's factors to the next one's.
fn stirred(x: u32) -> u32 {
    let y = x.wrapping_mul(2246822507);
    let z = y.wrapping_add(y / 8192);
    let w = z.wrapping_mul(3266489909);
    w.wrapping_add(w / 65536) | 1
}

// The pass over a class from triangle `from` on, with n slots: a search looks at 256 of them, or at all, if there are fewer.
fn plan_of(class: u64, from: usize, n: usize) -> Plan
    requires { from < 4294900000 }
    ensures { (result.class ≡ class) × (result.limit ≡ min n 256) }
{
    let low = stirred(from as u32 + 795);
    Plan {
        class,
        low,
        high: stirred(low),
        limit: n.min(256),
    }
}

// The row at which a search for an edge starts.
#[tactic(auto, unfolding(crate::specs::inner::Sides::side_home))]
fn start(edge: Edge, plan: Plan, n: usize) -> usize
    requires { (0 < n) × (n < 4294967296) }
    ensures { (result ≡ side_home plan.low plan.high n edge) × (result < n) }
{
    let low = edge.low.wrapping_mul(plan.low);
    let high = edge.high.wrapping_mul(plan.high);
    table::home(low.wrapping_add(high), n)
}

// The row, from `at` on and round, that holds a side with the edge or is free; n, if `limit` rows hold others.
fn find(ids: &[u32], work: &[u32], edge: Edge, at: usize, limit: usize) -> usize
    requires { Seekable ids.now limit work.now × (at < length work.now) }
    ensures { SoughtIn ids.now work.now limit at edge result }
{
    let n = work.len();
    let mut r = at;
    for _ in 0..limit {
        let s = forest::slot(work, r);
        if s == 0 {
            return r;
        }
        if is_edge(ids, s - 1, edge) {
            return r;
        }
        r = table::next(r, n);
    }
    n
}

// ---- entering sides

// Enters side c, with this edge, if that is of the class: joins it to the side that its row holds, or fills the row, if so many slots as
// `spare` may be filled still. Is it entered?
fn enter_side(
    ids: &[u32],
    work: &mut [u32],
    plan: Plan,
    spare: &mut usize,
    c: usize,
    edge: Edge,
) -> bool
    requires { SideReady plan ids.now work.old c edge }
    ensures { Enters plan ids.now c (c + 1) work.old work.new result }
{
    if class_of(edge) != plan.class {
        return true;
    }
    let at = start(edge, plan, work.len());
    let r = find(ids, work, edge, at, plan.limit);
    if r == work.len() {
        return false;
    }
    let s = forest::slot(work, r);
    if s != 0 {
        forest::join(work, (s - 1) / 3, c / 3);
        return true;
    }
    if *spare == 0 {
        return false;
    }
    forest::hold(work, r, c + 1);
    *spare -= 1;
    true
}

// Enters the three sides of triangle t, if its ids are distinct. Are all entered?
fn enter(ids: &[u32], work: &mut [u32], plan: Plan, spare: &mut usize, t: usize) -> bool
    requires { SlotsReady plan ids.now work.old × (t < length work.old) }
    ensures { Enters plan ids.now (3 * t) (3 * (t + 1)) work.old work.new result }
{
    let at = 3 * t;
    let corners = Triangle::of(ids, t);
    if !corners.distinct() {
        return true;
    }
    let ab = enter_side(
        ids,
        work,
        plan,
        spare,
        at,
        Edge::between(corners.a, corners.b),
    );
    let bc = enter_side(
        ids,
        work,
        plan,
        spare,
        at + 1,
        Edge::between(corners.b, corners.c),
    );
    let ca = enter_side(
        ids,
        work,
        plan,
        spare,
        at + 2,
        Edge::between(corners.c, corners.a),
    );
    (ab & bc) & ca
}

// Enters triangles from `from` on: with slots to fill up to the first that finds no room, with none all of them, which only looks them
// up. Which triangle comes next.
fn enter_from(ids: &[u32], work: &mut [u32], plan: Plan, most: usize, from: usize) -> usize
    requires { SlotsReady plan ids.now work.old × (from ≤ length work.old) }
    ensures { EntersTo plan ids.now most from result work.old work.new }
{
    let n = work.len();
    let filling = 0 < most;
    let mut spare = most;
    for t in from..n {
        let entered = enter(ids, work, plan, &mut spare, t);
        if !entered & filling {
            return t;
        }
    }
    n
}

// One pass over a class, from triangle `from` on: every side that it entered is joined with all behind it that have their edge. Where it
// stopped entering.
pub fn pass(ids: &[u32], work: &mut [u32], class: u64, from: usize) -> usize
    requires { Joinable ids.now work.old × (from < length work.old) }
    ensures { (from ≤ result) × (result ≤ length work.old)
        × Settles ids.now (taken ids.now class) (length work.old) (3 * from) (3 * result)
        work.old work.new }
{
    forest::free(work);
    let n = work.len();
    let plan = plan_of(class, from, n);
    let next = enter_from(ids, work, plan, n - n / 8, from);
    enter_from(ids, work, plan, 0, next);
    next
}
