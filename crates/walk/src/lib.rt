// One walk over the triangles: the totals, a row for each key of a normal, and how many triangles were used and left out. Internal: `qto`
// asks it.
#![tactic(auto)]

ghost use Rattle.sums.specs.inner.Prepared.{part_by};
ghost use Rattle.walk.specs.inner.Steps.{state, Takeable, Takes};
ghost use Rattle.walk.specs.inner.Walks.{Walkable, Walks};

use sums::{Prepared, Thresholds, Totals};
use surfaces::Normal;

// What the triangles done so far add up to, how many rows they have, and how many were used and were slivers.
#[derive(Clone, Copy)]
pub struct Sums {
    pub totals: Totals,
    pub rows: usize,
    pub used: u32,
    pub sliver: u32,
}

// How many triangles were used, and how many left out and why.
#[derive(Clone, Copy)]
pub struct TriangleCounts {
    pub used: u32,
    pub out_of_range: u32,
    pub sliver: u32,
}

// What all triangles add up to.
#[derive(Clone, Copy)]
pub struct Walked {
    pub totals: Totals,
    pub rows: usize,
    pub counts: TriangleCounts,
}

// Stays: six parameters, since `surfaces` takes each of these by itself, and a type that holds both slices would live for this call alone.
// What is prepared of a triangle more: a facet adds its row and its part of the totals. It is counted as used or as a sliver; what is
// neither is out of range, or no triangle.
fn take(
    pair: Thresholds,
    mut s: Sums,
    p: Prepared,
    index: &mut [u32],
    rows: &mut [f32],
    m: usize,
) -> Sums
    requires { Takeable m s index.old rows.old }
    ensures { Takes m pair (part_by p) (state index.old rows.old s)
        (state index.new rows.new result) }
{
    if !p.in_range {
        return s;
    }
    if p.length < 1e-12 {
        s.sliver += 1;
        return s;
    }
    let used = s.used + 1;
    let f = sums::facet_by(p);
    let normal = Normal {
        x: f.nx,
        y: f.ny,
        z: f.nz,
    };
    let n = surfaces::put_normal(index, rows, m, s.rows, normal, f.area32);
    Sums {
        totals: s.totals.add(pair, f),
        rows: n,
        used,
        ..s
    }
}

// The sums and counts of all triangles. The rows stand first in the surface area; the index, 5 words a triangle, is left as it is, since
// all words are cleared when the verdict is known. In one turn a triangle gets its cross product, the one in front of it its root, and the
// one in front of that is taken: the three have nothing to do with each other, so that a processor looks for a row while it works at a
// root. What is neither used nor a sliver in the end was out of range.
pub fn walk(
    vertices: &[f32],
    indices: &[u32],
    origin: [f64; 3],
    pair: Thresholds,
    index: &mut [u32],
    rows: &mut [f32],
) -> Walked
    requires { Walkable vertices.now indices.now index.old rows.old }
    ensures { Walks vertices.now origin pair indices.now rows.old result rows.new }
{
    let n = index.len();
    table::clear(index, n);
    let m = indices.len() / 3;
    let mut s = Sums {
        totals: Totals::none(),
        rows: 0,
        used: 0,
        sliver: 0,
    };
    let mut held = sums::nothing();
    let mut next = sums::nothing();
    for t in 0..m + 2 {
        let p = sums::with_root(next, held);
        let r = sums::cross_at(vertices, indices, origin, t);
        s = take(pair, s, held, index, rows, m);
        held = p;
        next = r;
    }
    let out_of_range = m as u32 - s.used - s.sliver;
    Walked {
        totals: s.totals,
        rows: s.rows,
        counts: TriangleCounts {
            used: s.used,
            out_of_range,
            sliver: s.sliver,
        },
    }
}
