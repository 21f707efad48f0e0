// `classify_mesh_quality`: closed, open shell or degenerate. Internal: `qto` asks it; the record has its enum.
#![tactic(auto)]

mod number; // the number of a quality

ghost use Rattle.std.specs.Prelude.{◌≡◌, ◌+◌, ◌*◌, ◌≤◌, length, replicate};
ghost use Rattle.ids.specs.Lent.{most_entries};
ghost use Rattle.ids.specs.Triangles.{triangle_count};
ghost use Rattle.vertices.specs.Areas.{work_words};
ghost use Rattle.weld.specs.Weld.{welded};
ghost use Rattle.verdict.specs.Verdict.{by_faces, by_chain, quality as quality_of};
ghost use Rattle.verdict.specs.inner.Steps.{chained, open_unless_free, PartsFit, FacesFit};

#[derive(Clone, Copy, PartialEq)]
pub enum Quality {
    Closed,
    OpenShell,
    Degenerate,
}

// The quality of ids that are boundary-free. The part has room for their faces.
#[tactic(auto, unfolding(crate::specs::Verdict::by_faces))]
fn by_faces(ids: &[u32], part: &mut [u32], over_incident: bool, near: bool) -> Quality
    requires { FacesFit ids.now part.old over_incident }
    ensures { result ≡ by_faces ids.now near }
{
    if !(over_incident | near) {
        return Quality::Closed;
    }
    let net = tally::net_of(ids, part);
    if 2 <= net.max_abs {
        return Quality::OpenShell;
    }
    if near & net.all_cancel {
        return Quality::Degenerate;
    }
    Quality::Closed
}

// What ids say: none where they are not boundary-free, else a quality. The parts are the edge part and the face part.
fn by_ids(ids: &[u32], parts: &mut [u32], near: bool) -> Option<Quality>
    requires { (length ids.now ≤ most_entries) × (4 * length ids.now + 4 * triangle_count ids.now ≤ length parts.old) }
    ensures { result ≡ chained ids.now near }
{
    let (edge_part, face_part) = parts.split_at_mut(4 * ids.len());
    let edges = tally::chain_of(ids, edge_part);
    if !edges.boundary_free {
        return None;
    }
    Some(by_faces(ids, face_part, edges.over_incident, near))
}

// What the welded ids say: open where they are not boundary-free.
// Stays: vertices, ids and distance apart, here and below: an `ensures` sees a struct of borrowed slices at two moments, so that each clause
// would say `mesh.entry.vertices.now` (tried).
fn by_welded(vertices: &[f32], indices: &[u32], eps: f32, near: bool, work: &mut [u32]) -> Quality
    requires { PartsFit vertices.now indices.now work.old }
    ensures { result ≡ open_unless_free (chained (welded vertices.now indices.now eps) near) }
{
    let i = indices.len();
    let front = 4 * i + 4 * (i / 3);
    let m = 8 * (vertices.len() / 3);
    weld::welded_indices(vertices, indices, eps, &mut work[front..]);
    let (parts, ids) = work.split_at_mut(front + m);
    by_ids(ids, parts, near).unwrap_or(Quality::OpenShell)
}

// What the given ids say: none where they are not boundary-free.
fn by_given(vertices: &[f32], indices: &[u32], near: bool, work: &mut [u32]) -> Option<Quality>
    requires { PartsFit vertices.now indices.now work.old }
    ensures { result ≡ chained indices.now near }
{
    let i = indices.len();
    let front = 4 * i + 4 * (i / 3);
    let m = 8 * (vertices.len() / 3);
    weld::lay(indices, &mut work[front..], m);
    let (parts, ids) = work.split_at_mut(front + m);
    by_ids(ids, parts, near)
}

// What the given ids say, or if they are not boundary-free the welded ones.
#[tactic(auto, using(crate::proofs::Meaning::given_some, crate::proofs::Meaning::given_none))]
fn by_chain(vertices: &[f32], indices: &[u32], eps: f32, near: bool, work: &mut [u32]) -> Quality
    requires { PartsFit vertices.now indices.now work.old }
    ensures { result ≡ by_chain vertices.now indices.now eps near }
{
    match by_given(vertices, indices, near, work) {
        Some(quality) => quality,
        None => by_welded(vertices, indices, eps, near, work),
    }
}

// ---- the whole

// What is known of a mesh besides its ids: the signed volume, the surface area and the box's volume, after the unit.
#[derive(Clone, Copy)]
pub struct Sizes {
    pub volume: f32,
    pub surface: f32,
    pub aabb: f32,
}

// By the box and the volume, then by the ids.
fn judge(vertices: &[f32], indices: &[u32], eps: f32, s: Sizes, work: &mut [u32]) -> Quality
    requires { PartsFit vertices.now indices.now work.old }
    ensures { result ≡ quality_of vertices.now indices.now eps s.volume s.aabb }
{
    if s.aabb <= 0.0 {
        return Quality::Degenerate;
    }
    let size = floats::magnitude(s.volume);
    if size > s.aabb * 1.001 {
        return Quality::OpenShell;
    }
    by_chain(vertices, indices, eps, size <= s.aabb * 1e-6, work)
}

// The quality of a mesh. The work words, edge, face, weld and id part, are zero afterwards.
pub fn classify_mesh_quality(
    vertices: &[f32],
    indices: &[u32],
    eps: f32,
    s: Sizes,
    work: &mut [u32],
) -> Quality
    requires { PartsFit vertices.now indices.now work.old }
    ensures { (result ≡ quality_of vertices.now indices.now eps s.volume s.aabb)
        × (work.new ≡ replicate (work_words (length vertices.now) (length indices.now)) 0) }
{
    let q = judge(vertices, indices, eps, s, work);
    let n = work.len();
    table::clear(work, n);
    q
}
