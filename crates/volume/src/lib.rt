// The best volume of a mesh, by its quality: the mesh's own where that is to be trusted, else the prism; and the cells of the prism's
// footprints. Internal: `qto` asks it; the record has its enums.
// Stays here: vertices and ids apart, for the reason that `verdict` has.
#![tactic(auto)]

mod number; // the number of a method

ghost use Rattle.std.specs.Prelude.{◌≡◌, length, replicate};
ghost use Rattle.ieee.specs.Magnitude.{magnitude};
ghost use Rattle.vertices.specs.Areas.{raster_bytes};
ghost use Rattle.volume.specs.Best.{prism_on, or_less, or_none, prism as prism_of, closed_best, degenerate_best, open_best, best_of};
ghost use Rattle.volume.specs.Pairs.{pair_on, prism_pairs, no_pairs, pairs_of};
ghost use Rattle.volume.specs.Best.{upper as upper_of, collapsed as collapsed_of, trusted as trusted_of};

use raster::{Axis, Pair, Window};
use sums::Bounds;
use verdict::{Quality, Sizes};

// The volume that is carried, by which definition, whether it is to be relied on, and what bounds it where that is computed.
#[derive(Clone, Copy)]
pub struct Best {
    pub volume: f32,
    pub method: Method,
    pub reliable: bool,
    pub prism: Option<f32>,
}

// Which definition the best volume has.
#[derive(Clone, Copy)]
pub enum Method {
    Mesh,
    MeshOpen,
    PrismFallback,
    MeshUnclipped,
    MeshProfileInvalid,
}

// The cells of the z, y and x footprints, each named by the axis that it is seen along.
#[derive(Clone, Copy)]
pub struct Pairs {
    pub z: Pair,
    pub y: Pair,
    pub x: Pair,
}

pub fn no_pairs() -> Pairs
    ensures { result ≡ no_pairs }
{
    Pairs {
        z: raster::no_cells(),
        y: raster::no_cells(),
        x: raster::no_cells(),
    }
}

// ---- the prism

// What one axis gives: the prism along it, and the cells of its footprint.
#[derive(Clone, Copy)]
pub struct Across {
    pub prism: f32,
    pub cells: Pair,
}

// The footprint in a window times the extent on the third axis, and its cells; 0 and none where the box is flat. The raster is zero
// afterwards.
fn prism_on(vertices: &[f32], indices: &[u32], s: Window, along: f32, raster: &mut [u8]) -> Across
    requires { length raster.old ≡ raster_bytes }
    ensures { (result.prism ≡ prism_on vertices.now indices.now s along)
        × (result.cells ≡ pair_on vertices.now indices.now s along)
        × (raster.new ≡ replicate raster_bytes 0) }
{
    if (along > 0.0) & ((s.xmax > s.xmin) & (s.ymax > s.ymin)) {
        let found = raster::footprint_raw(vertices, indices, s, raster);
        return Across {
            prism: found.area * along,
            cells: found.cells,
        };
    }
    raster::clear(raster, 65536);
    Across {
        prism: 0.0,
        cells: raster::no_cells(),
    }
}

// The lesser of m and p, if p is positive.
#[tactic(auto, unfolding(crate::specs::Best::or_less))]
fn or_less(m: f32, p: f32) -> f32
    ensures { result ≡ or_less m p }
{
    if p > 0.0 { floats::least(m, p) } else { m }
}

fn or_none(p: f32, cube: f32) -> f32
    ensures { result ≡ or_none p cube }
{
    if p < f32::from_bits(0x7f80_0000) {
        p * cube
    } else {
        0.0
    }
}

// The prism of a mesh, and the cells of its footprints.
#[derive(Clone, Copy)]
pub struct PrismAndPairs {
    pub prism: f32,
    pub pairs: Pairs,
}

fn prism(
    vertices: &[f32],
    indices: &[u32],
    b: Bounds,
    cube: f32,
    raster: &mut [u8],
) -> PrismAndPairs
    requires { length raster.old ≡ raster_bytes }
    ensures { (result.prism ≡ prism_of vertices.now indices.now b cube)
        × (result.pairs ≡ prism_pairs vertices.now indices.now b)
        × (raster.new ≡ replicate raster_bytes 0) }
{
    let across_z = raster::window_on(Axis::X, Axis::Y, b.xmin, b.xmax, b.ymin, b.ymax);
    let tall = sums::extent(b.zmin, b.zmax);
    let on_z = prism_on(vertices, indices, across_z, tall, raster);
    let across_y = raster::window_on(Axis::X, Axis::Z, b.xmin, b.xmax, b.zmin, b.zmax);
    let deep = sums::extent(b.ymin, b.ymax);
    let on_y = prism_on(vertices, indices, across_y, deep, raster);
    let across_x = raster::window_on(Axis::Y, Axis::Z, b.ymin, b.ymax, b.zmin, b.zmax);
    let wide = sums::extent(b.xmin, b.xmax);
    let on_x = prism_on(vertices, indices, across_x, wide, raster);
    let none = f32::from_bits(0x7f80_0000);
    let least = or_less(or_less(or_less(none, on_x.prism), on_y.prism), on_z.prism);
    PrismAndPairs {
        prism: or_none(least, cube),
        pairs: Pairs {
            z: on_z.cells,
            y: on_y.cells,
            x: on_x.cells,
        },
    }
}

// ---- the volume of an open shell

#[tactic(auto, unfolding(crate::specs::Best::upper))]
fn upper(prism: f32, aabb: f32) -> f32
    ensures { result ≡ upper_of prism aabb }
{
    if prism > 0.0 {
        if aabb > 0.0 {
            return floats::least(prism, aabb);
        }
        return prism;
    }
    if aabb > 0.0 {
        return aabb;
    }
    0.0
}

#[tactic(auto, unfolding(crate::specs::Best::collapsed))]
fn collapsed(prism: f32, most: f32, volume: f32, surface: f32) -> bool
    ensures { result ≡ collapsed_of prism most volume surface }
{
    (prism >= 1e-3) & (floats::cube_above(surface, prism) & (volume < most * 1e-3))
}

#[tactic(auto, unfolding(crate::specs::Best::trusted))]
fn trusted(prism: f32, most: f32, volume: f32, surface: f32) -> bool
    ensures { result ≡ trusted_of prism most volume surface }
{
    (most > 0.0)
        & ((volume > 0.0) & (!collapsed(prism, most, volume, surface) & (volume <= most * 1.05)))
}

#[tactic(auto, unfolding(crate::specs::Best::open_best))]
fn open_best(volume: f32, surface: f32, aabb: f32, prism: f32) -> Best
    ensures { result ≡ open_best volume surface aabb prism }
{
    let most = upper(prism, aabb);
    if trusted(prism, most, volume, surface) {
        return Best {
            volume,
            method: Method::MeshOpen,
            reliable: true,
            prism: Some(prism),
        };
    }
    Best {
        volume: prism,
        method: Method::PrismFallback,
        reliable: false,
        prism: Some(prism),
    }
}

// ---- by quality

fn closed_best(volume: f32) -> Best
    ensures { result ≡ closed_best volume }
{
    Best {
        volume,
        method: Method::Mesh,
        reliable: true,
        prism: None,
    }
}

fn degenerate_best() -> Best
    ensures { result ≡ degenerate_best }
{
    Best {
        volume: 0.0,
        method: Method::PrismFallback,
        reliable: false,
        prism: Some(0.0),
    }
}

// The best volume, and beside it the pairs.
#[derive(Clone, Copy)]
pub struct Carried {
    pub best: Best,
    pub pairs: Pairs,
}

// A best volume that no footprint is made for. The raster is zero afterwards.
fn without_footprints(best: Best, raster: &mut [u8]) -> Carried
    requires { length raster.old ≡ raster_bytes }
    ensures { (result.best ≡ best) × (result.pairs ≡ no_pairs)
        × (raster.new ≡ replicate raster_bytes 0) }
{
    raster::clear(raster, 65536);
    Carried {
        best,
        pairs: no_pairs(),
    }
}

// The best volume, by the magnitude of the mesh's own, and the pairs. Footprints are made for an open shell alone, and once for both. The
// raster is zero afterwards.
#[tactic(auto, unfolding(crate::specs::Best::best_of, crate::specs::Pairs::pairs_of))]
pub fn best_volume(
    quality: Quality,
    s: Sizes,
    vertices: &[f32],
    indices: &[u32],
    b: Bounds,
    cube: f32,
    raster: &mut [u8],
) -> Carried
    requires { length raster.old ≡ raster_bytes }
    ensures { (result.best ≡ best_of quality (magnitude s.volume) s.surface s.aabb
        (prism_of vertices.now indices.now b cube))
        × (result.pairs ≡ pairs_of quality (prism_pairs vertices.now indices.now b))
        × (raster.new ≡ replicate raster_bytes 0) }
{
    let volume = floats::magnitude(s.volume);
    match quality {
        Quality::Closed => without_footprints(closed_best(volume), raster),
        Quality::Degenerate => without_footprints(degenerate_best(), raster),
        Quality::OpenShell => {
            let p = prism(vertices, indices, b, cube, raster);
            Carried {
                best: open_best(volume, s.surface, s.aabb, p.prism),
                pairs: p.pairs,
            }
        }
    }
}
