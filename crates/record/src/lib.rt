// The record, `MeshQto`, and its flags: each takes a record and hands one back. The names are 000's. And the number of a profile, and flags
// of numbers.
#![tactic(auto)]

ghost use Rattle.std.specs.Prelude.{◌≡◌};
ghost use Rattle.record.specs.Record.{zero_record};
ghost use Rattle.record.specs.Numbers.{defect_number, profile_number, flags_fit, profile_at};
ghost use Rattle.record.specs.Flags.{relabelled as relabelled_to, marked as marked_by, clip_unapplied, profile_invalid};
ghost use Rattle.record.specs.Flags.{if_clip, if_invalid, flagged};

use verdict::Quality;
use volume::Method;

// Why a profile is no valid region.
#[derive(Clone, Copy)]
pub enum ProfileDefect {
    SelfIntersecting,
    Degenerate,
    HoleOutside,
    Overlapping,
}

// All numbers of a mesh but its surface rows, which are in the lent surface area.
#[derive(Clone, Copy)]
pub struct MeshQto {
    pub volume_m3: f32,
    pub aabb_volume_m3: f32,
    pub surface_area_m2: f32,
    pub area_top_m2: f32,
    pub area_bottom_m2: f32,
    pub area_side_m2: f32,
    pub area_inclined_m2: f32,
    pub largest_surface_m2: f32,
    pub smallest_surface_m2: f32,
    pub surface_count: u32,
    pub mesh_quality: Quality,
    pub volume_reliable: bool,
    pub volume_method: Method,
    pub volume_best_m3: f32,
    pub volume_prism_bound_m3: Option<f32>,
    pub profile_invalid: Option<ProfileDefect>,
    // triangles: used, and left out because an id is out of range or because they are slivers
    pub triangles_used: u32,
    pub triangles_out_of_range: u32,
    pub triangles_sliver: u32,
}

// A method that says the volume is the mesh's becomes another.
#[tactic(auto, unfolding(crate::specs::Flags::relabelled))]
fn relabelled(to: Method, from: Method) -> Method
    ensures { result ≡ relabelled_to to from }
{
    match from {
        Method::Mesh | Method::MeshOpen => to,
        Method::PrismFallback => Method::PrismFallback,
        Method::MeshUnclipped => Method::MeshUnclipped,
        Method::MeshProfileInvalid => Method::MeshProfileInvalid,
    }
}

impl MeshQto {
    // The record of fewer than 3 ids or 9 floats.
    pub fn zero() -> MeshQto
        ensures { result ≡ zero_record }
    {
        MeshQto {
            volume_m3: 0.0,
            aabb_volume_m3: 0.0,
            surface_area_m2: 0.0,
            area_top_m2: 0.0,
            area_bottom_m2: 0.0,
            area_side_m2: 0.0,
            area_inclined_m2: 0.0,
            largest_surface_m2: 0.0,
            smallest_surface_m2: 0.0,
            surface_count: 0,
            mesh_quality: Quality::Degenerate,
            volume_reliable: false,
            volume_method: Method::PrismFallback,
            volume_best_m3: 0.0,
            volume_prism_bound_m3: Some(0.0),
            profile_invalid: None,
            triangles_used: 0,
            triangles_out_of_range: 0,
            triangles_sliver: 0,
        }
    }

    // The record, not reliable, with a method and a profile.
    #[tactic(auto, unfolding(crate::specs::Flags::marked))]
    fn marked(self, method: Method, profile: Option<ProfileDefect>) -> MeshQto
        ensures { result ≡ marked_by method profile self }
    {
        MeshQto {
            volume_reliable: false,
            volume_method: method,
            profile_invalid: profile,
            ..self
        }
    }

    // An unapplied clip: the mesh is the unclipped body, so its volume is too large.
    pub fn mark_clip_unapplied(self) -> MeshQto
        ensures { result ≡ clip_unapplied self }
    {
        let method = relabelled(Method::MeshUnclipped, self.volume_method);
        self.marked(method, self.profile_invalid)
    }

    // An invalid profile: the mesh fills a region that nobody meant.
    pub fn mark_profile_invalid(self, defect: ProfileDefect) -> MeshQto
        ensures { result ≡ profile_invalid self defect }
    {
        let method = relabelled(Method::MeshProfileInvalid, self.volume_method);
        self.marked(method, Some(defect))
    }

    // The record with or without an unapplied clip.
    #[tactic(auto, unfolding(crate::specs::Flags::if_clip))]
    fn if_clip(self, clip: bool) -> MeshQto
        ensures { result ≡ if_clip clip self }
    {
        if clip {
            self.mark_clip_unapplied()
        } else {
            self
        }
    }

    // The record with or without a defect.
    #[tactic(auto, unfolding(crate::specs::Flags::if_invalid))]
    fn if_invalid(self, profile: Option<ProfileDefect>) -> MeshQto
        ensures { result ≡ if_invalid profile self }
    {
        match profile {
            None => self,
            Some(defect) => self.mark_profile_invalid(defect),
        }
    }

    // Both flags, the clip first.
    pub fn apply_product_flags(self, clip: bool, profile: Option<ProfileDefect>) -> MeshQto
        ensures { result ≡ flagged clip profile self }
    {
        self.if_clip(clip).if_invalid(profile)
    }
}

// ---- a profile as a number

impl From<ProfileDefect> for u32 {
    ghost from_gives = { λ defect n. n ≡ defect_number defect };

    #[tactic(auto, unfolding(crate::specs::Numbers::defect_number))]
    fn from(defect: ProfileDefect) -> u32 {
        match defect {
            ProfileDefect::SelfIntersecting => 1,
            ProfileDefect::Degenerate => 2,
            ProfileDefect::HoleOutside => 3,
            ProfileDefect::Overlapping => 4,
        }
    }
}

// 0 for a valid one.
// Stays: a function, since neither Option nor u32 is a type of this crate, so that no From can be written for them here.
#[tactic(auto, unfolding(crate::specs::Numbers::profile_number))]
pub fn profile_number(profile: Option<ProfileDefect>) -> u32
    ensures { result ≡ profile_number profile }
{
    match profile {
        None => 0,
        Some(defect) => u32::from(defect),
    }
}

// ---- flags as numbers

// Is clip 0 or 1, and defect 0 to 4?
// Stays: numbers, since the flags of C (`mf_compute`, `mf_write_mesh`) and of a file's kind 4 are.
pub fn flags_fit(clip: u32, defect: u32) -> bool
    ensures { result ≡ flags_fit clip defect }
{
    (clip <= 1) & (defect <= 4)
}

// The profile of a number: 0 is a valid one, and all from 4 are the last defect.
// Stays: a function, since neither u32 nor Option is a type of this crate, so that no From can be written for them here.
pub fn profile_of(defect: u32) -> Option<ProfileDefect>
    ensures { result ≡ profile_at defect }
{
    match defect {
        0 => None,
        1 => Some(ProfileDefect::SelfIntersecting),
        2 => Some(ProfileDefect::Degenerate),
        3 => Some(ProfileDefect::HoleOutside),
        _ => Some(ProfileDefect::Overlapping),
    }
}
