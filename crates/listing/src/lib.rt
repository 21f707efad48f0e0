// The listing of document 01, with 02's counts, as bytes in a lent area: `list` for a record with its rows and pieces, `list_refusal` for
// a refusal.
// Stays here: the text area and the place apart, as in `spelling`.
#![tactic(auto)]

ghost use Rattle.std.specs.Prelude.{◌≡◌, ℕ, ◌+◌, ◌*◌, ◌≤◌, ◌<◌, length};
ghost use Rattle.rows.specs.Rows.{rows_of};
ghost use Rattle.ids.specs.Uses.{bit};
ghost use Rattle.ids.specs.Refusal.{refusal_number};
ghost use Rattle.record.specs.Names.{quality_name, method_name, defect_name, profile_name};
ghost use Rattle.spelling.specs.Text.{codes, decimal, line};
ghost use Rattle.spelling.specs.inner.Steps.{PutsText};
ghost use Rattle.listing.specs.Listing.{trust_lines, number_lines, prism_text, triangle_lines, count_lines, row_lines, head_lines};
ghost use Rattle.listing.specs.Lists.{head_bytes, Lists, ListsRefusal};
ghost use Rattle.listing.specs.inner.Steps.{Short};

use ids::Refusal;
use record::{MeshQto, ProfileDefect};
use verdict::Quality;
use volume::Method;

// How many bytes of a text area are for the lines above the rows.
const HEAD: usize = 352;

// ---- lines; each answers the place behind them

// The line of a quality, and below of the other cases of the record.
fn quality_line(quality: Quality) -> &'static [u8]
    ensures { (result.now ≡ line "quality " (codes (quality_name quality))) × (length result.now ≤ 19) }
{
    match quality {
        Quality::Closed => b"quality closed\n",
        Quality::OpenShell => b"quality open_shell\n",
        Quality::Degenerate => b"quality degenerate\n",
    }
}

fn reliable_line(reliable: bool) -> &'static [u8]
    ensures { (result.now ≡ line "reliable " (decimal (bit reliable))) × (length result.now ≤ 11) }
{
    if reliable {
        b"reliable 1\n"
    } else {
        b"reliable 0\n"
    }
}

fn method_line(method: Method) -> &'static [u8]
    ensures { (result.now ≡ line "method " (codes (method_name method))) × (length result.now ≤ 28) }
{
    match method {
        Method::Mesh => b"method mesh\n",
        Method::MeshOpen => b"method mesh_open\n",
        Method::PrismFallback => b"method prism_fallback\n",
        Method::MeshUnclipped => b"method mesh_unclipped\n",
        Method::MeshProfileInvalid => b"method mesh_profile_invalid\n",
    }
}

fn defect_line(defect: ProfileDefect) -> &'static [u8]
    ensures { (result.now ≡ line "profile " (codes (defect_name defect))) × (length result.now ≤ 26) }
{
    match defect {
        ProfileDefect::SelfIntersecting => b"profile self_intersecting\n",
        ProfileDefect::Degenerate => b"profile degenerate\n",
        ProfileDefect::HoleOutside => b"profile hole_outside\n",
        ProfileDefect::Overlapping => b"profile overlapping\n",
    }
}

fn profile_line(profile: Option<ProfileDefect>) -> &'static [u8]
    ensures { (result.now ≡ line "profile " (codes (profile_name profile))) × (length result.now ≤ 26) }
{
    match profile {
        None => b"profile none\n",
        Some(defect) => defect_line(defect),
    }
}

fn trust_lines(out: &mut [u8], at: usize, q: MeshQto) -> usize
    requires { at + 84 ≤ length out.old }
    ensures { PutsText at (trust_lines q) out.old result out.new × (result ≤ at + 84) }
{
    let quality = q.mesh_quality;
    let method = q.volume_method;
    let profile = q.profile_invalid;
    let a = spelling::put(out, at, quality_line(quality));
    let b = spelling::put(out, a, reliable_line(q.volume_reliable));
    let d = spelling::put(out, b, method_line(method));
    spelling::put(out, d, profile_line(profile))
}

fn number_lines(out: &mut [u8], at: usize, q: MeshQto) -> usize
    requires { at + 157 ≤ length out.old }
    ensures { PutsText at (number_lines q) out.old result out.new × (result ≤ at + 157) }
{
    spelling::fill(
        out,
        at,
        b"volume #\naabb #\nsurface #\ntop #\nbottom #\nside #\ninclined #\nlargest #\nsmallest #\nbest #\n",
        &[
            q.volume_m3,
            q.aabb_volume_m3,
            q.surface_area_m2,
            q.area_top_m2,
            q.area_bottom_m2,
            q.area_side_m2,
            q.area_inclined_m2,
            q.largest_surface_m2,
            q.smallest_surface_m2,
            q.volume_best_m3,
        ],
    )
}

fn prism_line(out: &mut [u8], at: usize, prism: Option<f32>) -> usize
    requires { at + 15 ≤ length out.old }
    ensures { PutsText at (line "prism " (prism_text prism)) out.old result out.new × (result ≤ at + 15) }
{
    match prism {
        None => spelling::put(out, at, b"prism none\n"),
        Some(p) => spelling::fill(out, at, b"prism #\n", &[p]),
    }
}

fn triangle_lines(out: &mut [u8], at: usize, q: MeshQto) -> usize
    requires { at + 51 ≤ length out.old }
    ensures { PutsText at (triangle_lines q) out.old result out.new × (result ≤ at + 51) }
{
    let a = spelling::count_line(out, at, b"used ", q.triangles_used);
    let b = spelling::count_line(out, a, b"range ", q.triangles_out_of_range);
    spelling::count_line(out, b, b"sliver ", q.triangles_sliver)
}

fn count_lines(out: &mut [u8], at: usize, q: MeshQto, pieces: u32) -> usize
    requires { at + 89 ≤ length out.old }
    ensures { PutsText at (count_lines q pieces) out.old result out.new × (result ≤ at + 89) }
{
    let a = spelling::count_line(out, at, b"pieces ", pieces);
    let b = triangle_lines(out, a, q);
    spelling::count_line(out, b, b"surfaces ", q.surface_count)
}

// All lines above the rows.
fn head_lines(out: &mut [u8], q: MeshQto, pieces: u32) -> usize
    requires { head_bytes ≤ length out.old }
    ensures { PutsText 0 (head_lines q pieces) out.old result out.new × (result ≤ head_bytes) }
{
    let prism = q.volume_prism_bound_m3;
    let a = trust_lines(out, 0, q);
    let b = number_lines(out, a, q);
    let d = prism_line(out, b, prism);
    count_lines(out, d, q, pieces)
}

// n rows of four floats.
fn row_lines(out: &mut [u8], at: usize, surfaces: &[f32], n: usize) -> usize
    requires { (length surfaces.now ≡ 4 * n) × (at + 36 * n ≤ length out.old) }
    ensures { PutsText at (row_lines (rows_of surfaces.now)) out.old result out.new }
{
    let mut end = at;
    for i in 0..n {
        end = spelling::fill(out, end, b"# # # #\n", &surfaces[4 * i..4 * i + 4]);
    }
    end
}

// ---- the listing

fn areas_short(n: usize, surfaces: usize, text: usize) -> bool
    requires { n < 4294967296 }
    ensures { Short n surfaces text result }
{
    (surfaces < 4 * n) | (text < HEAD + 36 * n)
}

// Of a record, the surface area with its rows, and the number of pieces: how long the text is, or the refusal of an area that is too short.
pub fn list(q: MeshQto, surfaces: &[f32], pieces: u32, text: &mut [u8]) -> Result<usize, Refusal>
    ensures { Lists q surfaces.now pieces text.old result text.new }
{
    let n = q.surface_count as usize;
    if areas_short(n, surfaces.len(), text.len()) {
        return Err(Refusal::ShortArea);
    }
    let head = head_lines(text, q, pieces);
    let end = row_lines(text, head, &surfaces[..4 * n], n);
    Ok(end)
}

// What `refused N` is printed of: a refusal, or any other number. Its type says which number that is, so that the text is one and no other.
pub trait Numbered {
    ghost number_of: { Self → ℕ };

    fn number(self) -> u32
        ensures { result ≡ number_of self };
}

impl Numbered for Refusal {
    ghost number_of = { refusal_number };

    fn number(self) -> u32 {
        u32::from(self)
    }
}

impl Numbered for u8 {
    ghost number_of = { λ n. n };

    fn number(self) -> u32 {
        u32::from(self)
    }
}

impl Numbered for u16 {
    ghost number_of = { λ n. n };

    fn number(self) -> u32 {
        u32::from(self)
    }
}

impl Numbered for u32 {
    ghost number_of = { λ n. n };

    fn number(self) -> u32 {
        self
    }
}

// `refused N`.
pub fn list_refusal<N: Numbered>(refusal: N, text: &mut [u8]) -> Result<usize, Refusal>
    ensures { ListsRefusal (N.number_of refusal) text.old result text.new }
{
    let n = refusal.number();
    if text.len() < HEAD {
        return Err(Refusal::ShortArea);
    }
    Ok(spelling::count_line(text, 0, b"refused ", n))
}
