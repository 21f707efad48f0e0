// Runs the meshes of data/meshes, each a u32 length and so many bytes of the program's format, and prints for each what
// `takeoff` prints, and a line with what the routines on ids say of its ids, what `compute` says to a work area that is one word
// short, under edition 1 and under one that is unknown, the pairs of its footprints, and its areas by slope under edition 2; and a
// line with what `write` makes of what was read. Then what `write` says to too much, and the files of data/mounts, in the same
// framing, each a binary STL: what `takeoff_stl` prints. The gate holds this to `stdout`: the unchanged Rust's answers, and a plain
// reference's where the Rust has none (docs/DIFFERENCES.md says how).
// Stays here: an edition by its number, since an unknown one is asked too; and vertices, ids and unit apart, as `compute` takes them.
#![tactic(auto)]

ghost use Rattle.std.specs.Prelude.{◌≤◌, length};

use ids::Refusal;
use meshfile::MeshFile;
use qto::Takeoff;
use raster::Pair;
use std::fs::File;
use std::io::Read;
use std::rt::Files;

// Writes to standard output. What cannot be written is let go: whoever compares the output misses it.
fn print_text(rt: &impl Print, text: &[u8]) {
    let _ = rt.write_all(text);
}

// ---- what the routines on ids say

fn print_count(rt: &impl Print, label: &[u8], n: u64) {
    print_text(rt, label);
    let _ = print!(rt; "{n}");
}

// A label and a yes or no.
fn print_bit(rt: &impl Print, label: &[u8], yes: bool) {
    print_count(rt, label, yes as u64);
}

// A refusal, by its number.
fn print_refused(rt: &impl Print, label: &[u8], why: Refusal) {
    print_count(rt, label, u32::from(why) as u64);
}

fn print_chain(rt: &impl Print, ids: &[u32], work: &mut [u32]) {
    match chain::edge_chain(ids, work) {
        Ok(said) => {
            print_bit(rt, b"chain ", said.boundary_free);
            print_bit(rt, b" ", said.over_incident);
        }
        Err(why) => print_refused(rt, b"chain refused ", why),
    }
}

fn print_net(rt: &impl Print, ids: &[u32], work: &mut [u32]) {
    match chain::face_net(ids, work) {
        Ok(said) => {
            print_count(rt, b" net ", said.max_abs as u64);
            print_bit(rt, b" ", said.all_cancel);
        }
        Err(why) => print_refused(rt, b" net refused ", why),
    }
}

fn print_verdict(rt: &impl Print, label: &[u8], verdict: Result<bool, Refusal>) {
    match verdict {
        Ok(yes) => print_bit(rt, label, yes),
        Err(why) => print_refused(rt, b" refused ", why),
    }
}

fn print_ids(rt: &impl Print, ids: &[u32]) {
    let mut work = [0u32; 6144];
    print_chain(rt, ids, &mut work);
    print_net(rt, ids, &mut work);
    print_verdict(rt, b" manifold ", chain::is_closed_manifold(ids, &mut work));
    print_verdict(rt, b" winding ", chain::winding_coherent(ids, &mut work));
}

// ---- a work area that is one word short

// Refusal 3 unless one comes before it, as 7 does where the edition is unknown; or 0 for the zero record, which asks for no words.
fn print_short(
    rt: &impl Print,
    label: &[u8],
    vertices: &[f32],
    ids: &[u32],
    unit: f32,
    edition: u32,
)
    requires { (length vertices.now ≤ 1536) × (length ids.now ≤ 1536) }
{
    let mut work = [0u32; 13824];
    let mut raster = [0u8; 65536];
    let mut surfaces = [0f32; 2048];
    let needed = 5 * ids.len() + 4 * (ids.len() / 3) + 8 * (vertices.len() / 3);
    let lent = needed.saturating_sub(1);
    let answer = qto::compute(
        vertices,
        ids,
        unit,
        edition,
        &mut work[..lent],
        &mut raster,
        &mut surfaces,
    );
    match answer {
        Ok(_) => print_count(rt, label, 0),
        Err(refusal) => print_count(rt, label, u32::from(refusal) as u64),
    }
}

// ---- in areas that suffice, under an edition

fn answer_under(
    edition: u32,
    vertices: &[f32],
    ids: &[u32],
    unit: f32,
) -> Result<Takeoff, Refusal> {
    let mut work = [0u32; 13824];
    let mut raster = [0u8; 65536];
    let mut surfaces = [0f32; 2048];
    qto::compute(
        vertices,
        ids,
        unit,
        edition,
        &mut work,
        &mut raster,
        &mut surfaces,
    )
}

// ---- the pairs

fn print_pair(rt: &impl Print, p: Pair) {
    print_count(rt, b" ", p.covered as u64);
    print_count(rt, b" ", p.rim as u64);
}

// Of the z, y and x footprints; a refusal has none.
fn print_pairs(rt: &impl Print, vertices: &[f32], ids: &[u32], unit: f32) {
    let answer = answer_under(1, vertices, ids, unit);
    match answer {
        Ok(t) => {
            let pairs = t.pairs;
            print_text(rt, b" pairs");
            print_pair(rt, pairs.z);
            print_pair(rt, pairs.y);
            print_pair(rt, pairs.x);
        }
        Err(_) => {}
    }
}

// ---- the areas by slope under edition 2

fn print_area(rt: &impl Print, area: f32) {
    print_count(rt, b" ", floats::bits(area) as u64);
}

// Their bits: top, bottom, side, inclined; a refusal has none.
fn print_second(rt: &impl Print, vertices: &[f32], ids: &[u32], unit: f32) {
    let answer = answer_under(2, vertices, ids, unit);
    match answer {
        Ok(t) => {
            let q = t.qto;
            print_text(rt, b" second");
            print_area(rt, q.area_top_m2);
            print_area(rt, q.area_bottom_m2);
            print_area(rt, q.area_side_m2);
            print_area(rt, q.area_inclined_m2);
        }
        Err(_) => {}
    }
}

// ---- the line

fn print_answers(rt: &impl Print, vertices: &[f32], ids: &[u32], unit: f32)
    requires { (length vertices.now ≤ 1536) × (length ids.now ≤ 1536) }
{
    print_ids(rt, ids);
    print_short(rt, b" short ", vertices, ids, unit, 1);
    print_short(rt, b" unknown ", vertices, ids, unit, 3);
    print_pairs(rt, vertices, ids, unit);
    print_second(rt, vertices, ids, unit);
    print_text(rt, b"\n");
}

// The line for a file that can be read; of any other there is nothing to say.
fn print_line_of(rt: &impl Print, bytes: &[u8]) {
    let mut vertices = [0f32; 1536];
    let mut ids = [0u32; 1536];
    if let Ok(m) = meshfile::read(bytes, &mut vertices, &mut ids) {
        print_answers(rt, &vertices[..m.floats], &ids[..m.ids], m.unit);
    }
}

// ---- the file written back

// The Adler-32 of bytes.
fn adler(bytes: &[u8]) -> u32 {
    let mut a = 1u32;
    let mut b = 0u32;
    for byte in bytes {
        a = (a + *byte as u32) % 65521;
        b = (b + a) % 65521;
    }
    65536 * b + a
}

// A refusal, or 0 for a file.
fn print_refusal(rt: &impl Print, label: &[u8], answer: Result<usize, Refusal>) {
    print_count(rt, label, answer.map_or_else(u32::from, |_| 0) as u64);
}

fn print_file(rt: &impl Print, file: &[u8]) {
    print_count(rt, b"written ", file.len() as u64);
    print_count(rt, b" ", adler(file) as u64);
}

// Into an area that is one byte short: 3.
fn print_cut(rt: &impl Print, m: MeshFile<u32>, vertices: &[u32], ids: &[u32], area: &mut [u8]) {
    let n = area.len().saturating_sub(1);
    let profile = m.profile;
    let answer = meshfile::write(m.unit, vertices, ids, m.clip, profile, &mut area[..n]);
    print_refusal(rt, b" short ", answer);
}

fn print_written(rt: &impl Print, m: MeshFile<u32>, vertices: &[u32], ids: &[u32]) {
    let mut area = [0u8; 12318];
    let profile = m.profile;
    let answer = meshfile::write(m.unit, vertices, ids, m.clip, profile, &mut area);
    match answer {
        Ok(n) => {
            print_file(rt, &area[..n]);
            print_cut(rt, m, vertices, ids, &mut area[..n]);
        }
        Err(refusal) => print_count(rt, b"written refused ", u32::from(refusal) as u64),
    }
    print_text(rt, b"\n");
}

// The line for a file that can be read.
fn print_back(rt: &impl Print, bytes: &[u8]) {
    let mut vertices = [0u32; 1536];
    let mut ids = [0u32; 1536];
    if let Ok(m) = meshfile::read_bits(bytes, &mut vertices, &mut ids) {
        print_written(rt, m, &vertices[..m.floats], &ids[..m.ids]);
    }
}

// One float too many, and one id: 6, though there is no room either.
fn print_many(rt: &impl Print) {
    let words = [0u32; 1537];
    let few = [0u32; 1];
    let mut area = [0u8; 1];
    let floats = meshfile::write(0, &words, &few, false, None, &mut area);
    print_refusal(rt, b"many ", floats);
    let ids = meshfile::write(0, &few, &words, false, None, &mut area);
    print_refusal(rt, b" ", ids);
    print_text(rt, b"\n");
}

// ---- one file after the other

// A mesh file: what `takeoff` prints, and the two lines.
// Stays: two functions, since a closure for `run` would have to promise that its text lies within the area, which its contract says.
fn print_mesh(rt: &impl Print, bytes: &[u8]) {
    let mut text = [0u8; program::TEXT];
    let end = program::run(bytes, &mut text);
    print_text(rt, &text[..end]);
    print_line_of(rt, bytes);
    print_back(rt, bytes);
}

// An STL: what `takeoff_stl` prints.
fn print_stl(rt: &impl Print, bytes: &[u8]) {
    let mut text = [0u8; program::TEXT];
    let end = program::run_stl(bytes, &mut text);
    print_text(rt, &text[..end]);
}

// One read to the front of the area: how many bytes came, 0 at the end or where it fails.
fn read_some(file: &mut impl Read, area: &mut [u8]) -> usize
    ensures { result ≤ length area.old }
{
    match file.read(area) {
        Ok(came) => came,
        Err(_) => 0,
    }
}

// Reads until the area is full, the file ends or a read fails: so many bytes came.
fn read_full(file: &mut impl Read, area: &mut [u8]) -> usize
    ensures { result ≤ length area.new }
{
    let mut done = 0;
    // Stays: a `while`, since a turn goes as far as its read.
    while done < area.len() {
        let came = read_some(file, &mut area[done..]);
        if came == 0 {
            break;
        }
        done += came;
    }
    done
}

// Prints the next file, and answers whether there was one. No file of the lists is longer than the buffer.
fn replay_next<F: Fn(&[u8])>(file: &mut impl Read, print: &F) -> bool
    requires { F.IsAlwaysCallable print.now }
{
    let mut head = [0u8; 4];
    if read_full(file, &mut head) < 4 {
        return false;
    }
    let n = words::u32_at(&head, 0) as usize;
    let mut area = [0u8; 65536];
    if n > 65536 {
        return false;
    }
    let got = read_full(file, &mut area[..n]);
    print(&area[..got]);
    true
}

// A proved loop has to end: it counts up to a number that no list uses up.
fn replay_all<F: Fn(&[u8])>(file: &mut impl Read, print: &F)
    requires { F.IsAlwaysCallable print.now }
{
    for _ in 0..u64::MAX {
        if !replay_next(file, print) {
            return;
        }
    }
}

fn replay<F: Fn(&[u8])>(rt: &(impl Files + Eprint), name: &str, print: F)
    requires { F.IsAlwaysCallable print }
{
    match File::open(rt, name) {
        Ok(mut file) => replay_all(&mut file, &print),
        Err(e) => {
            let _ = eprintln!(rt; "{name}: {e}");
        }
    }
}

fn main(rt: HostRuntime) {
    replay(&rt, "meshes", |bytes| print_mesh(&rt, bytes));
    print_many(&rt);
    replay(&rt, "mounts", |bytes| print_stl(&rt, bytes));
}
