// What the programs that read one file and print one text share: reading standard input to its end, and writing standard output.
// Stays here: an area and how many bytes it has apart: it is filled read by read.
#![tactic(auto)]

ghost use Rattle.std.specs.Prelude.{◌+◌, ◌≤◌, ◌≡◌, IfOk, MatchResult, length, take};

use std::io;
use std::io::Read;

// A read failed. So many bytes were there before it.
#[derive(Clone, Copy)]
pub struct Broken {
    pub n: usize,
}

// One read to the front of the area: how many bytes came, 0 at the end of the input. Where it fails it says why.
fn read_some(rt: &impl Eprint, from: &mut impl Read, area: &mut [u8]) -> io::Result<usize>
    ensures { IfOk result (λ came. came ≤ length area.old) }
{
    from.read(area).inspect_err(|e| {
        let _ = eprintln!(rt; "standard input: {e}");
    })
}

// One read behind the n bytes that are there: these stay as they are, and so many came behind them.
fn read_behind(
    rt: &impl Eprint,
    from: &mut impl Read,
    bytes: &mut [u8],
    n: usize,
) -> io::Result<usize>
    requires { n ≤ length bytes.old }
    ensures { (take n bytes.new ≡ take n bytes.old) × IfOk result (λ came. n + came ≤ length bytes.old) }
{
    read_some(rt, from, &mut bytes[n..])
}

// Reads on and keeps nothing.
fn skip_some(from: &mut impl Read) -> bool {
    from.read(&mut [0u8; 4096]).is_ok_and(|came| came > 0)
}

// Reads to the end of the input, so that whoever writes it is not cut off. A proved loop has to end: it counts up to a
// number that no run uses up.
fn skip_rest(from: &mut impl Read) {
    for _ in 0..u64::MAX {
        if !skip_some(from) {
            return;
        }
    }
}

// Reads behind the n bytes that are there to the end of the input, and keeps as much as the area holds.
// The n bytes stay as they are, and are counted, where a read fails too.
pub fn read_input(
    rt: &(impl io::Input + Eprint),
    bytes: &mut [u8],
    n: usize,
) -> Result<usize, Broken>
    requires { n ≤ length bytes.old }
    ensures { (take n bytes.new ≡ take n bytes.old)
        × MatchResult result (λ have. (n ≤ have) × (have ≤ length bytes.new)) (λ e. (n ≤ e.n) × (e.n ≤ length bytes.new)) }
{
    let mut from = rt.reader();
    let mut have = n;
    // Stays: a `while`, since a turn goes as far as the read that it makes.
    while have < bytes.len() {
        let came = read_behind(rt, &mut from, bytes, have).map_err(|_| Broken { n: have })?;
        if came == 0 {
            return Ok(have);
        }
        have += came;
    }
    skip_rest(&mut from);
    Ok(have)
}

// How many bytes count. Where a read fails what came before is no whole file, even where it looks like one: then nothing of it counts.
pub fn counted(input: Result<usize, Broken>) -> usize
    ensures { MatchResult input (λ n. result ≡ n) (λ _. result ≡ 0) }
{
    input.unwrap_or(0)
}

// Writes the text, and where that fails says why.
pub fn write_text(rt: &(impl Print + Eprint), text: &[u8]) {
    if let Err(e) = rt.write_all(text) {
        let _ = eprintln!(rt; "standard output: {e}");
    }
}
