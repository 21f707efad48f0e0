// A table of entries by their keys, in lent words: where a key's entry is, and an entry more. Internal: `cells` and `surfaces` have
// one each.
// Stays here: the words and a place apart, since a layout reads and writes keys within the words of a table that goes on.
#![tactic(auto)]

ghost use Rattle.std.specs.Prelude.{◌≡◌, ℕ, ◌+◌, ◌*◌, ◌/◌, ◌%◌, ◌<◌, ◌≤◌, length, get_or, set, refl};
ghost use Rattle.std.proofs.lemmas.List.Edits.{sets};
ghost use Rattle.slots.specs.inner.Forms.{Form, FormLaws, wide, narrow};
ghost use Rattle.slots.specs.inner.Slots.{entry_key, code_hash, code_home, HasWords, Searchable, Finds, Claimable, Claimed};
ghost use Rattle.slots.specs.inner.Laws.{wide_laws, narrow_laws};

// A key as three numbers.
#[derive(Clone, Copy, PartialEq, Eq)]
pub struct Code {
    pub x: u64,
    pub y: u64,
    pub z: u64,
}

#[tactic(auto, unfolding(crate::specs::inner::Slots::code_hash))]
fn hash(k: Code) -> u32
    ensures { result ≡ code_hash k }
{
    let x = k.x % 0x1_0000_0000;
    let y = k.y % 0x1_0000_0000;
    let z = k.z % 0x1_0000_0000;
    ((x * 1640531527 + y * 1052792407 + z * 779470673) % 0x1_0000_0000) as u32
}

// ---- layouts

// How a table lies in its words: which part of a slot's word is the mark, and in how many words a key stands, and how.
pub trait Layout {
    ghost form: { Form };

    ghost WORDS: { ℕ };

    const WORDS: usize;

    // The mark in a slot's word.
    fn mark(word: u32) -> u32
        ensures { result ≡ form.mark word };

    // The key that stands from a word on.
    fn key(part: &[u32], at: usize) -> Code
        requires { at + form.words ≤ length part.now }
        ensures { result ≡ form.key (λ d. get_or part.now (at + d) 0) };

    // Writes a key from a word on.
    fn put(part: &mut [u32], at: usize, k: Code)
        requires { (at + form.words ≤ length part.old) × form.Fits k }
        ensures { part.new ≡ sets part.old at (form.into k) };

    ghost laws: { FormLaws form };

    ghost counted: { WORDS ≡ form.words };
}

// A number in two words.
fn pair(part: &[u32], at: usize) -> u64
    requires { at + 1 < length part.now }
    ensures { result ≡ get_or part.now at 0 + 4294967296 * get_or part.now (at + 1) 0 }
{
    part[at] as u64 + 0x1_0000_0000 * part[at + 1] as u64
}

fn put_pair(part: &mut [u32], at: usize, x: u64)
    requires { at + 1 < length part.old }
    ensures { part.new ≡ set (set part.old at (x % 4294967296)) (at + 1) (x / 4294967296) }
{
    part[at] = (x % 0x1_0000_0000) as u32;
    part[at + 1] = (x / 0x1_0000_0000) as u32;
}

// Two words for each of a key's numbers. The mark is the lower half of its word: the upper half is for whoever has the table.
pub struct Wide;

impl Layout for Wide {
    ghost form = { wide };

    ghost WORDS = { 6 };

    const WORDS: usize = 6;

    fn mark(word: u32) -> u32 {
        word % 65536
    }

    fn key(part: &[u32], at: usize) -> Code {
        Code {
            x: pair(part, at),
            y: pair(part, at + 2),
            z: pair(part, at + 4),
        }
    }

    fn put(part: &mut [u32], at: usize, k: Code) {
        put_pair(part, at, k.x);
        put_pair(part, at + 2, k.y);
        put_pair(part, at + 4, k.z);
    }

    ghost laws = { wide_laws };

    ghost counted = { refl };
}

// A word for each of them, and the mark is its whole word.
pub struct Narrow;

impl Layout for Narrow {
    ghost form = { narrow };

    ghost WORDS = { 3 };

    const WORDS: usize = 3;

    fn mark(word: u32) -> u32 {
        word
    }

    fn key(part: &[u32], at: usize) -> Code {
        Code {
            x: part[at] as u64,
            y: part[at + 1] as u64,
            z: part[at + 2] as u64,
        }
    }

    fn put(part: &mut [u32], at: usize, k: Code) {
        part[at] = k.x as u32;
        part[at + 1] = k.y as u32;
        part[at + 2] = k.z as u32;
    }

    ghost laws = { narrow_laws };

    ghost counted = { refl };
}

// ---- the search

// The key of entry v.
#[tactic(auto, unfolding(crate::specs::inner::Slots::entry_key))]
fn key_of<L: Layout>(part: &[u32], n: usize, v: usize) -> Code
    requires { HasWords L.form n part.now × (v < n) }
    ensures { result ≡ entry_key L.form n part.now v }
{
    L::key(part, 2 * n + L::WORDS * v)
}

// The search from slot `start` on and round.
// Stays: a loop with no range, since it ends by a fact of the table (some slot is free), and not where a count does.
fn find_from<L: Layout>(part: &[u32], n: usize, k: Code, start: usize) -> Result<usize, usize>
    requires { Searchable L.form n part.now × (start < 2 * n) }
    ensures { Finds L.form n part.now start k result }
{
    let m = 2 * n;
    let mut r = start;
    loop {
        let s = L::mark(part[r]) as usize;
        if s == 0 {
            return Err(r);
        }
        let v = s - 1;
        if key_of::<L>(part, n, v) == k {
            return Ok(v);
        }
        r = table::next(r, m);
    }
}

// The entry that has the key, or the free slot that it would have.
// Stays: the words and n side by side, since a struct over the lent words would serve this one call, and be made anew for each: between two
// searches `claim` and whoever has the table write to them.
pub fn find<L: Layout>(part: &[u32], n: usize, k: Code) -> Result<usize, usize>
    requires { Searchable L.form n part.now }
    ensures { Finds L.form n part.now (code_home n k) k result }
{
    let start = table::home(hash(k), 2 * n);
    find_from::<L>(part, n, k, start)
}

// ---- an entry more

// Gives the free slot r to entry v, whose key is k.
pub fn claim<L: Layout>(part: &mut [u32], n: usize, r: usize, v: usize, k: Code)
    requires { Claimable L.form n r v k part.old }
    ensures { Claimed L.form n r v k part.old part.new }
{
    let word = part[r];
    part[r] = word + (v as u32 + 1);
    L::put(part, 2 * n + L::WORDS * v, k);
}
