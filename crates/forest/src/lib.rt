// A forest of parents and a row of slots in lent words, one word a triangle: 32768 times what its slot holds, and the
// triangle that it hangs on. Internal: what the piece count stands on.
#![tactic(auto)]

ghost use Rattle.std.specs.Prelude.{◌≡◌, ◌+◌, ◌*◌, ◌/◌, ◌%◌, ◌≤◌, ◌<◌, length};
ghost use Rattle.forest.specs.inner.Words.{parent_in, held_in, with_parent, with_slot, Planted, Freed};
ghost use Rattle.forest.specs.inner.Labels.{Forest, RootOf, Joined};

// ---- a word

// What a word packs, in so many bits: what its triangle hangs on in the lower 15, what its slot holds in the 17 above.
#[derive(Clone, Copy)]
struct Word {
    parent: u32,
    held: u32,
    ghost fits: { (parent < 32768) × (held < 131072) },
}

impl From<u32> for Word {
    ghost from_gives = { λ bits word. (word.parent ≡ bits % 32768) × (word.held ≡ bits / 32768) };

    fn from(bits: u32) -> Word {
        Word {
            parent: bits % 32768,
            held: bits / 32768,
        }
    }
}

impl From<Word> for u32 {
    ghost from_gives = { λ word bits. bits ≡ word.held * 32768 + word.parent };

    fn from(word: Word) -> u32 {
        word.held * 32768 + word.parent
    }
}

// What triangle t hangs on: itself, if on none.
pub fn parent(work: &[u32], t: usize) -> usize
    requires { t < length work.now }
    ensures { result ≡ parent_in work.now t }
{
    Word::from(work[t]).parent as usize
}

// What slot r holds: 0, if it is free.
pub fn slot(work: &[u32], r: usize) -> usize
    requires { r < length work.now }
    ensures { result ≡ held_in work.now r }
{
    Word::from(work[r]).held as usize
}

// Triangle t hangs on p.
fn hang(work: &mut [u32], t: usize, p: usize)
    requires { (t < length work.old) × (p < 32768) }
    ensures { work.new ≡ with_parent work.old t p }
{
    let held = Word::from(work[t]).held;
    work[t] = u32::from(Word {
        parent: p as u32,
        held,
    });
}

// Slot r holds s.
pub fn hold(work: &mut [u32], r: usize, s: usize)
    requires { (r < length work.old) × (s < 131072) }
    ensures { work.new ≡ with_slot work.old r s }
{
    let parent = Word::from(work[r]).parent;
    work[r] = u32::from(Word {
        parent,
        held: s as u32,
    });
}

// Each triangle hangs on itself, and every slot is free.
#[tactic(auto, using(crate::proofs::Words::plant_next))]
pub fn plant(work: &mut [u32])
    requires { length work.old ≤ 32768 }
    ensures { Planted (length work.old) work.new }
{
    for (t, word) in work.iter_mut().enumerate() {
        *word = t as u32;
    }
}

// Every slot is free.
#[tactic(auto, using(crate::proofs::Words::free_next))]
pub fn free(work: &mut [u32])
    ensures { Freed (length work.old) work.old work.new }
{
    for word in work.iter_mut() {
        *word = Word::from(*word).parent;
    }
}

// ---- the forest

// The root above t. Each triangle passed is hung two steps higher.
fn root(work: &mut [u32], t: usize) -> usize
    requires { (t < length work.old) × (length work.old ≤ 32768) × Forest work.old }
    ensures { RootOf work.old work.new t result }
{
    let mut x = t;
    // Stays: it climbs from parent to parent and writes on the way, with no list of x to go over.
    loop {
        let p = parent(work, x);
        if p == x {
            return x;
        }
        let q = parent(work, p);
        hang(work, x, q);
        x = q;
    }
}

// Joins what hangs together with a and what does with b.
pub fn join(work: &mut [u32], a: usize, b: usize)
    requires { (a < length work.old) × (b < length work.old) × (length work.old ≤ 32768) × Forest work.old }
    ensures { Joined work.old work.new a b }
{
    let r = root(work, a);
    let s = root(work, b);
    if r < s {
        hang(work, s, r);
    } else {
        hang(work, r, s);
    }
}
