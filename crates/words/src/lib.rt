// Numbers from bytes and bytes from numbers, little-endian, for those who read and write files.
// Stays here: bytes and a place apart: a number is read and written within a file that goes on.
#![tactic(auto)]

ghost use Rattle.std.specs.Prelude.{◌≡◌, ℕ, ◌+◌, ◌*◌, ◌≤◌, ◌<◌, ◌++◌, map, length, take, drop};
ghost use Rattle.std.specs.Float.{binary32};
ghost use Rattle.std.specs.Float.Ieee.{of_bits};
ghost use Rattle.words.specs.Words.{byte as byte_of, u16_at, u32_at, words_in, bytes_of, all_bytes};

// ---- one at a place

// The byte at a place.
pub fn byte(bytes: &[u8], at: usize) -> u32
    requires { at < length bytes.now }
    ensures { (result ≡ byte_of bytes.now at) × (result < 256) }
{
    bytes[at] as u32
}

// The u16 at a place.
// Stays: a function for each width, here and below: a trait over `from_le_bytes` would be longer than the two.
pub fn u16_at(bytes: &[u8], at: usize) -> u32
    requires { at + 2 ≤ length bytes.now }
    ensures { result ≡ u16_at bytes.now at }
{
    u16::from_le_bytes([bytes[at], bytes[at + 1]]) as u32
}

// The u32 at a place.
pub fn u32_at(bytes: &[u8], at: usize) -> u32
    requires { at + 4 ≤ length bytes.now }
    ensures { result ≡ u32_at bytes.now at }
{
    u32::from_le_bytes([bytes[at], bytes[at + 1], bytes[at + 2], bytes[at + 3]])
}

// ---- all of a payload

// What a file holds as words of 32 bits: numbers as they are, or floats by their patterns.
pub trait FromWord: Copy {
    ghost of_word: { ℕ → Self };

    fn from_word(word: u32) -> Self
        ensures { result ≡ of_word word };
}

impl FromWord for u32 {
    ghost of_word = { λ w. w };

    fn from_word(word: u32) -> u32 {
        word
    }
}

impl FromWord for f32 {
    ghost of_word = { of_bits binary32 };

    fn from_word(word: u32) -> f32 {
        floats::float_of(word)
    }
}

// The words, each as what it stands for.
pub fn put_words<U: FromWord>(bytes: &[u8], area: &mut [U])
    requires { length bytes.now ≡ 4 * length area.old }
    ensures { area.new ≡ map U.of_word (words_in bytes.now) }
{
    for (i, place) in area.iter_mut().enumerate() {
        *place = U::from_word(u32_at(bytes, 4 * i));
    }
}

// ---- and back

// The word as four bytes, from a place on.
pub fn put_u32(area: &mut [u8], at: usize, w: u32)
    requires { at + 4 ≤ length area.old }
    ensures { area.new ≡ take at area.old ++ (bytes_of w ++ drop (at + 4) area.old) }
{
    area[at..at + 4].copy_from_slice(&w.to_le_bytes());
}

// All the words as bytes.
pub fn put_bytes(words: &[u32], area: &mut [u8])
    requires { length area.old ≡ 4 * length words.now }
    ensures { area.new ≡ all_bytes words.now }
{
    for (i, word) in words.iter().enumerate() {
        put_u32(area, 4 * i, *word);
    }
}
