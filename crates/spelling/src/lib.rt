// How the listing is spelt, byte by byte, into a lent area: text, a form with numbers, a line with a count.
// Internal: `listing` calls it.
#![tactic(auto)]

ghost use Rattle.std.specs.Prelude.{◌≡◌, ◌+◌, ◌^◌, ◌≤◌, ◌<◌, ◌++◌, ◌∷◌, [], length};
ghost use Rattle.spelling.specs.Text.{codes, glyph as glyph_of, bits, decimal_in, decimal as decimal_of};
ghost use Rattle.spelling.specs.inner.Steps.{PutsText, filled};

// ---- text; all that put something answer the place behind it
// Stays: a place in and one out, which `PutsText` ties to the bytes before and after: a struct over the lent text would name the same four.

pub fn put(out: &mut [u8], at: usize, text: &[u8]) -> usize
    requires { at + length text.now ≤ length out.old }
    ensures { PutsText at text.now out.old result out.new }
{
    let end = at + text.len();
    out[at..end].copy_from_slice(text);
    end
}

fn put_byte(out: &mut [u8], at: usize, byte: u8) -> usize
    requires { at < length out.old }
    ensures { PutsText at (byte ∷ []) out.old result out.new }
{
    out[at] = byte;
    at + 1
}

// ---- numbers

// A digit below 16.
fn glyph(d: u32) -> u8
    requires { d < 16 }
    ensures { result ≡ glyph_of d }
{
    if d < 10 {
        b'0' + d as u8
    } else {
        b'a' + (d - 10) as u8
    }
}

// The eight digits of a float's bits, from the last to the first.
fn put_number(out: &mut [u8], at: usize, x: f32) -> usize
    requires { at + 8 ≤ length out.old }
    ensures { PutsText at (bits x) out.old result out.new }
{
    let mut rest = patterns::bits(x);
    for i in (0..8).rev() {
        out[at + i] = glyph(rest % 16);
        rest /= 16;
    }
    at + 8
}

// A form, with the digits of the next number for each `#`; one that finds no number stays.
pub fn fill(out: &mut [u8], at: usize, form: &[u8], numbers: &[f32]) -> usize
    requires { at + length (filled form.now numbers.now) ≤ length out.old }
    ensures { PutsText at (filled form.now numbers.now) out.old result out.new }
{
    let mut end = at;
    // Stays: an index beside the bytes, since a form and its numbers advance apart.
    let mut used = 0;
    for (i, byte) in form.iter().enumerate() {
        if (*byte == b'#') & (used < numbers.len()) {
            end = put_number(out, end, numbers[used]);
            used += 1;
        } else {
            out[end] = *byte;
            end += 1;
        }
    }
    end
}

// A count in decimal: `more` digits and one, at most.
fn put_decimal(out: &mut [u8], at: usize, n: u32, more: u32) -> usize
    requires { (at + more + 1 ≤ length out.old) × (n < 10 ^ (more + 1)) }
    ensures { PutsText at (decimal_in more n) out.old result out.new × (result ≤ at + more + 1) }
{
    if n < 10 {
        return put_byte(out, at, glyph(n));
    }
    let behind = put_decimal(out, at, n / 10, more - 1);
    put_byte(out, behind, glyph(n % 10))
}

// The label comes with the space behind it.
pub fn count_line(out: &mut [u8], at: usize, label: &[u8], n: u32) -> usize
    requires { at + length label.now + 11 ≤ length out.old }
    ensures { PutsText at (label.now ++ (decimal_of n ++ codes "\n")) out.old result out.new
        × (result ≤ at + length label.now + 11) }
{
    let behind = put(out, at, label);
    let end = put_decimal(out, behind, n, 9);
    put_byte(out, end, b'\n')
}
