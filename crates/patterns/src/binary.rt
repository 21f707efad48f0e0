// What `f32` and `f64` share: a format of IEEE 754-2019 (3.4), with its patterns. So one function serves both.
ghost use Rattle.std.specs.Float.{Float, Format, NotNan, binary32, binary64, nan};
ghost use Rattle.std.specs.Float.Ieee.{fits, hid, in_float, is_nan, low, lt, neg, of_bits, of_int, ones, to_bits, top};
ghost use Rattle.std.specs.Prelude.{◌≡◌, ℕ, ◌+◌, ◌*◌, ◌%◌, ◌<◌, ◌≤◌, T, true, pos, refl};

pub trait Binary: Copy {
    // The type of a pattern, `u32` or `u64`.
    type Pattern: Copy;

    // The format, a value as the clauses see a float, and a pattern as a number.
    ghost format: { Format };

    ghost float: { Self → Float };

    ghost number: { Self.Pattern → ℕ };

    // What the sign counts in a pattern, and what the exponent's field does. The leading digit of the others, which is not
    // written, counts as much as that field.
    const SIGN: u64;

    ghost SIGN: { ℕ };

    const FIELD: u64;

    ghost FIELD: { ℕ };

    // The pattern of infinity: above it, but for the sign, lie the NaNs' patterns.
    const LAST: u64;

    ghost LAST: { ℕ };

    // The exponent's field from which on each value is whole.
    const WHOLE: u64;

    ghost WHOLE: { ℕ };

    // Stays: methods and no operators, since a `<` on a type parameter makes an `Ordering` first, in loops that are hot.

    // Whether it is a NaN.
    fn no_number(self) -> bool
        ensures { result ≡ is_nan (float self) };

    // Whether it lies below another. A NaN does not.
    fn below(self, other: Self) -> bool
        ensures { result ≡ lt (float self) (float other) };

    // With the other sign.
    fn opposite(self) -> Self
        ensures { float result ≡ neg (float self) };

    // As an `f64`, which has each value of either format.
    fn wide(self) -> f64
        ensures is { result ≡ float self }
        ensures holds { fits format (float self) ≡ true };

    // The NaN.
    fn nan() -> Self
        ensures { float result ≡ nan };

    // A whole number that the format has.
    fn of_whole(n: u64) -> Self
        requires { T (in_float format (pos n)) }
        ensures { float result ≡ of_int format (pos n) };

    // The pattern of what is no NaN, as a word, and back.
    fn to_word(self) -> u64
        requires { NotNan (float self) }
        ensures { (result ≡ to_bits format (float self)) × (fits format (float self) ≡ true) };

    fn of_word(b: u64) -> Self
        requires { (b < 2 * top format) × (b % top format ≤ ones format * hid format) }
        ensures { float result ≡ of_bits format b };

    // A pattern as a word, and back.
    fn word(b: Self::Pattern) -> u64
        ensures { (result ≡ number b) × (result < 2 * top format) };

    fn pattern(b: u64) -> Self::Pattern
        requires { b < 2 * top format }
        ensures { number result ≡ b };

    ghost sign_law: { SIGN ≡ top format };

    ghost field_law: { FIELD ≡ hid format };

    ghost last_law: { LAST ≡ ones format * hid format };

    ghost whole_law: { WHOLE ≡ low format + 1 };
}

#[tactic(auto, using(ieee::proofs::Patterns::Nan::ne_self, ieee::proofs::Patterns::Nan::up_to_inf, crate::proofs::Laws::word_lt))]
impl Binary for f32 {
    type Pattern = u32;

    ghost format = { binary32 };

    ghost float = { λ x. x };

    ghost number = { λ b. b };

    const SIGN: u64 = 0x8000_0000;

    ghost SIGN = { 0x8000_0000 };

    const FIELD: u64 = 0x80_0000;

    ghost FIELD = { 0x80_0000 };

    const LAST: u64 = 0x7f80_0000;

    ghost LAST = { 0x7f80_0000 };

    const WHOLE: u64 = 150;

    ghost WHOLE = { 150 };

    fn no_number(self) -> bool {
        self != self
    }

    fn below(self, other: f32) -> bool {
        self < other
    }

    fn opposite(self) -> f32 {
        -self
    }

    fn wide(self) -> f64 {
        std::num::f32_to_f64_with_nan(self)
    }

    fn nan() -> f32 {
        0.0 / 0.0
    }

    fn of_whole(n: u64) -> f32 {
        n as f32
    }

    fn to_word(self) -> u64 {
        f32::to_bits(self) as u64
    }

    fn of_word(b: u64) -> f32 {
        f32::from_bits(b as u32)
    }

    fn word(b: u32) -> u64 {
        b as u64
    }

    fn pattern(b: u64) -> u32 {
        b as u32
    }

    ghost sign_law = { refl };

    ghost field_law = { refl };

    ghost last_law = { refl };

    ghost whole_law = { refl };
}

#[tactic(auto, using(ieee::proofs::Patterns::Nan::ne_self, ieee::proofs::Patterns::Nan::up_to_inf, crate::proofs::Laws::word_lt))]
impl Binary for f64 {
    type Pattern = u64;

    ghost format = { binary64 };

    ghost float = { λ x. x };

    ghost number = { λ b. b };

    const SIGN: u64 = 0x8000_0000_0000_0000;

    ghost SIGN = { 0x8000_0000_0000_0000 };

    const FIELD: u64 = 0x10_0000_0000_0000;

    ghost FIELD = { 0x10_0000_0000_0000 };

    const LAST: u64 = 0x7ff0_0000_0000_0000;

    ghost LAST = { 0x7ff0_0000_0000_0000 };

    const WHOLE: u64 = 1075;

    ghost WHOLE = { 1075 };

    fn no_number(self) -> bool {
        self != self
    }

    fn below(self, other: f64) -> bool {
        self < other
    }

    fn opposite(self) -> f64 {
        -self
    }

    fn wide(self) -> f64 {
        self
    }

    fn nan() -> f64 {
        0.0 / 0.0
    }

    fn of_whole(n: u64) -> f64 {
        n as f64
    }

    fn to_word(self) -> u64 {
        f64::to_bits(self)
    }

    fn of_word(b: u64) -> f64 {
        f64::from_bits(b)
    }

    fn word(b: u64) -> u64 {
        b
    }

    fn pattern(b: u64) -> u64 {
        b
    }

    ghost sign_law = { refl };

    ghost field_law = { refl };

    ghost last_law = { refl };

    ghost whole_law = { refl };
}
