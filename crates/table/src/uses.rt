// How often a key is used, each way, as the word of its row has it: 65536 for each use upwards, 1 for each downwards. Tables of edges and
// of faces read their words here alone.
ghost use Rattle.std.specs.Prelude.{◌≡◌, cond, ◌+◌, ◌<◌};
ghost use Rattle.table.specs.inner.Counts.{ups_in, uses_in, sum_size};

#[derive(Clone, Copy)]
pub struct Uses {
    pub ups: u32,
    pub downs: u32,

    // so that their sum does not wrap
    pub ghost few: { (ups < 65536) × (downs < 65536) },
}

impl From<u32> for Uses {
    ghost from_gives = { λ word uses. (uses.ups ≡ ups_in word) × (uses.ups + uses.downs ≡ uses_in word) };

    #[tactic(auto, unfolding(crate::specs::inner::Counts::ups_in, crate::specs::inner::Counts::uses_in))]
    fn from(word: u32) -> Uses {
        Uses {
            ups: word / 65536,
            downs: word % 65536,
        }
    }
}

impl Uses {
    // What one use adds to the word.
    pub fn weight(up: bool) -> u32
        ensures { result ≡ cond up 65536 1 }
    {
        if up { 65536 } else { 1 }
    }

    // Either way.
    pub fn all(self) -> u32
        ensures { result ≡ self.ups + self.downs }
    {
        self.ups + self.downs
    }

    // The magnitude of their sum, where a use downwards counts against one upwards.
    #[tactic(auto, unfolding(crate::specs::inner::Counts::sum_size))]
    pub fn size(self) -> u32
        ensures { result ≡ sum_size (self.ups + self.downs) self.ups }
    {
        self.ups.abs_diff(self.downs)
    }
}
