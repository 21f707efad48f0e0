// The three ids of a triangle: read once from the list, and then passed on together.
ghost use Rattle.std.specs.Prelude.{◌≡◌, ◌<◌};
ghost use Rattle.ids.specs.Triangles.{distinct as is_distinct, triangle, triangle_count};

#[derive(Clone, Copy, PartialEq, Eq)]
pub struct Triangle {
    pub a: u32,
    pub b: u32,
    pub c: u32,
}

impl Triangle {
    // Those of triangle t of the list.
    #[tactic(auto, unfolding(crate::specs::Triangles::triangle))]
    pub fn of(ids: &[u32], t: usize) -> Triangle
        requires { t < triangle_count ids.now }
        ensures { result ≡ triangle ids.now t }
    {
        let at = 3 * t;
        Triangle {
            a: ids[at],
            b: ids[at + 1],
            c: ids[at + 2],
        }
    }

    // Do they differ?
    #[tactic(auto, unfolding(crate::specs::Triangles::distinct))]
    pub fn distinct(self) -> bool
        ensures { result ≡ is_distinct self }
    {
        (self.a != self.b) & ((self.b != self.c) & (self.c != self.a))
    }
}
