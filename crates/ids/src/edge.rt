// An undirected edge of a triangle, by its two ids in order.
ghost use Rattle.std.specs.Prelude.{◌≡◌};
ghost use Rattle.ids.specs.EdgeChain.{edge};

#[derive(Clone, Copy, PartialEq, Eq)]
pub struct Edge {
    pub low: u32,
    pub high: u32,
}

impl Edge {
    // The one between two ids.
    pub fn between(u: u32, v: u32) -> Edge
        ensures { result ≡ edge u v }
    {
        Edge {
            low: u.min(v),
            high: u.max(v),
        }
    }
}
