// The kinds of the records of a mesh file, in the order in which they stand there. Each has its number in the format.
ghost use Rattle.std.specs.Prelude.{◌≡◌};
ghost use Rattle.meshfile.specs.inner.Kinds.{kind_number};

#[derive(Clone, Copy)]
pub enum Kind {
    Unit,
    Vertices,
    Ids,
    Flags,
}

impl From<Kind> for u8 {
    ghost from_gives = { λ kind n. n ≡ kind_number kind };

    fn from(kind: Kind) -> u8 {
        match kind {
            Kind::Unit => 1,
            Kind::Vertices => 2,
            Kind::Ids => 3,
            Kind::Flags => 4,
        }
    }
}
