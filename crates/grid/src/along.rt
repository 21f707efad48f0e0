// A row of cells along one axis. Both axes of a grid are such rows.
// n cells of width w from x on.
#[derive(Clone, Copy)]
pub struct Along {
    pub x: f32,
    pub w: f32,
    pub n: usize,
}

// The cells from the first to the last.
#[derive(Clone, Copy)]
pub struct Span {
    pub first: usize,
    pub last: usize,
}

impl Along {
    ghost use Rattle.std.specs.Prelude.{◌≡◌, ◌≤◌, ◌<◌, length};
    ghost use Rattle.grid.specs.Grid.{cells_in, along_of, cell_along, first_cell, last_cell, centre_of};
    ghost use Rattle.grid.specs.inner.Centred.{Centred};
    ghost use Rattle.grid.specs.inner.Sized.{RowSized};

    // The row from x on over a length, its cells near the size that is asked for.
    #[tactic(auto, unfolding(crate::specs::Grid::along_of))]
    pub fn over(x: f32, length: f32, size: f32) -> Along
        ensures { (result ≡ along_of x length size) × RowSized result }
    {
        let n = Along::cells(length, size);
        Along {
            x,
            w: length / (n as u16 as f32),
            n,
        }
    }

    // How many cells of a size a length has.
    #[tactic(auto, unfolding(crate::specs::Grid::cells_in))]
    fn cells(length: f32, size: f32) -> usize
        ensures { (result ≡ cells_in length size) × (0 < result) × (result ≤ 256) }
    {
        let n = floats::to_u64(floats::ceiling(length / size));
        if n < 1 {
            1
        } else if n < 256 {
            n as usize
        } else {
            256
        }
    }

    // Which cell p is in. Between the first and the last the fraction is dropped, which is the floor.
    fn cell(self, p: f32) -> usize
        requires { RowSized self }
        ensures { (result ≡ cell_along self p) × (result < self.n) }
    {
        let q = (p - self.x) / self.w;
        if q < (self.n - 1) as u16 as f32 {
            if q >= 1.0 {
                integers::whole_part32(q) as usize
            } else {
                0
            }
        } else if q != q {
            0
        } else {
            self.n - 1
        }
    }

    // Those of the box of three points.
    #[tactic(auto, unfolding(crate::specs::Grid::first_cell, crate::specs::Grid::last_cell))]
    pub fn span(self, a: f32, b: f32, c: f32) -> Span
        requires { RowSized self }
        ensures { (result.first ≡ first_cell self a b c) × (result.last ≡ last_cell self a b c)
            × (result.first < self.n) × (result.last < self.n) }
    {
        Span {
            first: self.cell(floats::least(floats::least(a, b), c)),
            last: self.cell(floats::greatest(floats::greatest(a, b), c)),
        }
    }

    // The centre of cell i.
    #[tactic(auto, unfolding(crate::specs::Grid::centre_of))]
    pub fn centre(self, i: usize) -> f32
        requires { i < 256 }
        ensures { result ≡ centre_of self i }
    {
        self.x + (i as u16 as f32 + 0.5) * self.w
    }

    // The centres of the first cells, and of cells behind them, as many as the list takes.
    pub fn centres(self, list: &mut [f32])
        requires { length list.old ≤ 256 }
        ensures { Centred self list.new }
    {
        for (i, here) in list.iter_mut().enumerate() {
            *here = self.centre(i);
        }
    }
}
