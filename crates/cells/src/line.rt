// A line of 65 cells.
ghost use Rattle.std.specs.Prelude.{◌≡◌};
ghost use Rattle.cells.specs.Cells.{cell};
ghost use Rattle.cells.specs.Split.{Tabled};

// A line, and where its 65 cells start and end: two arrays, which is the form that the paper names for this table.
#[derive(Clone, Copy)]
pub struct SplitLine<'a> {
    pub line: &'a [u8],
    pub starts: [usize; 65],
    pub ends: [usize; 65],
    pub ghost tabled: { Tabled line.now starts ends },
}

impl<'a> SplitLine<'a> {
    // Cell f, counted from 1 as the paper does; blank for a number that no cell has.
    pub fn cell(&self, f: usize) -> &'a [u8]
        ensures { result.now ≡ cell self.now.line.now f }
    {
        match f {
            1..=65 => &self.line[self.starts[f - 1]..self.ends[f - 1]],
            _ => &self.line[..0],
        }
    }
}
