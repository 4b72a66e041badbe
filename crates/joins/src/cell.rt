// A cell, and where it lies.
ghost use Rattle.std.specs.Prelude.{◌≡◌, ℕ, ◌+◌, ◌<◌, ◌≤◌, length, slice_set};
ghost use Rattle.cells.specs.Tables.{row_start, place as placeBy, need_of};
ghost use Rattle.cells.specs.Tops.{cell_of};

// The highest figure of some choices, or nothing where there is no choice.
pub type Cell<F> = Option<F>;

// A cell's address: a node, the states of its two ends, and the hours of its inner stations.
#[derive(Clone, Copy)]
pub struct Spot {
    pub node: usize,
    pub left: bool,
    pub right: bool,
    pub hours: usize,
}

// How wide a row is and which nodes there are is the plant's to say, so these two limits stand in clauses.
impl Spot {
    // Where its row begins, with rows of this width: a node has four, one for each state of its ends.
    fn row_begin(self, width: usize) -> usize
        requires { (width ≤ 1001) × (self.node < 255) }
        ensures { result ≡ row_start width self.node self.left self.right }
    {
        (4 * self.node + 2 * usize::from(self.left) + usize::from(self.right)) * width
    }

    // Where the cell lies.
    pub fn place(self, width: usize) -> usize
        requires { (width ≤ 1001) × (self.node < 255) × (self.hours ≤ 1000) }
        ensures { result ≡ placeBy width self.node self.left self.right self.hours }
    {
        self.row_begin(width) + self.hours
    }

    // The cells of its row that come before it.
    pub fn row<F: Copy>(self, cells: &[Cell<F>], width: usize) -> &[Cell<F>]
        requires small { (width ≤ 1001) × (self.node < 255) }
        requires within { placeBy width self.node self.left self.right self.hours ≤ length cells.now }
        ensures long { length result.now ≡ self.hours }
        ensures same { (k : ℕ) → k < self.hours → cell_of result.now k ≡ cell_of cells.now (row_start width self.node self.left self.right + k) }
    {
        let begin = self.row_begin(width);
        &cells[begin..begin + self.hours]
    }
}

// How many cells solve needs: for each node four rows, one for each state of its ends.
pub fn need(lines: usize, budget: u32) -> usize
    requires { (lines ≤ 128) × (budget ≤ 1000) }
    ensures { result ≡ need_of lines budget }
{
    (2 * lines).saturating_sub(1) * 4 * (budget as usize + 1)
}

pub fn put_cell<F: Copy>(cells: &mut [Cell<F>], at: usize, cell: Cell<F>)
    requires { at < length cells.old }
    ensures { cells.new ≡ slice_set cells.old at cell }
{
    cells[at] = cell;
}
