// The tree that draws a plant, as nodes numbered in the order in which their text is completed.

#[derive(Clone, Copy, PartialEq, Eq, Debug)]
pub enum Join {
    Series,
    Parallel,
}

// A leaf is a line; a join has two halves, which are nodes with smaller numbers. By number, since nothing is allocated and cells go by it.
#[derive(Clone, Copy, PartialEq, Eq, Debug)]
pub enum Shape {
    Leaf(usize),
    Join(Join, usize, usize),
}

// By hand, since a variant that is derived as the default holds nothing.
impl Default for Shape {
    fn default() -> Shape {
        Shape::Leaf(0)
    }
}

// A node, with the two stations at the ends of its piece.
#[derive(Clone, Copy, PartialEq, Eq, Debug, Default)]
pub struct Node {
    pub shape: Shape,
    pub left: usize,
    pub right: usize,
}
