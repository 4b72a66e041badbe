// How a cell of a join is attained: the state of the middle, and the hours of the two halves.
#[derive(Clone, Copy)]
pub struct Split {
    pub opened: bool,
    pub first: usize,
    pub second: usize,
}
