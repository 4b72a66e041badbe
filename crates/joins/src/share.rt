// What a station adds in a state that its hold allows: its figure and its hours.
#[derive(Clone, Copy)]
pub struct Share<F> {
    pub figure: F,
    pub hours: usize,
}
