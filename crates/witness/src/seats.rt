// A variable, and where the letters of its word start: they go on to where the next word starts.
#[derive(Clone, Copy, PartialEq, Debug)]
pub struct Seat {
    pub(crate) variable: u8,
    pub(crate) start: usize,
}
