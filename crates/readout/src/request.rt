/// Letters of a variable's word that are asked for.
#[derive(Clone, Copy, PartialEq, Eq, Debug)]
pub struct Stretch {
    /// the variable, 0 for A
    pub variable: u8,
    /// the place of the first letter
    pub start: u64,
    /// how many letters
    pub count: usize,
}

/// What is asked of a listing.
// Not an Option of a stretch: the table is asked for, and nothing is missing.
#[derive(Clone, Copy, PartialEq, Eq, Debug)]
pub enum Request {
    /// each variable with the length of its word and the first letters
    Table,
    /// so many letters of a variable's word, from a place on
    Stretch(Stretch),
}
