use leftover::Leftover;
use writing::ChoiceRecord;

// No list has more choices.
pub(crate) const MOST_CHOICES: usize = 1_050;

// A list while it is written: the caller's records, how many choices are put into them, and what they leave.
#[derive(Drop)]
pub(crate) struct Draft<'a> {
    pub(crate) list: &'a mut [ChoiceRecord],
    pub(crate) count: usize,
    // lent, since a struct that owns memory would hold the list to its end
    pub(crate) left: &'a mut Leftover,
}
