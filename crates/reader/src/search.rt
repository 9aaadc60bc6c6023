// How the burst for the two sums of a sheet is searched for. Both ways find the same burst: no answer and no byte owes anything to the
// choice.

// By the windows of the plan, the usual way (the crate mend); or by trial, each rectangle in sheet order and each pattern in it (02 j).
#[derive(Clone, Copy)]
pub enum Search {
    ByWindow,
    ByTrial,
}
