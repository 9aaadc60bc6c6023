// What the search for a burst answers.

// The top row and left column of a rectangle of b1 rows and b2 columns, and the number of the pattern in it:
// digit r × b2 + d stands for row top + r and column left + d. The search answers with none where no burst has the two sums.
#[derive(Clone, Copy)]
pub struct Burst {
    pub top: usize,
    pub left: usize,
    pub pattern: u64,
}
