// A run of rows (02 e): from row first up to but not including row past. Rows past the sheet are no rows of it.
#[derive(Clone, Copy)]
pub struct Run {
    pub first: usize,
    pub past: usize,
}
