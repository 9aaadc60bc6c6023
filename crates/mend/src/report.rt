// The report of a burst: how many cells it has, the smallest rectangle that holds them, and their pattern in it; six zeros where there
// are none.
ghost use Rattle.std.specs.Prelude.{◌≡◌, cond, ◌*◌, ◌≤◌, ◌<◌};
ghost use Rattle.finite.specs.Search.{bit, count_below, first_of, past_of};
ghost use Rattle.mend.specs.Strip.{BurstSize};
ghost use Rattle.mend.specs.Report.{Lines, Part, any_of, line_has, part_number, box_report, report_as};

#[derive(Clone, Copy)]
pub struct Report {
    pub cells: usize,
    pub top: usize,
    pub left: usize,
    pub height: usize,
    pub width: usize,
    pub pattern: usize,
}

// Digit k of x.
fn digit(x: u64, k: usize) -> usize
    requires { k < 64 }
    ensures { result ≡ cond (bit x k) 1 0 }
{
    ((x >> k) % 2) as usize
}

// How many of the first n digits of x are 1.
pub fn count_digits(x: u64, n: usize) -> usize
    requires { n ≤ 16 }
    ensures { result ≡ count_below n (bit x) }
{
    (x % (1 << n)).count_ones() as usize
}

// One of count digits of x is 1, from a place on and a step apart.
fn any_digit(x: u64, from: usize, step: usize, count: usize) -> bool
    requires { (from ≤ 12) × (step ≤ 4) × (count ≤ 4) }
    ensures { result ≡ any_of x from step count }
{
    for l in 0..count {
        if digit(x, from + l * step) == 1 {
            return true;
        }
    }
    false
}

// The first of the lines, rows or columns, that has a cell, or 0. The digits of a line are count, a step apart; those of the next begin
// a jump further on.
fn first_line(x: u64, jump: usize, step: usize, count: usize, lines: usize) -> usize
    requires { Lines jump step count lines }
    ensures { result ≡ first_of lines (line_has x jump step count) }
{
    for k in 0..lines {
        if any_digit(x, k * jump, step, count) {
            return k;
        }
    }
    0
}

// One more than the last line that has a cell, or 0.
fn past_line(x: u64, jump: usize, step: usize, count: usize, lines: usize) -> usize
    requires { Lines jump step count lines }
    ensures { result ≡ past_of lines (line_has x jump step count) }
{
    for k in (0..lines).rev() {
        if any_digit(x, k * jump, step, count) {
            return k + 1;
        }
    }
    0
}

// The number of the pattern in a smaller rectangle, at a row and a column of one with b2 columns: digit r × width + s of it is that of
// row r and column s.
fn part_number(x: u64, b2: usize, row: usize, column: usize, height: usize, width: usize) -> usize
    requires { Part b2 row column height width }
    ensures { result ≡ part_number b2 row column height width x }
{
    let mut y = 0;
    for k in (0..height * width).rev() {
        y = 2 * y + digit(x, (row + k / width) * b2 + (column + k % width));
    }
    y
}

// The report of pattern number x in the rectangle of b1 rows and b2 columns at a top row and a left column.
pub fn report_of(top: usize, left: usize, b1: usize, b2: usize, x: u64) -> Report
    requires burst_size { BurstSize b1 b2 }
    requires top_bound { (top ≤ 512) × (left ≤ 698) }
    ensures { result ≡ report_as (box_report top left b1 b2 x) }
{
    let cells = count_digits(x, b1 * b2);
    if cells == 0 {
        return Report {
            cells: 0,
            top: 0,
            left: 0,
            height: 0,
            width: 0,
            pattern: 0,
        };
    }
    let row = first_line(x, b2, 1, b2, b1);
    let column = first_line(x, 1, b2, b1, b2);
    let past_row = past_line(x, b2, 1, b2, b1);
    let past_column = past_line(x, 1, b2, b1, b2);
    let height = past_row - row;
    let width = past_column - column;
    Report {
        cells,
        top: top + row,
        left: left + column,
        height,
        width,
        pattern: part_number(x, b2, row, column, height, width),
    }
}
