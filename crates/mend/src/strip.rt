// A pattern laid on strips, b2 consecutive columns: its H sum on each, and the strip on which it has the H sum.
//
// A column's place in the pattern is its remainder modulo b2, so a pattern is not laid from the strip's left edge.
ghost use Rattle.std.specs.Prelude.{◌≡◌, ◌+◌, ◌-◌, ◌*◌, ◌%◌, ◌≤◌, ◌<◌, cond, length};
ghost use Rattle.gf2.specs.Xor.{pick};
ghost use Rattle.finite.specs.Search.{bit, least};
ghost use Rattle.plan.specs.Header.{Small};
ghost use Rattle.plan.specs.Table.{word_at};
ghost use Rattle.mend.specs.Strip.{BurstSize, laid_row, laid_sum, fits_on, laid_digit, box_pattern, on_strips};

use crate::found::Burst;
use layout::cycle::after;
use plan::header::Header;

// The entry where digit k of the pattern is set, else 0.
fn picked(x: u64, k: usize, entry: u64) -> u64
    requires { k < 64 }
    ensures { result ≡ pick (bit x k) entry }
{
    if (x >> k) % 2 == 1 { entry } else { 0 }
}

// The H sum of one row of the pattern, whose digits begin at first, on the strip at column a. u is the row's remainder modulo b1.
fn row_sum(columns: &[u64], b1: usize, b2: usize, u: usize, first: usize, a: usize, x: u64) -> u64
    requires burst_size { BurstSize b1 b2 }
    requires u_lt_b1 { (u < b1) × (first ≤ 12) × (a ≤ 698) × ((a + b2) * b1 ≤ length columns.now) }
    ensures { result ≡ laid_row b1 b2 (word_at columns.now) u first a x }
{
    let mut sum = 0;
    let mut t = a % b2;
    let mut at = a * b1 + u;
    for _ in 0..b2 {
        sum ^= picked(x, first + t, columns[at]);
        t = after(t, b2);
        at += b1;
    }
    sum
}

// The H sum of the pattern of the window at row i, laid on the strip at column a.
pub fn laid_sum(columns: &[u64], b1: usize, b2: usize, i: usize, a: usize, x: u64) -> u64
    requires burst_size { BurstSize b1 b2 }
    requires a_bound { (a ≤ 698) × ((a + b2) * b1 ≤ length columns.now) }
    ensures { result ≡ laid_sum b1 b2 (word_at columns.now) i a x }
{
    let mut sum = 0;
    let mut u = i % b1;
    let mut first = 0;
    for _ in 0..b1 {
        sum ^= row_sum(columns, b1, b2, u, first, a, x);
        u = after(u, b1);
        first += b2;
    }
    sum
}

// The first strip on which the pattern of the window at row i has the H sum s, or the number of strips.
fn first_strip(columns: &[u64], h: Header, i: usize, x: u64, s: u64) -> usize
    requires small { Small h }
    requires b1_in_bounds { h.n2 * h.b1 ≤ length columns.now }
    ensures { result ≡ least (h.n2 - h.b2 + 1) (fits_on h.b1 h.b2 (word_at columns.now) i x s) }
{
    let count = h.n2 - h.b2 + 1;
    for a in 0..count {
        if laid_sum(columns, h.b1, h.b2, i, a, x) == s {
            return a;
        }
    }
    count
}

// Digit k of the pattern by columns: that of its row, and of the remainder of its column.
fn laid_digit(b2: usize, a: usize, x: u64, k: usize) -> u64
    requires { (1 ≤ b2) × (b2 ≤ 4) × (k < 16) × (a ≤ 698) }
    ensures { result ≡ cond (laid_digit b2 a x k) 1 0 }
{
    let row = k / b2 * b2;
    let t = (a + k % b2) % b2;
    (x >> (row + t)) % 2
}

// The pattern by remainders as the pattern by columns of the rectangle whose left column is a.
pub fn box_pattern(b1: usize, b2: usize, a: usize, x: u64) -> u64
    requires burst_size { BurstSize b1 b2 }
    requires a_bound { a ≤ 698 }
    ensures { result ≡ box_pattern b1 b2 a x }
{
    let mut y = 0;
    for k in (0..b1 * b2).rev() {
        y = 2 * y + laid_digit(b2, a, x, k);
    }
    y
}

// The pattern of the window at row i on the strip on which it has the H sum s.
pub fn on_strips(columns: &[u64], h: Header, i: usize, x: u64, s: u64) -> Option<Burst>
    requires small { Small h }
    requires b1_in_bounds { h.n2 * h.b1 ≤ length columns.now }
    ensures { result ≡ on_strips h (word_at columns.now) i x s }
{
    let a = first_strip(columns, h, i, x, s);
    if h.n2 - h.b2 < a {
        return None;
    }
    Some(Burst {
        top: i,
        left: a,
        pattern: box_pattern(h.b1, h.b2, a, x),
    })
}
