// The patterns of the cells of a rectangle, by number: digit k of a pattern says whether it has cell k. There are sixteen cells at most;
// where there are fewer, the entries after them are 0 and add nothing.
ghost use Rattle.std.specs.Prelude.{◌≡◌, ◌≤◌, ◌<◌, ◌^◌, length};
ghost use Rattle.gf2.specs.Xor.{pick};
ghost use Rattle.finite.specs.Search.{bit, count_below, few, least};
ghost use Rattle.plan.specs.Table.{word_at};
ghost use Rattle.trial.specs.Trial.{pattern_sum, has_sums, fits_few};

use mend::report::count_digits;
use sparse::few::few;

// The entry of cell k, where pattern number x has that cell, else 0. mend has the same of 64 bits: as one function, a shift and a test would
// need a trait with its laws, for one line.
fn picked(x: u32, k: usize, entry: u32) -> u32
    requires { k < 16 }
    ensures { result ≡ pick (bit x k) entry }
{
    if (x >> k) % 2 == 1 { entry } else { 0 }
}

// The exclusive-or of the entries of the cells of pattern number x.
fn sum_of(entries: &[u32], x: u32) -> u32
    requires { length entries.now ≡ 16 }
    ensures { result ≡ pattern_sum (word_at entries.now) x }
{
    // Sixteen turns, which the compiler knows, and not as many as the slice is long: it lays them side by side.
    let mut sum = 0;
    for k in 0..16 {
        sum ^= picked(x, k, entries[k]);
    }
    sum
}

// Pattern number x has the V sum v and the H sum s.
fn has_sums(rows: &[u32], columns: &[u32], x: u32, v: u64, s: u64) -> bool
    requires rows_len { length rows.now ≡ 16 }
    requires columns_len { length columns.now ≡ 16 }
    ensures { result ≡ has_sums (word_at rows.now) (word_at columns.now) v s x }
{
    if u64::from(sum_of(rows, x)) != v {
        return false;
    }
    u64::from(sum_of(columns, x)) == s
}

// Pattern number x of n cells has few of them: at most t, or where t is 0 any number.
fn has_few(x: u64, n: usize, t: usize) -> bool
    requires { n ≤ 16 }
    ensures { result ≡ few t (count_below n (bit x)) }
{
    few(t, count_digits(x, n))
}

// It has both sums, and few cells.
fn fits(rows: &[u32], columns: &[u32], n: usize, t: usize, x: u32, v: u64, s: u64) -> bool
    requires n_bound { n ≤ 16 }
    requires rows_len { length rows.now ≡ 16 }
    requires columns_len { length columns.now ≡ 16 }
    ensures { result ≡ fits_few t n (word_at rows.now) (word_at columns.now) v s x }
{
    if !has_sums(rows, columns, x, v, s) {
        return false;
    }
    has_few(u64::from(x), n, t)
}

// The first pattern of n cells that fits, from the empty one on, or the number of patterns where none does.
pub fn first_pattern(rows: &[u32], columns: &[u32], n: usize, t: usize, v: u64, s: u64) -> u64
    requires n_bound { n ≤ 16 }
    requires rows_len { length rows.now ≡ 16 }
    requires columns_len { length columns.now ≡ 16 }
    ensures { result ≡ least (2 ^ n) (fits_few t n (word_at rows.now) (word_at columns.now) v s) }
{
    let count = 1u32 << n;
    for x in 0..count {
        if fits(rows, columns, n, t, x, v, s) {
            return u64::from(x);
        }
    }
    u64::from(count)
}
