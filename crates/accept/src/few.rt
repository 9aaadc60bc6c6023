// Checks 8 and 9 where bursts have few cells. Of a later window only those sets are new whose last place is in its last line: the others
// lie in the window before it.
ghost use Rattle.std.specs.Prelude.{◌≡◌, ◌+◌, ◌-◌, ◌*◌, ◌≤◌, ◌<◌, eqb, length};
ghost use Rattle.gf2.specs.Powers.{Digits32};
ghost use Rattle.plan.specs.Table.{word_at};
ghost use Rattle.plan.specs.declared.table.Table.TheVariants.{Rows, Columns};
ghost use Rattle.sparse.specs.Sets.{one_of, Marked};
ghost use Rattle.accept.specs.Pairs.{in_row, first_failing};
ghost use Rattle.accept.specs.Windows.{few_free, line_clear, start_of, Windows, Later, FewWindows};

use crate::rest::differ_rest;
use gf2::powers::are_powers;
use plan::table::Table;
use sparse::collect::{only_zero, window_sums};
use sparse::hits::line_hit;

// The first window after window i whose last line has a set with one of the sums, from the place floor on.
fn later(
    words: &[u64],
    sums: &[u64],
    marks: &[u8],
    i: usize,
    floor: usize,
    step: usize,
    size: usize,
    count: usize,
    t: usize,
) -> Option<(usize, usize)>
    requires windows { Windows (length words.now) step size count × Later step size count i floor }
    requires marked { Marked sums.now marks.now }
    ensures { result ≡ in_row (line_clear t (word_at words.now) floor step size (one_of sums.now)) i
        (i + 1) (count - (i + 1)) None }
{
    for j in i + 1..count {
        let start = j * step;
        let from = floor.max(start);
        if line_hit(words, sums, marks, from, start + size - step, step, t) {
            return Some((i, j));
        }
    }
    None
}

// The pairs of window i of the row table.
fn row_of(
    words: &[u64],
    i: usize,
    step: usize,
    size: usize,
    count: usize,
    t: usize,
    sums: &mut [u64],
    marks: &mut [u8],
) -> Option<(usize, usize)>
    requires windows { Windows (length words.now) step size count × FewWindows t step size count i }
    requires sums_len { (length sums.old ≡ 257) × (length marks.old ≡ 4096) }
    ensures { result ≡ in_row (few_free Rows (word_at words.now) t (length words.now) step size) i
        i (count - i) None }
{
    let Some(n) = window_sums(words, i * step, size, t, sums, marks) else {
        return Some((i, i));
    };
    later(words, &sums[..n], marks, i, 0, step, size, count, t)
}

// The pairs of strip i of the column table. Rest is room to work in.
fn strip_of(
    words: &[u64],
    i: usize,
    step: usize,
    size: usize,
    count: usize,
    t: usize,
    rest: &mut [u64],
    sums: &mut [u64],
    marks: &mut [u8],
) -> Option<(usize, usize)>
    requires windows { Windows (length words.now) step size count × FewWindows t step size count i }
    requires rest_len { (length rest.old ≡ length words.now) × (length sums.old ≡ 257) × (length marks.old ≡ 4096) }
    ensures { result ≡ in_row (few_free Columns (word_at words.now) t (length words.now) step size) i
        (i + 1) (count - (i + 1)) None }
{
    let first = i * step;
    differ_rest(words, first, size, rest);
    let n = only_zero(sums, marks);
    later(
        rest,
        &sums[..n],
        marks,
        i,
        first + size,
        step,
        size,
        count,
        t,
    )
}

// The pairs of window i.
fn pairs_of(
    table: Table,
    words: &[u64],
    i: usize,
    step: usize,
    size: usize,
    count: usize,
    t: usize,
    rest: &mut [u64],
) -> Option<(usize, usize)>
    requires windows { Windows (length words.now) step size count × FewWindows t step size count i }
    requires rest_len { length rest.old ≡ length words.now }
    ensures { result ≡ in_row (few_free table (word_at words.now) t (length words.now) step size) i
        (start_of table i) (count - start_of table i) None }
{
    let mut sums = [0u64; 257];
    let mut marks = [0u8; 4096];
    match table {
        Table::Rows => row_of(words, i, step, size, count, t, &mut sums, &mut marks),
        Table::Columns => strip_of(words, i, step, size, count, t, rest, &mut sums, &mut marks),
    }
}

// Of all pairs.
fn all_pairs(
    table: Table,
    words: &[u64],
    step: usize,
    size: usize,
    count: usize,
    t: usize,
    rest: &mut [u64],
) -> Option<(usize, usize)>
    requires windows { Windows (length words.now) step size count × FewWindows t step size count 0 }
    requires rest_len { length rest.old ≡ length words.now }
    ensures { result ≡ first_failing (few_free table (word_at words.now) t (length words.now) step size) (start_of table) count }
{
    for i in 0..count {
        if let Some(pair) = pairs_of(table, words, i, step, size, count, t, rest) {
            return Some(pair);
        }
    }
    None
}

// The same, by the pairs of the first window alone where the table is one of powers.
pub fn few_failing(
    table: Table,
    words: &[u64],
    step: usize,
    size: usize,
    count: usize,
    t: usize,
    rest: &mut [u64],
) -> Option<(usize, usize)>
    requires windows { Windows (length words.now) step size count × FewWindows t step size count 0 }
    requires rest_len { length rest.old ≡ length words.now }
    requires digits32 { Digits32 words.now }
    ensures { result ≡ first_failing (few_free table (word_at words.now) t (length words.now) step size) (start_of table) count }
{
    if are_powers(words) {
        return pairs_of(table, words, 0, step, size, count, t, rest);
    }
    all_pairs(table, words, step, size, count, t, rest)
}
