// The first failing pair of windows of a table, or of strips.
ghost use Rattle.std.specs.Prelude.{◌≡◌, ◌-◌, ◌≤◌, length};
ghost use Rattle.gf2.specs.Powers.{Digits32};
ghost use Rattle.accept.specs.Pairs.{in_row, first_failing};
ghost use Rattle.plan.specs.Table.{word_at};
ghost use Rattle.accept.specs.Windows.{windows_free, start_of, Windows};

use crate::rest::{pair_free, prepare};
use gf2::powers::are_powers;
use plan::table::Table;

// The first window that is paired with window i: itself, or of strips the next.
fn start_of(t: Table, i: usize) -> usize
    requires { i ≤ 698 }
    ensures { result ≡ start_of t i }
{
    match t {
        Table::Rows => i,
        Table::Columns => i + 1,
    }
}

// Of all pairs. Window i begins at the word i × step and has size words; there are count.
fn search(
    t: Table,
    words: &[u64],
    step: usize,
    size: usize,
    count: usize,
    rest: &mut [u64],
) -> Option<(usize, usize)>
    requires { Windows (length words.now) step size count × (length rest.old ≡ length words.now) }
    ensures { result ≡ first_failing (windows_free t (word_at words.now) step size) (start_of t) count }
{
    let mut found = None;
    'search: for i in 0..count {
        let first = i * step;
        let taken = prepare(t, words, first, size, rest);
        for j in start_of(t, i)..count {
            if !pair_free(taken, rest, size, first, j * step) {
                found = Some((i, j));
                break 'search;
            }
        }
    }
    found
}

// Of the pairs with the first window: one row of pairs.
fn first_row(
    t: Table,
    words: &[u64],
    step: usize,
    size: usize,
    count: usize,
    rest: &mut [u64],
) -> Option<(usize, usize)>
    requires { Windows (length words.now) step size count × (length rest.old ≡ length words.now) }
    ensures { result ≡ in_row (windows_free t (word_at words.now) step size) 0 (start_of t 0) (count - start_of t 0) None }
{
    let taken = prepare(t, words, 0, size, rest);
    for j in start_of(t, 0)..count {
        if !pair_free(taken, rest, size, 0, j * step) {
            return Some((0, j));
        }
    }
    None
}

// Of all pairs, by the first row alone where the table is one of powers: a pair of windows then fails exactly if the pair as far apart that
// begins at the first does.
pub fn first_failing(
    t: Table,
    words: &[u64],
    step: usize,
    size: usize,
    count: usize,
    rest: &mut [u64],
) -> Option<(usize, usize)>
    requires windows { Windows (length words.now) step size count × (length rest.old ≡ length words.now) }
    requires digits32 { Digits32 words.now }
    ensures { result ≡ first_failing (windows_free t (word_at words.now) step size) (start_of t) count }
{
    if are_powers(words) {
        return first_row(t, words, step, size, count, rest);
    }
    search(t, words, step, size, count, rest)
}
