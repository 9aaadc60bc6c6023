// What the first of two windows leaves of a table. It is worked out once for a first window and then asked for each second one.
ghost use Rattle.std.specs.Prelude.{◌≡◌, ◌&&◌, [], ◌+◌, ◌≤◌, max, eqb, length};
ghost use Rattle.gf2.specs.Vectors.{free_from, part};
ghost use Rattle.plan.specs.declared.table.Table.TheVariants.{Rows};
ghost use Rattle.plan.specs.Table.{word_at};
ghost use Rattle.accept.specs.Windows.{WindowIn, Block, Prepared, Reduced};

use gf2::{empty_basis, keep, sweep};
use plan::table::Table;

// Of the row table: how many words of the window its basis takes in, and the words after it as that basis leaves them.
fn sweep_rest(words: &[u64], first: usize, size: usize, rest: &mut [u64]) -> usize
    requires { WindowIn (length words.now) first size × (length rest.old ≡ length words.now) }
    ensures { Prepared Rows words.now size first result rest.new }
{
    let base = keep(empty_basis(), &words[first..first + size]);
    let members = base.words;
    let taken = base.taken;
    for k in first + size..words.len() {
        rest[k] = sweep(&members[..taken], words[k]);
    }
    taken
}

// Of n words from k on each with the strip's word at the same place taken off.
fn differ_block(words: &[u64], first: usize, k: usize, n: usize, rest: &mut [u64])
    requires { (first ≤ k) × (k + n ≤ length words.now) × (length rest.old ≡ length words.now) }
    ensures { Block (word_at words.now) first k n rest.old rest.new }
{
    for at in 0..n {
        rest[k + at] = words[k + at] ^ words[first + at];
    }
}

// Of the column table: the words after the strip, each with the strip's word of the same remainder taken off. The strip itself
// asks nothing. A block a turn, the last one shorter: no index is counted.
pub fn differ_rest(words: &[u64], first: usize, size: usize, rest: &mut [u64]) -> usize
    requires { WindowIn (length words.now) first size × (length rest.old ≡ length words.now) }
    ensures { (result ≡ size) × Reduced words.now size first rest.new }
{
    let mut k = first + size;
    while k < words.len() {
        let n = size.min(words.len() - k);
        differ_block(words, first, k, n, rest);
        k += n;
    }
    size
}

// The window at a place of a table, made ready to be paired with each later one: how many of its own words count.
pub fn prepare(t: Table, words: &[u64], first: usize, size: usize, rest: &mut [u64]) -> usize
    requires { WindowIn (length words.now) first size × (length rest.old ≡ length words.now) }
    ensures { Prepared t words.now size first result rest.new }
{
    match t {
        Table::Rows => sweep_rest(words, first, size, rest),
        Table::Columns => differ_rest(words, first, size, rest),
    }
}

// The pair is free: the first window is, all of whose words were taken in, and so is what it leaves of the second.
pub fn pair_free(taken: usize, rest: &[u64], size: usize, first: usize, second: usize) -> bool
    requires { (size ≤ 16) × (first ≤ second) × (second + size ≤ length rest.now) }
    ensures { result ≡ (eqb taken size && free_from [] (part (max (first + size) second) (second + size) rest.now)) }
{
    let end = second + size;
    let from = (first + size).max(second);
    let more = keep(empty_basis(), &rest[from..end]);
    (taken == size) & (more.taken == end - from)
}
