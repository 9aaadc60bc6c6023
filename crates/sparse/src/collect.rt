// The sums of all sets of at most t words of a window, t being 1 or 2, put in a list with marks, as long as no two of them are equal.
ghost use Rattle.std.specs.Prelude.{◌≡◌, ◌+◌, ◌-◌, ◌≤◌, ◌<◌, eqb, length, take, set};
ghost use Rattle.plan.specs.Table.{word_at};
ghost use Rattle.sparse.specs.Sets.{hit_at, mark_set, Marked};
ghost use Rattle.sparse.specs.Collect.{pair_has, Grown, OnlyZero, Room, Windowed, Stepped};

use crate::hits::hit_at;
use crate::sums::mark;

// One sum more, and its mark.
fn add(x: u64, count: usize, sums: &mut [u64], marks: &mut [u8])
    requires { (count < length sums.old) × (length marks.old ≡ 4096) }
    ensures sums_after { sums.new ≡ set sums.old count x }
    ensures marks_after { marks.new ≡ mark_set marks.old x }
{
    sums[count] = x;
    mark(marks, x);
}

// The sum of the empty set, and no other.
pub fn only_zero(sums: &mut [u64], marks: &mut [u8]) -> usize
    requires { (1 ≤ length sums.old) × (length marks.old ≡ 4096) }
    ensures { OnlyZero result sums.new marks.new }
{
    add(0, 0, sums, marks);
    1
}

// The sums of the sets of two places, the last of which is k.
fn add_pairs(
    words: &[u64],
    first: usize,
    k: usize,
    count: usize,
    sums: &mut [u64],
    marks: &mut [u8],
) -> usize
    requires first_le_k { (first ≤ k) × (k < length words.now) × (count + (k - first) ≤ 257) }
    requires sums_len { (length sums.old ≡ 257) × Marked (take count sums.old) marks.old }
    ensures value { result ≡ count + (k - first) }
    ensures grown { Grown sums.old count (pair_has (word_at words.now) first k) result sums.new marks.new }
{
    let n = k - first;
    for d in 0..n {
        add(words[first + d] ^ words[k], count + d, sums, marks);
    }
    count + n
}

// The sums of the sets of at most t places, the last of which is k.
fn add_last(
    words: &[u64],
    first: usize,
    k: usize,
    t: usize,
    count: usize,
    sums: &mut [u64],
    marks: &mut [u8],
) -> usize
    requires first_le_k { (first ≤ k) × (k < length words.now) × (k < first + 16) × (count + 16 ≤ 257) }
    requires sums_len { (length sums.old ≡ 257) × Marked (take count sums.old) marks.old }
    ensures lower_bound { (count < result) × (result ≤ count + 16) }
    ensures grown { Grown sums.old count (λ x. hit_at t (word_at words.now) first k (λ y. eqb y x)) result
        sums.new marks.new }
{
    add(words[k], count, sums, marks);
    if t != 2 {
        return count + 1;
    }
    add_pairs(words, first, k, count + 1, sums, marks)
}

// The same, where none of these sums is there already.
fn next_sums(
    words: &[u64],
    first: usize,
    k: usize,
    t: usize,
    count: usize,
    sums: &mut [u64],
    marks: &mut [u8],
) -> Option<usize>
    requires first_le_k { (first ≤ k) × (k < length words.now) × (k < first + 16) × (count + 16 ≤ 257) }
    requires sums_len { (length sums.old ≡ 257) × Marked (take count sums.old) marks.old }
    ensures { Stepped t (word_at words.now) first k count result sums.old sums.new marks.new }
{
    if hit_at(words, &sums[..count], marks, first, k, t) {
        return None;
    }
    Some(add_last(words, first, k, t, count, sums, marks))
}

// The sums of all sets of at most t places of the window, and how many they are, where no two of these sets have the same sum.
pub fn window_sums(
    words: &[u64],
    first: usize,
    size: usize,
    t: usize,
    sums: &mut [u64],
    marks: &mut [u8],
) -> Option<usize>
    requires { Room words.now first size sums.old marks.old }
    ensures { Windowed t (word_at words.now) first size result sums.new marks.new }
{
    let mut count = only_zero(sums, marks);
    for k in 0..size {
        count = next_sums(words, first, first + k, t, count, sums, marks)?;
    }
    Some(count)
}
