// Sets by their last place.
ghost use Rattle.std.specs.Prelude.{◌≡◌, ◌+◌, ◌-◌, ◌≤◌, ◌<◌, length};
ghost use Rattle.finite.specs.Search.{any_below};
ghost use Rattle.gf2.specs.Xor.{◌⊕◌};
ghost use Rattle.plan.specs.Table.{word_at};
ghost use Rattle.sparse.specs.Sets.{hit_at, line_hit, one_of, Marked, NextMarked};

use crate::sums::{among, has, marked};

// The first place, from `from` on, that makes with k a number that has a mark, or k. The list of sums is not looked at in this loop, which
// is the one that the test of a plan spends its time in.
fn next_marked(words: &[u64], marks: &[u8], from: usize, k: usize) -> usize
    requires { (from ≤ k) × (k < length words.now) × (length marks.now ≡ 4096) }
    ensures { NextMarked (word_at words.now) marks.now from k result }
{
    let last = words[k];
    for l in from..k {
        if marked(marks, words[l] ^ last) {
            return l;
        }
    }
    k
}

// A set of two places, the last of which is k, has one of the sums.
fn pair_hits(words: &[u64], sums: &[u64], marks: &[u8], from: usize, k: usize) -> bool
    requires from_le_k { (from ≤ k) × (k < length words.now) }
    requires marked { Marked sums.now marks.now }
    ensures { result ≡ any_below (k - from) (λ d. one_of sums.now (word_at words.now (from + d) ⊕ word_at words.now k)) }
{
    let mut l = next_marked(words, marks, from, k);
    while l < k {
        if among(sums, words[l] ^ words[k]) {
            return true;
        }
        l = next_marked(words, marks, l + 1, k);
    }
    false
}

// A set of at most t places, the last of which is k, has one of the sums.
pub fn hit_at(words: &[u64], sums: &[u64], marks: &[u8], from: usize, k: usize, t: usize) -> bool
    requires from_le_k { (from ≤ k) × (k < length words.now) }
    requires marked { Marked sums.now marks.now }
    ensures { result ≡ hit_at t (word_at words.now) from k (one_of sums.now) }
{
    if has(sums, marks, words[k]) {
        return true;
    }
    if t != 2 {
        return false;
    }
    pair_hits(words, sums, marks, from, k)
}

// The same, with the last place among the n from `last` on.
pub fn line_hit(
    words: &[u64],
    sums: &[u64],
    marks: &[u8],
    from: usize,
    last: usize,
    n: usize,
    t: usize,
) -> bool
    requires from_le_last { (from ≤ last) × (last + n ≤ length words.now) }
    requires marked { Marked sums.now marks.now }
    ensures { result ≡ line_hit t (word_at words.now) from last n (one_of sums.now) }
{
    for d in 0..n {
        if hit_at(words, sums, marks, from, last + d, t) {
            return true;
        }
    }
    false
}
