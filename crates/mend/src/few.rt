// The pattern of few entries of a window that makes the V sum, where bursts have few cells.
ghost use Rattle.std.specs.Prelude.{ℕ, ◌≡◌, ◌≢◌, ◌≤◌, ◌<◌, length, slice_index, MatchOption, EachIndex};
ghost use Rattle.plan.specs.Table.{word_at};
ghost use Rattle.mend.specs.Window.{PairFit, FewFit};

// The place of the first of the words that is v, or that none is.
fn first_equal(words: &[u64], v: u64) -> Option<usize>
    ensures { MatchOption result (EachIndex words.now (λ k. slice_index words.now k ≢ v))
        (λ k. (k < length words.now) × (slice_index words.now k ≡ v) × ((j : ℕ) → j < k → slice_index words.now j ≢ v)) }
{
    words.iter().position(|w| *w == v)
}

// A pattern of two of the words.
fn pair_fit(words: &[u64], v: u64) -> Option<u64>
    requires { length words.now ≤ 16 }
    ensures { PairFit (word_at words.now) (length words.now) v result }
{
    for (k, word) in words.iter().enumerate() {
        if let Some(l) = first_equal(&words[..k], v ^ *word) {
            return Some((1u64 << l) ^ (1u64 << k));
        }
    }
    None
}

// A pattern of at most t of the words.
pub fn few_fit(words: &[u64], t: usize, v: u64) -> Option<u64>
    requires { (length words.now ≤ 16) × (1 ≤ t) × (t ≤ 2) }
    ensures { FewFit t (word_at words.now) (length words.now) v result }
{
    if v == 0 {
        return Some(0);
    }
    if let Some(k) = first_equal(words, v) {
        return Some(1u64 << k);
    }
    if t != 2 {
        return None;
    }
    pair_fit(words, v)
}
