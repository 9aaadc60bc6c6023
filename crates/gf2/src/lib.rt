// Linear algebra over the field of two elements, on numbers of up to 64 bits. It knows nothing of sheets and plans.
//
// Two forms of what some vectors span, each a set of 64 words:
//   words in the order of the vectors, each as those before leave it (sweep, keep; proofs/Swept.antt, Keeping.antt): are they independent?
//   words by leading digit, with the combination of vectors that makes each (find_combination; proofs/Basis.antt, Solving.antt): which of
//   them sum to a target?
// And tables of powers (powers).
#![tactic(auto)]

pub mod powers;

ghost use Rattle.std.specs.Prelude.{◌≡◌, true, [], ◌≤◌, ◌<◌, length, take};
ghost use Rattle.gf2.specs.Vectors.{free_from};
ghost use Rattle.gf2.specs.Basis.{empty_words, reduced};
ghost use Rattle.gf2.specs.Solver.{solution, combined, solved, solver_of};
ghost use Rattle.gf2.specs.Swept.{swept, even_up, KeptOf};

// The words of no vectors.
pub fn empty_basis() -> [u64; 64]
    ensures { result ≡ empty_words }
{
    [0u64; 64]
}

// What is left of a vector, and the combination of members that was taken off it.
#[derive(Clone, Copy)]
struct Residue {
    left: u64,
    combo: u64,
}

// A basis, and for each word the combination of members that makes it: digit i is set where member i is in.
#[derive(Drop)]
struct Solver {
    basis: [u64; 64],
    combos: [u64; 64],
}

// What is left of v: the word at its leading digit is taken off as long as that makes it smaller. The combination of each word that is
// taken off is gathered in y.
fn reduce_combined(basis: &[u64; 64], combos: &[u64; 64], v: u64, y: u64) -> Residue
    ensures { (result.left ≡ reduced basis.now v) × (result.combo ≡ combined basis.now combos.now v y) }
{
    let mut left = v;
    let mut combo = y;
    while left != 0 {
        let k = left.ilog2() as usize;
        let next = left ^ basis[k];
        if left <= next {
            return Residue { left, combo };
        }
        left = next;
        combo ^= combos[k];
    }
    Residue { left, combo }
}

// The solver for the members, up to the first that those before it span; at most 64.
fn solver_of(members: &[u64]) -> Solver
    ensures { result ≡ solver_of members.now }
{
    let mut basis = [0u64; 64];
    let mut combos = [0u64; 64];
    for (i, member) in members.iter().enumerate() {
        if 64 <= i {
            return Solver { basis, combos };
        }
        let r = reduce_combined(&basis, &combos, *member, 1 << i);
        let left = r.left;
        if left == 0 {
            return Solver { basis, combos };
        }
        let k = left.ilog2() as usize;
        basis[k] = left;
        combos[k] = r.combo;
    }
    Solver { basis, combos }
}

// The combination of members that makes the target, by a solver's words and combinations.
fn solve(basis: &[u64; 64], combos: &[u64; 64], target: u64) -> Option<u64>
    ensures { result ≡ solved basis.now combos.now target }
{
    let r = reduce_combined(basis, combos, target, 0);
    if r.left == 0 { Some(r.combo) } else { None }
}

// The combination of the members that makes the target, or that there is none. The members are independent, so there is at most one.
pub fn find_combination(members: &[u64], target: u64) -> Option<u64>
    requires members_len_bound { length members.now ≤ 64 }
    requires members_value { free_from [] members.now ≡ true }
    ensures { result ≡ solution members.now target }
{
    let solver = solver_of(members);
    solve(&solver.basis, &solver.combos, target)
}

// A basis: words to take off numbers one after another, the first `taken` of the array, and how many members they are of.
#[derive(Drop)]
pub struct Kept {
    pub words: [u64; 64],
    pub taken: usize,
}

// What is left of v: each word is taken off where that makes it smaller. It has no branch that depends on the numbers.
pub fn sweep(words: &[u64], v: u64) -> u64
    ensures { result ≡ swept words.now v }
{
    let mut left = v;
    for word in words {
        left = left.min(left ^ *word);
    }
    left
}

// The same by the first count words of a basis, two at a time: where count is odd, by one word more. By place: the compiler's loop over
// the pairs of `as_chunks` is longer, and the test of a plan runs 6 % more instructions.
fn sweep_pairs(words: &[u64; 64], count: usize, v: u64) -> u64
    requires { count < 64 }
    ensures { result ≡ swept (take (even_up count) words.now) v }
{
    let mut left = v;
    for i in 0..(count + 1) / 2 {
        left = left.min(left ^ words[i * 2]);
        left = left.min(left ^ words[i * 2 + 1]);
    }
    left
}

// A basis of the members, one after another, up to the first that those before it span: each is reduced by the words before it, and
// what is left of it is put in after them. What the words hold that are handed in is of no account. The word put in last is held beside
// the array, since the next step needs it at once; to take it off twice does no harm.
pub fn keep(words: [u64; 64], members: &[u64]) -> Kept
    requires { length members.now ≤ 64 }
    ensures { KeptOf members.now result }
{
    let mut kept = words;
    let mut last = 0u64;
    let mut older = 0;
    for (i, member) in members.iter().enumerate() {
        let swept = sweep_pairs(&kept, older, *member);
        let residue = swept.min(swept ^ last);
        if residue == 0 {
            return Kept {
                words: kept,
                taken: i,
            };
        }
        kept[i] = residue;
        last = residue;
        older = i;
    }
    Kept {
        words: kept,
        taken: members.len(),
    }
}
