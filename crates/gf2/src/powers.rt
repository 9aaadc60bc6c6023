// Tables of powers: each word is z times the one before, modulo one polynomial.
ghost use Rattle.std.specs.Prelude.{◌≡◌, ◌^◌, ◌≤◌, ◌<◌, length};
ghost use Rattle.gf2.specs.Powers.{times_z, polynomial, PowersIn, first_break, modulus_of, are_powers, Digits32};

// z times x modulo the polynomial p.
fn times_z(p: u64, x: u64) -> u64
    requires { x < 4294967296 }
    ensures { result ≡ times_z p x }
{
    let twice = 2 * x;
    twice.min(twice ^ p)
}

// The powers of z into the first count words: 1, and then z times the one before, modulo the polynomial of this degree whose
// coefficients below it are the digits of low.
pub fn fill_powers(degree: usize, low: u64, count: usize, words: &mut [u64])
    requires le_degree { (1 ≤ degree) × (degree ≤ 32) × (low < 2 ^ degree) }
    requires count_in_bounds { count ≤ length words.old }
    ensures { PowersIn (polynomial degree low) count words.old words.new }
{
    let p = (1u64 << degree) + low;
    let mut x = 1;
    for word in &mut words[..count] {
        *word = x;
        x = times_z(p, x);
    }
}

// The first place after which a word is not z times the one before, or the place of the last word.
fn first_break(p: u64, words: &[u64]) -> usize
    requires { Digits32 words.now }
    ensures { result ≡ first_break p words.now }
{
    let steps = words.len().saturating_sub(1);
    for k in 0..steps {
        if times_z(p, words[k]) != words[k + 1] {
            return k;
        }
    }
    steps
}

// A polynomial by which the words may be powers: modulo 0 a word is doubled, and where that breaks first, this was taken off.
fn modulus_of(words: &[u64]) -> u64
    requires { Digits32 words.now }
    ensures { result ≡ modulus_of words.now }
{
    let k = first_break(0, words);
    if words.len() <= k + 1 {
        return 1;
    }
    (2 * words[k]) ^ words[k + 1]
}

// The words are powers, modulo a polynomial with constant term 1: without it z times a number could be 0.
pub fn are_powers(words: &[u64]) -> bool
    requires { Digits32 words.now }
    ensures { result ≡ are_powers words.now }
{
    let p = modulus_of(words);
    (p % 2 == 1) & (words.len() <= first_break(p, words) + 1)
}
