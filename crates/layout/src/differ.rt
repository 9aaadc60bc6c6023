// The first byte at which two strings of bytes differ.
ghost use Rattle.std.specs.Prelude.{◌≡◌, not, ◌+◌, ◌≤◌, length};
ghost use Rattle.finite.specs.Search.{any_below};
ghost use Rattle.layout.specs.Differ.{differ_at, first_different, AgreeUpTo};

// Whether no byte of the 64 from a place on differs. All of them are looked at, so that the compiled code takes many at once.
fn same_block(s: &[u8], t: &[u8], at: usize) -> bool
    requires { (at + 64 ≤ length s.now) × (length s.now ≡ length t.now) }
    ensures { result ≡ not (any_below 64 (λ j. differ_at s.now t.now (at + j))) }
{
    let mut seen = 0u8;
    for j in 0..64 {
        seen |= s[at + j] ^ t[at + j];
    }
    seen == 0
}

// How far s and t agree at least, in whole blocks.
fn same_blocks(s: &[u8], t: &[u8]) -> usize
    requires { length s.now ≡ length t.now }
    ensures { AgreeUpTo s.now t.now result }
{
    let blocks = s.len() / 64;
    for b in 0..blocks {
        if !same_block(s, t, 64 * b) {
            return 64 * b;
        }
    }
    64 * blocks
}

// The first byte at which s and t differ, or their length.
pub fn first_different(s: &[u8], t: &[u8]) -> usize
    requires { length s.now ≡ length t.now }
    ensures { result ≡ first_different s.now t.now }
{
    for k in same_blocks(s, t)..s.len() {
        if s[k] != t[k] {
            return k;
        }
    }
    s.len()
}
