// Sums, as a list with marks: most numbers that are none of them are known by one look. There are 32,768 marks, a digit each.
ghost use Rattle.std.specs.Prelude.{◌≡◌, length};
ghost use Rattle.sparse.specs.Sets.{mark_place, has_mark, mark_set, one_of, Marked};

// The byte that has the mark of a number.
fn place(x: u64) -> usize
    ensures { result ≡ mark_place x }
{
    (x % 32768 / 8) as usize
}

// Gives a number its mark.
pub fn mark(marks: &mut [u8], x: u64)
    requires { length marks.old ≡ 4096 }
    ensures { marks.new ≡ mark_set marks.old x }
{
    let k = place(x);
    marks[k] |= 1 << (x % 8);
}

// A number has its mark.
pub fn marked(marks: &[u8], x: u64) -> bool
    requires { length marks.now ≡ 4096 }
    ensures { result ≡ has_mark marks.now x }
{
    let k = place(x);
    (marks[k] >> (x % 8)) % 2 == 1
}

// Among these sums. All are looked at: without a way out of the loop the compiler takes several at a time. `contains` leaves at the first
// that is equal, and took 1.3 times as long.
pub fn among(sums: &[u64], x: u64) -> bool
    ensures { result ≡ one_of sums.now x }
{
    let mut found = false;
    for sum in sums {
        found |= *sum == x;
    }
    found
}

// The same, by the mark first.
pub fn has(sums: &[u64], marks: &[u8], x: u64) -> bool
    requires { Marked sums.now marks.now }
    ensures { result ≡ one_of sums.now x }
{
    if !marked(marks, x) {
        return false;
    }
    among(sums, x)
}
