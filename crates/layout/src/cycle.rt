// Places that come round again: remainders, with no division.
ghost use Rattle.std.specs.Prelude.{◌≡◌, ◌+◌, ◌%◌, ◌<◌};

// The place after k among b: the first again after the last.
pub fn after(k: usize, b: usize) -> usize
    requires { k < b }
    ensures { result ≡ (k + 1) % b }
{
    let next = k + 1;
    if next == b { 0 } else { next }
}
