// What t says of a burst (document 02, request m).
ghost use Rattle.std.specs.Prelude.{◌≡◌};
ghost use Rattle.finite.specs.Search.{few};

// A burst may have n cells: at most t, or where t is 0 any number.
pub fn few(t: usize, n: usize) -> bool
    ensures { result ≡ few t n }
{
    (t == 0) | (n <= t)
}
