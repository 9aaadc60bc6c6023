// What a plan is made from, and the checks that look at nothing else.
ghost use Rattle.std.specs.Prelude.{◌≡◌, ◌≤◌};
ghost use Rattle.plan.specs.Verdict.{told};
ghost use Rattle.maker.specs.Make.{numbers_of, bad_polynomial, given_checks};

use plan::form::{offsets_verdict, sizes_verdict};
use plan::header::{Header, ruled};
use plan::verdict::{Refusal, refuse_if};

// The sizes of the sheet and of a burst, and the most cells of a burst, or 0 for any; and of each table the degree of its polynomial, rv or rh,
// and the coefficients below that, digit i for the power i.
#[derive(Clone, Copy)]
pub struct Parameters {
    pub n1: usize,
    pub n2: usize,
    pub b1: usize,
    pub b2: usize,
    pub t: usize,
    pub rv: usize,
    pub vlow: u64,
    pub rh: usize,
    pub hlow: u64,
}

// The seven numbers of a header, its places still 0.
pub(crate) fn numbers(g: Parameters) -> Header
    ensures { result ≡ numbers_of g }
{
    Header {
        n1: g.n1,
        n2: g.n2,
        b1: g.b1,
        b2: g.b2,
        rv: g.rv,
        rh: g.rh,
        rows: 0,
        columns: 0,
        checks: 0,
        total: 0,
        t: g.t,
    }
}

// Check 15 of one polynomial: constant term 0, or a coefficient at or above the degree.
fn bad_polynomial(degree: usize, low: u64) -> bool
    requires { degree ≤ 32 }
    ensures { result ≡ bad_polynomial degree low }
{
    (low % 2 == 0) | ((1u64 << degree) <= low)
}

// Checks 2, 3, 4, 23, 5 and 15, of a plan buffer of size bytes.
pub fn given_checks(g: Parameters, size: usize) -> Result<(), Refusal>
    ensures { told result ≡ given_checks g size }
{
    let h = numbers(g);
    sizes_verdict(h)?;
    offsets_verdict(size, ruled(h))?;
    let bad = bad_polynomial(g.rv, g.vlow) | bad_polynomial(g.rh, g.hlow);
    refuse_if(bad, Refusal::Polynomial)
}
