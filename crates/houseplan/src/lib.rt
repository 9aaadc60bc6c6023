// The house plan (document 02, request d): what the maker makes from the house numbers, its column table out of the constant.
#![tactic(auto)]

ghost use Rattle.std.specs.Prelude.{◌≡◌, length};
ghost use Rattle.plan.specs.Verdict.{told};
ghost use Rattle.maker.specs.Make.{given_checks, made, make};
ghost use Rattle.houseplan.specs.HousePlan.{house_parameters};

use gf2::powers::fill_powers;
use house::{DEGREE, LOW, lay_columns};
use maker::making::make_filled;
use maker::parameters::{Parameters, given_checks};
use plan::table::WORDS;
use plan::verdict::Refusal;

// The house numbers: 512 rows, 698 columns, bursts of 3 by 3, and a polynomial for each table.
fn parameters() -> Parameters
    ensures { result ≡ house_parameters }
{
    Parameters {
        n1: 512,
        n2: 698,
        b1: 3,
        b2: 3,
        t: 0,
        rv: 22,
        vlow: 0x39f0d,
        rh: DEGREE,
        hlow: LOW,
    }
}

// Lays out the tables, once the buffer has the right length: nothing is worked out before. It is the maker's but for one line: handed over
// as a closure, that line would need a clause on what it lays in both functions, and be longer than what it saves.
fn make_checked(plan: &mut [u8]) -> Result<(), Refusal>
    requires { (given_checks house_parameters (length plan.old)).number ≡ 0 }
    ensures { made (told result) plan.new ≡ make house_parameters plan.old }
{
    let g = parameters();
    let mut rows = [0u64; WORDS];
    let mut columns = [0u64; WORDS];
    fill_powers(g.rv, g.vlow, g.n1 * g.b2, &mut rows);
    lay_columns(&mut columns);
    make_filled(g, &rows, &columns, plan)
}

// Makes the house plan, or turns back with the buffer as it was.
pub fn make_house(plan: &mut [u8]) -> Result<(), Refusal>
    ensures { made (told result) plan.new ≡ make house_parameters plan.old }
{
    given_checks(parameters(), plan.len())?;
    make_checked(plan)
}
