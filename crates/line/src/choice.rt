// Which way the program trialread searches for the burst.
ghost use Rattle.std.specs.Prelude.{◌≡◌};
ghost use Rattle.line.specs.Line.{plan_part};
ghost use Rattle.line.specs.Choice.{search_for};

use crate::parts::plan_size;
use accept::test::test;
use plan::entry::header_of;
use plan::header::LENGTH;
use plan::table::WORDS;
use reader::search::Search;

// The most cells of a plan that is read by trial (02 j).
const SMALL: usize = 64;

// Of a plan: by trial exactly where it is accepted and has at most 64 cells. The header is looked at first, so that a plan with more cells
// is not tested here, and is tested once. An accepted plan with so few cells has no more rows and no more columns.
fn search_under(plan: &[u8]) -> Search
    ensures { result ≡ search_for plan.now }
{
    if plan.len() < LENGTH {
        return Search::ByWindow;
    }
    let h = header_of(plan);
    if SMALL < h.n1 {
        return Search::ByWindow;
    }
    if SMALL < h.n2 {
        return Search::ByWindow;
    }
    if SMALL < h.n1 * h.n2 {
        return Search::ByWindow;
    }
    let mut words = [0u64; WORDS];
    match test(plan, &mut words) {
        Ok(_) => Search::ByTrial,
        Err(_) => Search::ByWindow,
    }
}

// Of the bytes that the program is given.
pub fn search_for(input: &[u8]) -> Search
    ensures { result ≡ search_for (plan_part input.now) }
{
    let n = plan_size(input);
    search_under(&input[..n])
}
