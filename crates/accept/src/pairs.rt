// The answer of a search over pairs of windows or strips.
ghost use Rattle.std.specs.Prelude.{◌≡◌};
ghost use Rattle.plan.specs.Verdict.{told};
ghost use Rattle.accept.specs.Pairs.{pair_verdict};
ghost use Rattle.accept.specs.Windows.{condition_number};

use plan::table::Table;
use plan::verdict::{Refusal, Verdict};

// The first failing pair of starts, or none, as the check of this number tells it.
pub fn pair_verdict(number: usize, pair: Option<(usize, usize)>) -> Verdict
    ensures { result ≡ pair_verdict number pair }
{
    match pair {
        Some((i, j)) => Verdict { number, p: i, q: j },
        None => Verdict {
            number: 0,
            p: 0,
            q: 0,
        },
    }
}

// The same as the answer of a table's check: 8 of V, 9 of H.
pub fn pair_refusal(t: Table, pair: Option<(usize, usize)>) -> Result<(), Refusal>
    ensures { told result ≡ pair_verdict (condition_number t) pair }
{
    match (t, pair) {
        (_, None) => Ok(()),
        (Table::Rows, Some((i, j))) => Err(Refusal::RowWindows(i, j)),
        (Table::Columns, Some((a, b))) => Err(Refusal::ColumnStrips(a, b)),
    }
}
