// Where a data bit stands on the sheet, from the check list alone: no cell is looked at.
ghost use Rattle.std.specs.Prelude.{◌<◌};
ghost use Rattle.boxcode.specs.Code.{Formed};
ghost use Rattle.boxcode.specs.Check.{data_size};
ghost use Rattle.plan.specs.View.{code_in};
ghost use Rattle.position.specs.Placed.{Follows, Holds};

use crate::cursor::{bit, checks_before, next_check, row_ends};
use plan::view::{Cell, View};

// The number in sheet order of the data cell that has so many data cells before it: so many cells on, and as many more as check cells
// are passed.
fn data_after<'a>(view: View<'a>, count: usize) -> usize
    requires formed { Formed (code_in view) }
    requires count_bound { count < data_size (code_in view) }
    ensures { Follows (code_in view.entry) count result }
{
    let h = view.header;
    let checks = h.rv + h.rh;
    for q in 0..checks {
        let t = count + q;
        if t < next_check(view, q) {
            return t;
        }
    }
    count + checks
}

// The cell that holds data bit d. In sheet order and in the data's order each row has the same bits, so bit d stands in the row of the
// data cell that has d before it in sheet order; in that row, the cell is where the row's bits, up or down, come to d.
pub fn data_cell<'a>(view: View<'a>, d: usize) -> Cell
    requires formed { Formed (code_in view) }
    requires d_bound { d < data_size (code_in view) }
    ensures { Holds (code_in view.entry) d result }
{
    let h = view.header;
    let row = data_after(view, d) / h.n2;
    let check = checks_before(view, row * h.n2, 0);
    let place = bit(row, d, row_ends(view, row, check));
    let column = data_after(view, place) % h.n2;
    Cell { row, column }
}
