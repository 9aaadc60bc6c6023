// Check cells turned over.
ghost use Rattle.std.specs.Prelude.{◌≡◌, ◌+◌, ◌<◌, length};
ghost use Rattle.finite.specs.Search.{bit};
ghost use Rattle.layout.specs.Stored.{size_in, turned_in};
ghost use Rattle.boxcode.specs.Code.{Formed};
ghost use Rattle.plan.specs.Bytes.{check_row_at, check_column_at};
ghost use Rattle.plan.specs.View.{code_in};
ghost use Rattle.writer.specs.Steps.{turned_to};

use layout::stored::{Layout, turn_in};
use plan::view::View;

// Check cell k, if digit k of y is 1.
fn turn_check<'a>(lay: Layout, view: View<'a>, y: u64, k: usize, sheet: &mut [u8])
    requires formed { Formed (code_in view) }
    requires k_bound { k < view.header.rv + view.header.rh }
    requires sheet_len { length sheet.old ≡ size_in lay view.header.n1 view.header.n2 }
    ensures { sheet.new ≡ turned_in (bit y k) lay view.entry.header.n1 view.entry.header.n2 sheet.old
        (check_row_at view.entry.plan.now view.entry.header k) (check_column_at view.entry.plan.now view.entry.header k) }
{
    let h = view.header;
    let cell = view.check_cell(k);
    turn_in(
        sheet,
        lay,
        h.n1,
        h.n2,
        cell.row,
        cell.column,
        (y >> k) % 2 == 1,
    );
}

// Those check cells whose digit of y is 1.
pub fn turn_checks<'a>(lay: Layout, view: View<'a>, y: u64, sheet: &mut [u8])
    requires formed { Formed (code_in view) }
    requires sheet_len { length sheet.old ≡ size_in lay view.header.n1 view.header.n2 }
    ensures { sheet.new ≡ turned_to lay (code_in view.entry) y (view.entry.header.rv + view.entry.header.rh) sheet.old }
{
    let h = view.header;
    for k in 0..h.rv + h.rh {
        turn_check(lay, view, y, k, sheet);
    }
}
