// The two sums of a whole sheet, in either layout.
ghost use Rattle.std.specs.Prelude.{◌≡◌, length};
ghost use Rattle.layout.specs.Stored.{size_in, cell_in};
ghost use Rattle.plan.specs.View.{code_in};
ghost use Rattle.plan.specs.Table.{Unpacked};
ghost use Rattle.syndrome.specs.Gather.{SheetSums};

use crate::columns::column_sums;
use crate::gather::sums;
use crate::run::Run;
use crate::sums::Sums;
use layout::stored::Layout;
use plan::view::View;

// By rows the sheet is the run from 0 to n1. By columns it is gathered as it is stored: no copy of it is made.
pub fn sheet_sums<'a>(lay: Layout, sheet: &[u8], view: View<'a>, columns: &[u64]) -> Sums
    requires unpacked { Unpacked view.plan.now view.header columns.now }
    requires sheet_len { length sheet.now ≡ size_in lay view.header.n1 view.header.n2 }
    ensures { SheetSums (code_in view.entry) (cell_in lay view.entry.header.n1 view.entry.header.n2 sheet.now) result }
{
    let h = view.header;
    match lay {
        Layout::ByRow => {
            let whole = Run {
                first: 0,
                past: h.n1,
            };
            sums(sheet, view, columns, whole)
        }
        Layout::ByColumn => column_sums(sheet, view, columns),
    }
}
