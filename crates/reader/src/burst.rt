// The burst of a sheet: found, which writes nothing, and then turned over, which is all that writes.
ghost use Rattle.std.specs.Prelude.{◌≡◌, Ok, length};
ghost use Rattle.layout.specs.Cells.{row_bytes, cell_of, RightForm};
ghost use Rattle.layout.specs.Stored.{size_in, cell_in, FormIn};
ghost use Rattle.layout.specs.declared.stored.Layout.TheVariants.{ByRow};
ghost use Rattle.boxcode.specs.Syndrome.{row_syndrome, column_syndrome};
ghost use Rattle.boxcode.specs.Check.{data_size};
ghost use Rattle.plan.specs.View.{code_in};
ghost use Rattle.plan.specs.Table.{Unpacked};
ghost use Rattle.mend.specs.Found.{FoundFor, IsBurst};
ghost use Rattle.reader.specs.Read.{outcome, told_read, taken, bits_read};

use crate::search::Search;
use crate::turn::turn_box;
use layout::stored::Layout;
use mend::find::find;
use mend::found::Burst;
use mend::report::{Report, report_of};
use payload::held::turn_bit_if;
use payload::transfer::take;
use plan::view::Accepted;
use syndrome::whole::sheet_sums;
use trial::sheet::try_all;

// The burst with the two sums of a sheet, under an accepted plan.
pub fn find_burst<'a>(
    by: Search,
    lay: Layout,
    accepted: Accepted<'a>,
    columns: &[u64],
    sheet: &[u8],
) -> Option<Burst>
    requires unpacked { Unpacked accepted.view.plan.now accepted.view.header columns.now }
    requires sheet_len { length sheet.now ≡ size_in lay accepted.view.header.n1 accepted.view.header.n2 }
    ensures { let c = code_in accepted.entry.view in let s = cell_in lay accepted.entry.view.header.n1 accepted.entry.view.header.n2 sheet.now in
        FoundFor c (row_syndrome c s) (column_syndrome c s) result }
{
    let view = accepted.view;
    let s = sheet_sums(lay, sheet, view, columns);
    match by {
        Search::ByWindow => find(accepted, columns, s.row, s.column),
        Search::ByTrial => try_all(view, s.row, s.column),
    }
}

// Turns that burst over, takes the data of the mended sheet, and reports.
pub fn apply_burst<'a>(
    lay: Layout,
    accepted: Accepted<'a>,
    sheet: &mut [u8],
    bits: &mut [u8],
    burst: Burst,
) -> Report
    requires form_in { FormIn lay accepted.view.header.n1 accepted.view.header.n2 sheet.old }
    requires bits_len { length bits.old ≡ row_bytes (data_size (code_in accepted.view)) }
    requires fact { let c = code_in accepted.view in let s = cell_in lay accepted.view.header.n1 accepted.view.header.n2 sheet.old in
        IsBurst c (row_syndrome c s) (column_syndrome c s) burst.top burst.left burst.pattern }
    ensures { outcome (told_read (Ok result)) sheet.new bits.new ≡ taken lay (code_in accepted.entry.view) sheet.old }
{
    let view = accepted.view;
    let h = view.header;
    let Burst { top, left, pattern } = burst;
    turn_box(lay, sheet, h.n1, h.n2, top, left, h.b1, h.b2, pattern);
    take(lay, view, sheet, bits);
    report_of(top, left, h.b1, h.b2, pattern)
}

// The data of a sheet by row with that burst turned over, where the sheet keeps its bytes: the data of the sheet as it is, and then the
// bits of the burst's cells turned over.
pub fn take_mended<'a>(accepted: Accepted<'a>, sheet: &[u8], bits: &mut [u8], burst: Burst)
    requires right_form { RightForm accepted.view.header.n1 accepted.view.header.n2 sheet.now }
    requires bits_len { length bits.old ≡ row_bytes (data_size (code_in accepted.view)) }
    requires fact { let c = code_in accepted.view in let s = cell_of accepted.view.header.n2 sheet.now in
        IsBurst c (row_syndrome c s) (column_syndrome c s) burst.top burst.left burst.pattern }
    ensures { bits.new ≡ bits_read ByRow (code_in accepted.entry.view) sheet.now }
{
    let view = accepted.view;
    let h = view.header;
    take(Layout::ByRow, view, sheet, bits);
    let Burst { top, left, pattern } = burst;
    let b2 = h.b2;
    for k in 0..h.b1 * b2 {
        turn_bit_if(
            view,
            bits,
            top + k / b2,
            left + k % b2,
            (pattern >> k) % 2 == 1,
        );
    }
}
