// Data into the cells of a sheet, and out of them.
ghost use Rattle.std.specs.Prelude.{◌≡◌, length};
ghost use Rattle.layout.specs.Cells.{row_bytes};
ghost use Rattle.layout.specs.Stored.{size_in, cell_in};
ghost use Rattle.boxcode.specs.Code.{Formed};
ghost use Rattle.boxcode.specs.Check.{data_size};
ghost use Rattle.plan.specs.View.{code_in};
ghost use Rattle.payload.specs.Packed.{filled_bytes, packed_data};
ghost use Rattle.payload.specs.Transfer.{put_run, take_run, Reaches};

use layout::cells::{cell, clear, turn_if};
use layout::stored::{Layout, cell_in, turn_in};
use plan::view::View;
use position::cursor::{Cursor, bit, run, start, step};

// The data bits of a run into its cells, which are light before.
fn put_run(
    lay: Layout,
    bits: &[u8],
    k: usize,
    sheet: &mut [u8],
    n1: usize,
    n2: usize,
    at: Cursor,
    len: usize,
)
    requires { Reaches k (length bits.now) lay n1 n2 (length sheet.old) len at }
    ensures { sheet.new ≡ put_run len k bits.now lay n1 n2 sheet.old at }
{
    for j in 0..len {
        let dark = cell(bits, k, 0, bit(at.row, at.place + j, at.ends));
        turn_in(sheet, lay, n1, n2, at.row, at.column + j, dark);
    }
}

// The cells of a run into their data bits, which are 0 before. It is put_run the other way round: a closure for the two lines would have to
// say in its clauses what it does to either buffer.
fn take_run(
    lay: Layout,
    sheet: &[u8],
    n1: usize,
    n2: usize,
    bits: &mut [u8],
    k: usize,
    at: Cursor,
    len: usize,
)
    requires { Reaches k (length bits.old) lay n1 n2 (length sheet.now) len at }
    ensures { bits.new ≡ take_run len lay n1 n2 sheet.now k bits.old at }
{
    for j in 0..len {
        let dark = cell_in(sheet, lay, n1, n2, at.row, at.column + j);
        turn_if(bits, k, 0, bit(at.row, at.place + j, at.ends), dark);
    }
}

// The sheet that holds the data in its data cells, and 0 in its check cells.
pub fn put<'a>(lay: Layout, view: View<'a>, bits: &[u8], sheet: &mut [u8])
    requires formed { Formed (code_in view) }
    requires bits_len { length bits.now ≡ row_bytes (data_size (code_in view)) }
    requires sheet_len { length sheet.old ≡ size_in lay view.header.n1 view.header.n2 }
    ensures { sheet.new ≡ filled_bytes lay (code_in view.entry) bits.now }
{
    let h = view.header;
    let k = h.n1 * h.n2 - (h.rv + h.rh);
    let n2 = h.n2;
    clear(sheet);
    let mut at = start(view);
    while at.row < h.n1 {
        let len = run(at, n2);
        put_run(lay, bits, k, sheet, h.n1, n2, at, len);
        at = step(view, at, len);
    }
}

// The data that the cells of a sheet hold.
pub fn take<'a>(lay: Layout, view: View<'a>, sheet: &[u8], bits: &mut [u8])
    requires formed { Formed (code_in view) }
    requires bits_len { length bits.old ≡ row_bytes (data_size (code_in view)) }
    requires sheet_len { length sheet.now ≡ size_in lay view.header.n1 view.header.n2 }
    ensures { bits.new ≡ packed_data (code_in view.entry) (cell_in lay view.entry.header.n1 view.entry.header.n2 sheet.now) }
{
    let h = view.header;
    let k = h.n1 * h.n2 - (h.rv + h.rh);
    let n2 = h.n2;
    clear(bits);
    let mut at = start(view);
    while at.row < h.n1 {
        let len = run(at, n2);
        take_run(lay, sheet, h.n1, n2, bits, k, at, len);
        at = step(view, at, len);
    }
}
