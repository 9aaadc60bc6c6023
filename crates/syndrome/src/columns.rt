// Gathering the two sums of a sheet that is stored by columns: a byte of a column, a block of eight rows, the sheet from its last block
// to its first.
ghost use Rattle.std.specs.Prelude.{◌≡◌, ◌+◌, ◌*◌, ◌%◌, ◌<◌, length};
ghost use Rattle.layout.specs.Cells.{row_bytes, sheet_bytes};
ghost use Rattle.plan.specs.View.{code_in};
ghost use Rattle.plan.specs.Table.{Unpacked};
ghost use Rattle.syndrome.specs.Gather.{RunSums};
ghost use Rattle.syndrome.specs.Columns.{by_column, tabled, Tables, PartSums};

use crate::gather::byte_sums;
use crate::sums::Sums;
use layout::cells::row_bytes;
use layout::cycle::after;
use plan::header::Header;
use plan::table::{Table, WORDS};
use plan::view::View;

// The sums of the cells of column j that stand in block b, the rows from 8 × b on: one byte. Rows and columns have changed places in
// it, and so have the two tables and the two sums. The V entries of column j are those of q, its number modulo b2.
fn part_sums(
    sheet: &[u8],
    h: Header,
    rows: &[u64],
    columns: &[u64],
    b: usize,
    j: usize,
    q: usize,
) -> Sums
    requires tables { Tables h rows.now columns.now }
    requires sheet_len { length sheet.now ≡ sheet_bytes h.n2 h.n1 }
    requires b_bound { b < row_bytes h.n1 }
    requires j_lt_n2 { j < h.n2 }
    requires q_value { q ≡ j % h.b2 }
    ensures { PartSums (tabled h rows.now columns.now) (by_column h.n1 h.n2 sheet.now) b j result }
{
    let count = h.b1;
    let from = j * count;
    let past = from + count;
    let x = sheet[j * row_bytes(h.n1) + b];
    let s = byte_sums(x, 8 * b, h.n1, &columns[from..past], count, rows, h.b2, q);
    Sums {
        row: s.column,
        column: s.row,
    }
}

// The sums of block b, the rows from 8 × b up to 8 × b + 8: those of its columns together. The last block may have fewer rows.
fn block_sums(sheet: &[u8], h: Header, rows: &[u64], columns: &[u64], b: usize) -> Sums
    requires tables { Tables h rows.now columns.now }
    requires sheet_len { length sheet.now ≡ sheet_bytes h.n2 h.n1 }
    requires b_bound { b < row_bytes h.n1 }
    ensures { RunSums (tabled h rows.now columns.now) (by_column h.n1 h.n2 sheet.now) (8 * b) (8 * b + 8) result }
{
    let mut held = Sums { row: 0, column: 0 };
    let mut q = 0;
    for j in 0..h.n2 {
        held = held ^ part_sums(sheet, h, rows, columns, b, j, q);
        q = after(q, h.b2);
    }
    held
}

// The sums of the sheet by its two tables in words. At each step what is held is the two sums of the rows fed so far (02 b).
fn tabled_sums(sheet: &[u8], h: Header, rows: &[u64], columns: &[u64]) -> Sums
    requires tables { Tables h rows.now columns.now }
    requires sheet_len { length sheet.now ≡ sheet_bytes h.n2 h.n1 }
    ensures { RunSums (tabled h rows.now columns.now) (by_column h.n1 h.n2 sheet.now) 0 h.n1 result }
{
    let mut held = Sums { row: 0, column: 0 };
    for b in (0..row_bytes(h.n1)).rev() {
        held = held ^ block_sums(sheet, h, rows, columns, b);
    }
    held
}

// The two sums of a sheet that is stored by columns, fed in blocks of eight rows from the last to the first (02 b): a byte of a column
// has one cell of each row of a block. Each column asks for the entries of all rows, so the row table is unpacked too, into words of
// this function's own, which no caller has to hold.
pub fn column_sums<'a>(sheet: &[u8], view: View<'a>, columns: &[u64]) -> Sums
    requires unpacked { Unpacked view.plan.now view.header columns.now }
    requires sheet_len { length sheet.now ≡ sheet_bytes view.header.n2 view.header.n1 }
    ensures { RunSums (code_in view.entry) (by_column view.entry.header.n1 view.entry.header.n2 sheet.now) 0 view.entry.header.n1 result }
{
    let h = view.header;
    let mut rows = [0u64; WORDS];
    view.unpack(Table::Rows, &mut rows);
    tabled_sums(sheet, h, &rows, columns)
}
