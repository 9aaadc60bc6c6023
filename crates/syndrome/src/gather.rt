// Gathering the two sums: a byte, a row, a run of rows from its last row to its first.
ghost use Rattle.std.specs.Prelude.{◌≡◌, ℕ, ◌+◌, ◌-◌, ◌*◌, ◌%◌, ◌<◌, length};
ghost use Rattle.layout.specs.Cells.{sheet_bytes, cell_of};
ghost use Rattle.plan.specs.Bytes.{row_entry_at};
ghost use Rattle.plan.specs.View.{code_in};
ghost use Rattle.plan.specs.Table.{Unpacked};
ghost use Rattle.syndrome.specs.Gather.{RowWords, Words, ByteSums, RowSums, run_rows, Fed, RunSums};

use crate::run::Run;
use crate::sums::Sums;
use layout::cells::row_bytes;
use layout::cycle::after;
use plan::view::View;

// The V entries of row i, of which there are b2.
fn row_words<'a>(view: View<'a>, i: usize) -> [u64; 4]
    requires i_lt_n1 { i < view.header.n1 }
    ensures { RowWords (λ (k : ℕ). row_entry_at view.entry.plan.now (i * view.entry.header.b2 + k)) view.entry.header.b2 result }
{
    let h = view.header;
    let mut words = [0u64; 4];
    for k in 0..h.b2 {
        words[k] = view.row_entry(i * h.b2 + k);
    }
    words
}

// The sums of the cells from column j on that stand in the byte x. On a sheet that is stored by columns, rows and columns change places.
pub fn byte_sums(
    x: u8,
    j: usize,
    n2: usize,
    rows: &[u64],
    b2: usize,
    columns: &[u64],
    b1: usize,
    q: usize,
) -> Sums
    requires words { Words n2 b1 b2 q rows.now columns.now }
    requires j_lt_n2 { j < n2 }
    ensures { ByteSums n2 b1 b2 q rows.now columns.now x j result }
{
    if x == 0 {
        return Sums { row: 0, column: 0 };
    }
    let mut rest = u64::from(x);
    let mut place = j % b2;
    let mut k = j * b1 + q;
    let mut row = 0u64;
    let mut column = 0u64;
    for _t in 0..(n2 - j).min(8) {
        row ^= rows[place] * (rest % 2);
        column ^= columns[k] * (rest % 2);
        rest /= 2;
        place = after(place, b2);
        k += b1;
    }
    Sums { row, column }
}

// The sums of row i. Its H entries are those of q, its number on the sheet modulo b1.
fn row_sums<'a>(sheet: &[u8], view: View<'a>, columns: &[u64], i: usize, q: usize) -> Sums
    requires unpacked { Unpacked view.plan.now view.header columns.now }
    requires sheet_len { length sheet.now ≡ sheet_bytes view.header.n1 view.header.n2 }
    requires i_lt_n1 { i < view.header.n1 }
    requires q_value { q ≡ i % view.header.b1 }
    ensures { RowSums (code_in view.entry) (cell_of view.entry.header.n2 sheet.now) i result }
{
    let h = view.header;
    let words = row_words(view, i);
    let size = row_bytes(h.n2);
    let from = i * size;
    let mut held = Sums { row: 0, column: 0 };
    for (b, x) in sheet[from..from + size].iter().enumerate() {
        held = held ^ byte_sums(*x, 8 * b, h.n2, &words, h.b2, columns, h.b1, q);
    }
    held
}

// Row number k of the run is fed, after those behind it, whose sums are held: then those from row number k on are held.
fn feed<'a>(sheet: &[u8], view: View<'a>, columns: &[u64], run: Run, k: usize, held: Sums) -> Sums
    requires unpacked { Unpacked view.plan.now view.header columns.now }
    requires sheet_len { length sheet.now ≡ sheet_bytes view.header.n1 view.header.n2 }
    requires k_bound { k < run_rows view.header.n1 run }
    requires fed { Fed (code_in view) (cell_of view.header.n2 sheet.now) run (k + 1) held }
    ensures { Fed (code_in view.entry) (cell_of view.entry.header.n2 sheet.now) run k result }
{
    let h = view.header;
    let i = run.first + k;
    held ^ row_sums(sheet, view, columns, i, i % h.b1)
}

// The two sums of a run of rows (02 e), fed from its last row to its first (02 b). The whole sheet is the run from 0 to n1.
pub fn sums<'a>(sheet: &[u8], view: View<'a>, columns: &[u64], run: Run) -> Sums
    requires unpacked { Unpacked view.plan.now view.header columns.now }
    requires sheet_len { length sheet.now ≡ sheet_bytes view.header.n1 view.header.n2 }
    ensures { RunSums (code_in view.entry) (cell_of view.entry.header.n2 sheet.now) run.first run.past result }
{
    let h = view.header;
    let mut held = Sums { row: 0, column: 0 };
    let fed = run.past.min(h.n1).saturating_sub(run.first);
    for k in (0..fed).rev() {
        held = feed(sheet, view, columns, run, k, held);
    }
    held
}
