// The trial of one rectangle of b1 rows and b2 columns: the entries of its cells, and then each pattern of them.
ghost use Rattle.std.specs.Prelude.{◌≡◌, ◌+◌, ◌≤◌, ◌<◌};
ghost use Rattle.finite.specs.Search.{least};
ghost use Rattle.boxcode.specs.Burst.{patterns};
ghost use Rattle.plan.specs.View.{code_in};
ghost use Rattle.trial.specs.Trial.{weight_by, Gathered, tried_at};

use crate::pattern::first_pattern;
use plan::table::Table;
use plan::view::View;

// The entry of a cell in one of the two tables. Entries have 32 bits.
fn weight<'a>(table: Table, view: View<'a>, i: usize, j: usize) -> u32
    requires i_lt_n1 { i < view.header.n1 }
    requires j_lt_n2 { j < view.header.n2 }
    ensures { result ≡ weight_by table (code_in view.entry) i j }
{
    match table {
        Table::Rows => view.row_weight(i, j) as u32,
        Table::Columns => view.column_weight(i, j) as u32,
    }
}

// The entries of the cells of the rectangle at a top row and a left column, row by row; zeros after them.
fn gather<'a>(table: Table, view: View<'a>, top: usize, left: usize) -> [u32; 16]
    requires b1_bound { top + view.header.b1 ≤ view.header.n1 }
    requires b2_bound { left + view.header.b2 ≤ view.header.n2 }
    ensures { Gathered table (code_in view.entry) top left result }
{
    let h = view.header;
    let mut entries = [0u32; 16];
    let b2 = h.b2;
    let size = h.b1 * b2;
    for (k, entry) in entries[..size].iter_mut().enumerate() {
        *entry = weight(table, view, top + k / b2, left + k % b2);
    }
    entries
}

// The first pattern in that rectangle that has the V sum v and the H sum s, or the number of patterns where none has.
pub fn try_rectangle<'a>(view: View<'a>, top: usize, left: usize, v: u64, s: u64) -> u64
    requires b1_bound { top + view.header.b1 ≤ view.header.n1 }
    requires b2_bound { left + view.header.b2 ≤ view.header.n2 }
    ensures { let c = code_in view.entry in result ≡ least (patterns c) (tried_at c v s top left) }
{
    let h = view.header;
    let rows = gather(Table::Rows, view, top, left);
    let columns = gather(Table::Columns, view, top, left);
    first_pattern(&rows, &columns, h.b1 * h.b2, h.t, v, s)
}
