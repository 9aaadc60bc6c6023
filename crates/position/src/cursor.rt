// A cursor over the sheet from run to run: a run is the data cells of a row up to a check cell or the end of the row.
ghost use Rattle.std.specs.Prelude.{◌≡◌, ◌+◌, ◌*◌, ◌≤◌, ◌<◌};
ghost use Rattle.boxcode.specs.Code.{Formed};
ghost use Rattle.plan.specs.View.{code_in};
ghost use Rattle.position.specs.Walk.{checks_before, next_check, row_ends, run_length, data_bit, At, Begun, Stepped};

use plan::view::View;

// The cell (row, column), its number in sheet order, the number of data cells and of check cells before it in sheet order,
// the number of the next check cell, and the data cells before its row and before the next row, added. Past the last cell
// of a row, column is the number of columns.
#[derive(Clone, Copy)]
pub struct Cursor {
    pub cell: usize,
    pub row: usize,
    pub column: usize,
    pub place: usize,
    pub check: usize,
    pub next: usize,
    pub ends: usize,
}

// The number of check cell q, or that of all cells where q is past the list.
pub fn next_check<'a>(view: View<'a>, q: usize) -> usize
    requires q_bound { q ≤ view.header.rv + view.header.rh }
    ensures { result ≡ next_check (code_in view.entry) q }
{
    let h = view.header;
    if q == h.rv + h.rh {
        return h.n1 * h.n2;
    }
    let cell = view.check_cell(q);
    cell.row * h.n2 + cell.column
}

// The check cells before number t in sheet order, where so many of them are known.
pub fn checks_before<'a>(view: View<'a>, t: usize, known: usize) -> usize
    requires formed { Formed (code_in view) }
    requires known_bound { known ≤ checks_before (code_in view) t }
    ensures { result ≡ checks_before (code_in view.entry) t }
{
    let h = view.header;
    let count = h.rv + h.rh;
    for q in known..count {
        if t <= next_check(view, q) {
            return q;
        }
    }
    count
}

// The data cells before a row and before the next row, added.
pub fn row_ends<'a>(view: View<'a>, row: usize, check: usize) -> usize
    requires formed { Formed (code_in view) }
    requires row_le_n1 { row ≤ view.header.n1 }
    requires check_value { check ≡ checks_before (code_in view) (row * view.header.n2) }
    ensures { result ≡ row_ends (code_in view.entry) row }
{
    let h = view.header;
    let next = (row + 1) * h.n2;
    let past = checks_before(view, next, check);
    (row * h.n2 - check) + (next - past)
}

// At the first cell.
pub fn start<'a>(view: View<'a>) -> Cursor
    requires formed { Formed (code_in view) }
    ensures { Begun (code_in view.entry) result }
{
    Cursor {
        cell: 0,
        row: 0,
        column: 0,
        place: 0,
        check: 0,
        next: next_check(view, 0),
        ends: row_ends(view, 0, 0),
    }
}

// How many data cells stand from a cursor to the next check cell or the end of the row.
pub fn run(at: Cursor, n2: usize) -> usize
    requires { (at.cell ≤ at.next) × (at.column ≤ n2) }
    ensures { result ≡ run_length n2 at }
{
    (at.next - at.cell).min(n2 - at.column)
}

// Past a run: to the next row at the end of a row, else past the check cell that ends the run.
pub fn step<'a>(view: View<'a>, at: Cursor, len: usize) -> Cursor
    requires formed { Formed (code_in view) }
    requires at { At (code_in view) at }
    requires row_lt_n1 { at.row < view.header.n1 }
    requires len_value { len ≡ run_length view.header.n2 at }
    ensures { Stepped (code_in view.entry) at result }
{
    let h = view.header;
    if at.column + len == h.n2 {
        return Cursor {
            cell: at.cell + len,
            row: at.row + 1,
            column: 0,
            place: at.place + len,
            check: at.check,
            next: at.next,
            ends: row_ends(view, at.row + 1, at.check),
        };
    }
    let check = at.check + 1;
    Cursor {
        cell: at.next + 1,
        row: at.row,
        column: at.column + len + 1,
        place: at.place + len,
        check,
        next: next_check(view, check),
        ends: at.ends,
    }
}

// The number of the data bit of a data cell, from its row, the data cells before it in sheet order, and the row's ends: in
// an odd row the bits run from the highest column down.
pub fn bit(row: usize, place: usize, ends: usize) -> usize
    requires { place < ends }
    ensures { result ≡ data_bit row place ends }
{
    if row % 2 == 1 {
        return ends - (place + 1);
    }
    place
}
