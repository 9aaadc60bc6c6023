// The check cells: taken in sheet order, each if its joint entry is no exclusive-or of those taken.
ghost use Rattle.std.specs.Prelude.{◌≡◌, cond, ◌+◌, ◌*◌, ◌%◌, ◌≤◌, ◌<◌, eqb};
ghost use Rattle.boxcode.specs.Code.{joint_weight};
ghost use Rattle.plan.specs.Header.{Small};
ghost use Rattle.plan.specs.Table.{word_at};
ghost use Rattle.maker.specs.Taken.{Tables, bare_code, HeldTo};

use accept::checks::joined;
use gf2::{empty_basis, sweep};
use layout::cycle::after;
use plan::header::Header;

// The cells taken so far: their numbers in sheet order, and the words of a basis of their joint entries. The first count of each array
// are in use.
#[derive(Clone, Copy)]
pub struct Taken {
    pub words: [u64; 64],
    pub cells: [usize; 64],
    pub count: usize,
}

// The joint entry of cell (i, j): its V entry and its H entry, joined. The remainders of i and j are handed in, so that no cell asks for
// a division.
fn joint(
    h: Header,
    rows: &[u64],
    columns: &[u64],
    i: usize,
    j: usize,
    down: usize,
    along: usize,
) -> u64
    requires small { Small h }
    requires tables { Tables h rows.now columns.now }
    requires i_lt_n1 { (i < h.n1) × (j < h.n2) × (down ≡ i % h.b1) × (along ≡ j % h.b2) }
    ensures { result ≡ joint_weight (bare_code h (word_at rows.now) (word_at columns.now)) i j }
{
    let v = rows[i * h.b2 + along];
    let w = columns[j * h.b1 + down];
    joined(h.rv, v, w)
}

// How many cells more are taken: 1 where something of the joint entry is left, since it is then no exclusive-or of those taken.
fn more_taken(left: u64) -> usize
    ensures { (result ≡ cond (eqb left 0) 0 1) × (result ≤ 1) }
{
    usize::from(left != 0)
}

// One row of cells more, or as many of them as are needed.
fn take_row(h: Header, rows: &[u64], columns: &[u64], i: usize, taken: Taken) -> Taken
    requires small { Small h }
    requires tables { Tables h rows.now columns.now }
    requires i_lt_n1 { i < h.n1 }
    requires held_to { HeldTo h rows.now columns.now (i * h.n2) taken }
    ensures { HeldTo h rows.now columns.now ((i + 1) * h.n2) result }
{
    let wanted = h.rv + h.rh;
    let first = i * h.n2;
    let down = i % h.b1;
    let mut words = taken.words;
    let mut cells = taken.cells;
    let mut count = taken.count;
    let mut along = 0;
    for j in 0..h.n2 {
        if wanted <= count {
            break;
        }
        let entry = joint(h, rows, columns, i, j, down, along);
        let left = sweep(&words[..count], entry);
        words[count] = left;
        cells[count] = first + j;
        count += more_taken(left);
        along = after(along, h.b2);
    }
    Taken {
        words,
        cells,
        count,
    }
}

// Of all cells of the sheet, the first rv + rh that are taken, or all that are.
pub fn take_cells(h: Header, rows: &[u64], columns: &[u64]) -> Taken
    requires small { Small h }
    requires tables { Tables h rows.now columns.now }
    ensures { HeldTo h rows.now columns.now (h.n1 * h.n2) result }
{
    let wanted = h.rv + h.rh;
    let mut taken = Taken {
        words: empty_basis(),
        cells: [0usize; 64],
        count: 0,
    };
    for i in 0..h.n1 {
        if wanted <= taken.count {
            break;
        }
        taken = take_row(h, rows, columns, i, taken);
    }
    taken
}
