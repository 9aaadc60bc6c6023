// A sheet of n1 rows and n2 columns in one of two layouts. By columns it is, byte for byte, a sheet by rows with rows and columns exchanged.
ghost use Rattle.std.specs.Prelude.{◌≡◌, ◌≤◌, ◌<◌, length};
ghost use Rattle.layout.specs.Stored.{Sizes, other_than, size_in, cell_in, turned_in, first_unused_in};

use crate::cells::{cell, first_unused, row_bytes, turn_if};

// Row after row (01), or column after column (02 i).
#[derive(Clone, Copy)]
pub enum Layout {
    ByRow,
    ByColumn,
}

// The layout that it is not.
pub fn other(lay: Layout) -> Layout
    ensures { result ≡ other_than lay }
{
    match lay {
        Layout::ByRow => Layout::ByColumn,
        Layout::ByColumn => Layout::ByRow,
    }
}

// The bytes of a sheet.
pub fn bytes_in(lay: Layout, n1: usize, n2: usize) -> usize
    requires { Sizes n1 n2 }
    ensures { (result ≡ size_in lay n1 n2) × (result ≤ 45056) }
{
    match lay {
        Layout::ByRow => n1 * row_bytes(n2),
        Layout::ByColumn => n2 * row_bytes(n1),
    }
}

// Cell (i, j).
pub fn cell_in(s: &[u8], lay: Layout, n1: usize, n2: usize, i: usize, j: usize) -> bool
    requires sizes { Sizes n1 n2 }
    requires s_len { length s.now ≡ size_in lay n1 n2 }
    requires i_lt_n1 { (i < n1) × (j < n2) }
    ensures { result ≡ cell_in lay n1 n2 s.now i j }
{
    match lay {
        Layout::ByRow => cell(s, n2, i, j),
        Layout::ByColumn => cell(s, n1, j, i),
    }
}

// Turns cell (i, j) over if it is asked for.
pub fn turn_in(s: &mut [u8], lay: Layout, n1: usize, n2: usize, i: usize, j: usize, asked: bool)
    requires sizes { Sizes n1 n2 }
    requires s_len { length s.old ≡ size_in lay n1 n2 }
    requires i_lt_n1 { (i < n1) × (j < n2) }
    ensures { s.new ≡ turned_in asked lay n1 n2 s.old i j }
{
    match lay {
        Layout::ByRow => turn_if(s, n2, i, j, asked),
        Layout::ByColumn => turn_if(s, n1, j, i, asked),
    }
}

// The first byte with an unused bit that is 1, or the number of bytes.
pub fn first_unused_in(s: &[u8], lay: Layout, n1: usize, n2: usize) -> usize
    requires n1_bound { (n1 ≤ 1000000) × (n2 ≤ 1000000) }
    requires s_len { length s.now ≡ size_in lay n1 n2 }
    ensures { result ≡ first_unused_in lay n1 n2 s.now }
{
    match lay {
        Layout::ByRow => first_unused(s, n1, n2),
        Layout::ByColumn => first_unused(s, n2, n1),
    }
}
