// A sheet with its rows and columns exchanged, and so a sheet turned into the other layout.
ghost use Rattle.std.specs.Prelude.{◌≡◌, ◌+◌, ◌*◌, ◌≤◌, ◌<◌, length};
ghost use Rattle.finite.specs.Search.{number_of};
ghost use Rattle.layout.specs.Cells.{row_bytes, sheet_bytes, cell_of, bytes_of};
ghost use Rattle.layout.specs.Stored.{Sizes, other_than, size_in, transposed};
ghost use Rattle.transpose.specs.Exchanged.{exchanged, Begun};

use layout::cells::{byte_of, row_bytes};
use layout::stored::Layout;

// The cells of column j in count rows from row i on, in one byte: row i in the lowest bit. From row to row the place moves on by
// the bytes of a row and the bit stays, so that no cell is looked up by itself.
fn gathered(source: &[u8], n2: usize, i: usize, j: usize, count: usize) -> u8
    requires n2_bound { (n2 ≤ 1000000) × (i + count ≤ 1000000) × (j < n2) × (count ≤ 8) }
    requires n2_in_bounds { sheet_bytes (i + count) n2 ≤ length source.now }
    ensures { result ≡ number_of count (λ t. cell_of n2 source.now (i + t) j) }
{
    let size = row_bytes(n2);
    let mut k = byte_of(n2, i, j);
    let mut number = 0u8;
    for t in 0..count {
        number += ((source[k] >> (j % 8)) % 2) << t;
        k += size;
    }
    number
}

// The bytes of row j of the target, which is column j of the source. The rows before it are there.
fn transpose_row(source: &[u8], n1: usize, n2: usize, j: usize, target: &mut [u8])
    requires n1_bound { (n1 ≤ 1000000) × (n2 ≤ 1000000) × (j < n2) }
    requires source_len { length source.now ≡ sheet_bytes n1 n2 }
    requires begun { Begun n1 n2 source.now (j * row_bytes n1) target.old }
    ensures { Begun n1 n2 source.now ((j + 1) * row_bytes n1) target.new }
{
    let size = row_bytes(n1);
    let first = j * size;
    for b in 0..size {
        let i = 8 * b;
        target[first + b] = gathered(source, n2, i, j, (n1 - i).min(8));
    }
}

// Every byte of the target, whatever it held: n2 rows of n1 cells, of which cell (j, i) is cell (i, j) of the source.
pub fn transpose(source: &[u8], n1: usize, n2: usize, target: &mut [u8])
    requires n1_bound { (n1 ≤ 1000000) × (n2 ≤ 1000000) }
    requires source_len { length source.now ≡ sheet_bytes n1 n2 }
    requires target_len { length target.old ≡ sheet_bytes n2 n1 }
    ensures { target.new ≡ bytes_of n2 n1 (exchanged (cell_of n2 source.now)) }
{
    for j in 0..n2 {
        transpose_row(source, n1, n2, j, target);
    }
}

// A sheet in the other layout, of the same cells: every byte of the target, whatever it held.
pub fn transpose_in(source: &[u8], lay: Layout, n1: usize, n2: usize, target: &mut [u8])
    requires sizes { Sizes n1 n2 }
    requires source_len { length source.now ≡ size_in lay n1 n2 }
    requires target_len { length target.old ≡ size_in (other_than lay) n1 n2 }
    ensures { target.new ≡ transposed lay n1 n2 source.now }
{
    match lay {
        Layout::ByRow => transpose(source, n1, n2, target),
        Layout::ByColumn => transpose(source, n2, n1, target),
    }
}
