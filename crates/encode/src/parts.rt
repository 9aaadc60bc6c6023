// The parts of a plan, each written from a place on.
ghost use Rattle.std.specs.Prelude.{◌≡◌, ◌++◌, ◌+◌, ◌*◌, ◌/◌, ◌%◌, ◌≤◌, ◌<◌, length};
ghost use Rattle.layout.specs.Number.{low_bytes, overwritten};
ghost use Rattle.plan.specs.Header.{header_length};
ghost use Rattle.plan.specs.Table.{word_at};
ghost use Rattle.encode.specs.Encode.{header_bytes, table_bytes, list_bytes};

use layout::number::{put_u16, put_u32};
use plan::header::Header;

// Two numbers of 16 bits, as in a header and in a check list.
fn put_pair(first: usize, second: usize, at: usize, plan: &mut [u8])
    requires { at + 3 < length plan.old }
    ensures { plan.new ≡ overwritten plan.old at (low_bytes 2 first ++ low_bytes 2 second) }
{
    put_u16(plan, at, first);
    put_u16(plan, at + 2, second);
}

// The eleven numbers of the header, at the front.
pub(crate) fn put_header(h: Header, plan: &mut [u8])
    requires { header_length ≤ length plan.old }
    ensures { plan.new ≡ overwritten plan.old 0 (header_bytes h) }
{
    put_pair(h.n1, h.n2, 0, plan);
    put_pair(h.b1, h.b2, 4, plan);
    put_pair(h.rv, h.rh, 8, plan);
    put_pair(h.rows, h.columns, 12, plan);
    put_pair(h.checks, h.total, 16, plan);
    put_u16(plan, 20, h.t);
}

// The first words of a table.
pub(crate) fn put_table(words: &[u64], count: usize, at: usize, plan: &mut [u8])
    requires count_in_bounds { count ≤ length words.now }
    requires count_in_bounds_2 { at + 4 * count ≤ length plan.old }
    ensures { plan.new ≡ overwritten plan.old at (table_bytes count (word_at words.now)) }
{
    for (k, word) in words[..count].iter().enumerate() {
        put_u32(plan, at + 4 * k, *word);
    }
}

// The first cells of a list, each a number in sheet order, as pairs.
pub(crate) fn put_list(cells: &[usize], n2: usize, count: usize, at: usize, plan: &mut [u8])
    requires n2_nonzero { 0 < n2 }
    requires count_in_bounds { count ≤ length cells.now }
    requires count_in_bounds_2 { at + 4 * count ≤ length plan.old }
    ensures { plan.new
        ≡ overwritten plan.old at (list_bytes count (λ k. word_at cells.now k / n2) (λ k. word_at cells.now k % n2)) }
{
    for (k, cell) in cells[..count].iter().enumerate() {
        let row = *cell / n2;
        let column = *cell % n2;
        put_pair(row, column, at + 4 * k, plan);
    }
}
