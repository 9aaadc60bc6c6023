// The data bit that a cell holds.
ghost use Rattle.std.specs.Prelude.{◌≡◌, ◌<◌, length};
ghost use Rattle.layout.specs.Cells.{row_bytes};
ghost use Rattle.boxcode.specs.Code.{Formed};
ghost use Rattle.boxcode.specs.Check.{data_size};
ghost use Rattle.plan.specs.View.{code_in};
ghost use Rattle.payload.specs.Held.{bit_turned, bit_turned_if};

use layout::cells::turn;
use plan::view::View;
use position::cursor::{bit, checks_before, next_check, row_ends};

// Turns the data bit of cell (i, j) over, and nothing where it is a check cell: so data keeps up with a cell that is turned over on its sheet.
fn turn_bit<'a>(view: View<'a>, bits: &mut [u8], i: usize, j: usize)
    requires formed { Formed (code_in view) }
    requires i_lt_n1 { (i < view.header.n1) × (j < view.header.n2) }
    requires bits_len { length bits.old ≡ row_bytes (data_size (code_in view)) }
    ensures { bits.new ≡ bit_turned (code_in view.entry) i j bits.old }
{
    let h = view.header;
    let first = i * h.n2;
    let t = first + j;
    let check = checks_before(view, t, 0);
    if next_check(view, check) == t {
        return;
    }
    let ends = row_ends(view, i, checks_before(view, first, 0));
    let d = bit(i, t - check, ends);
    turn(bits, h.n1 * h.n2 - (h.rv + h.rh), 0, d);
}

// The same if it is asked for.
pub fn turn_bit_if<'a>(view: View<'a>, bits: &mut [u8], i: usize, j: usize, asked: bool)
    requires formed { Formed (code_in view) }
    requires i_lt_n1 { (i < view.header.n1) × (j < view.header.n2) }
    requires bits_len { length bits.old ≡ row_bytes (data_size (code_in view)) }
    ensures { bits.new ≡ bit_turned_if asked (code_in view.entry) i j bits.old }
{
    if !asked {
        return;
    }
    turn_bit(view, bits, i, j);
}
