// Writing: the checks first, and then every byte of the sheet.
ghost use Rattle.std.specs.Prelude.{◌≡◌, length};
ghost use Rattle.layout.specs.Cells.{row_bytes};
ghost use Rattle.layout.specs.Stored.{size_in, bytes_in};
ghost use Rattle.boxcode.specs.Check.{data_size, written};
ghost use Rattle.plan.specs.View.{code_in};
ghost use Rattle.plan.specs.Table.{Unpacked};
ghost use Rattle.plan.specs.Verdict.{told};
ghost use Rattle.writer.specs.Write.{data_bits, wrote, write_in};

use crate::balancing::balance;
use crate::solving::joint_sum;
use buffers::call::write_checks;
use layout::stored::Layout;
use payload::transfer::put;
use plan::table::WORDS;
use plan::verdict::Refusal;
use plan::view::Accepted;

// The sheet written under an accepted plan: the data in its cells, and then the check cells that bring both sums to 0.
fn write_sheet<'a>(
    lay: Layout,
    accepted: Accepted<'a>,
    columns: &[u64],
    bits: &[u8],
    sheet: &mut [u8],
)
    requires unpacked { Unpacked accepted.view.plan.now accepted.view.header columns.now }
    requires bits_len { length bits.now ≡ row_bytes (data_size (code_in accepted.view)) }
    requires sheet_len { length sheet.old ≡ size_in lay accepted.view.header.n1 accepted.view.header.n2 }
    ensures { let c = code_in accepted.entry.view in
        sheet.new ≡ bytes_in lay accepted.entry.view.header.n1 accepted.entry.view.header.n2 (written c (data_bits (data_size c) bits.now)) }
{
    let view = accepted.view;
    put(lay, view, bits, sheet);
    let sum = joint_sum(lay, sheet, view, columns);
    balance(lay, accepted, sum, sheet);
}

// Writes the data under the plan, or turns back with the sheet as it was.
pub fn write(lay: Layout, plan: &[u8], bits: &[u8], sheet: &mut [u8]) -> Result<(), Refusal>
    ensures { wrote (told result) sheet.new ≡ write_in lay plan.now bits.now sheet.old }
{
    let mut columns = [0u64; WORDS];
    let accepted = write_checks(lay, plan, bits, sheet, &mut columns)?;
    write_sheet(lay, accepted, &columns, bits, sheet);
    Ok(())
}
