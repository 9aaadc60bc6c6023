// The read of one sheet.
ghost use Rattle.std.specs.Prelude.{◌≡◌, length};
ghost use Rattle.layout.specs.Cells.{row_bytes};
ghost use Rattle.layout.specs.Stored.{size_in, FormIn};
ghost use Rattle.boxcode.specs.Check.{data_size};
ghost use Rattle.plan.specs.View.{code_in};
ghost use Rattle.plan.specs.Table.{Unpacked};
ghost use Rattle.reader.specs.Read.{outcome, told_read, mend_outcome, read_in};

use crate::burst::{apply_burst, find_burst};
use crate::search::Search;
use buffers::call::length_checks;
use buffers::lent::sheet_unused;
use layout::stored::Layout;
use mend::report::Report;
use plan::table::WORDS;
use plan::verdict::Refusal;
use plan::view::Accepted;

// Check 14, and the mend: only a burst that was found goes on to what writes.
pub fn mend_sheet<'a>(
    by: Search,
    lay: Layout,
    accepted: Accepted<'a>,
    columns: &[u64],
    sheet: &mut [u8],
    bits: &mut [u8],
) -> Result<Report, Refusal>
    requires unpacked { Unpacked accepted.view.plan.now accepted.view.header columns.now }
    requires form_in { FormIn lay accepted.view.header.n1 accepted.view.header.n2 sheet.old }
    requires bits_len { length bits.old ≡ row_bytes (data_size (code_in accepted.view)) }
    ensures { outcome (told_read result) sheet.new bits.new
        ≡ mend_outcome lay (code_in accepted.entry.view) sheet.old bits.old }
{
    let Some(burst) = find_burst(by, lay, accepted, columns, sheet) else {
        return Err(Refusal::NoBurst);
    };
    Ok(apply_burst(lay, accepted, sheet, bits, burst))
}

// Checks 13 and 14, and the mend, where the plan is accepted and both buffers have the right lengths. A refusal changes no byte of either.
pub fn read_lent<'a>(
    by: Search,
    lay: Layout,
    accepted: Accepted<'a>,
    columns: &[u64],
    sheet: &mut [u8],
    bits: &mut [u8],
) -> Result<Report, Refusal>
    requires unpacked { Unpacked accepted.view.plan.now accepted.view.header columns.now }
    requires sheet_len { length sheet.old ≡ size_in lay accepted.view.header.n1 accepted.view.header.n2 }
    requires bits_len { length bits.old ≡ row_bytes (data_size (code_in accepted.view)) }
    ensures { outcome (told_read result) sheet.new bits.new ≡ read_in lay accepted.entry.view.plan.now sheet.old bits.old }
{
    sheet_unused(lay, accepted.view.header, sheet)?;
    mend_sheet(by, lay, accepted, columns, sheet, bits)
}

// Checks 1 to 14, and the mend. A refusal changes no byte of either buffer.
pub fn read(
    by: Search,
    lay: Layout,
    plan: &[u8],
    sheet: &mut [u8],
    bits: &mut [u8],
) -> Result<Report, Refusal>
    ensures { outcome (told_read result) sheet.new bits.new ≡ read_in lay plan.now sheet.old bits.old }
{
    let mut columns = [0u64; WORDS];
    let accepted = length_checks(lay, plan, sheet, bits, &mut columns)?;
    read_lent(by, lay, accepted, &columns, sheet, bits)
}
