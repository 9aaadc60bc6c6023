// The read of two scans of one film: each may carry a burst of its own, and neither is written to.
ghost use Rattle.std.specs.Prelude.{◌≡◌, length};
ghost use Rattle.layout.specs.Cells.{row_bytes, cell_of, RightForm};
ghost use Rattle.layout.specs.declared.stored.Layout.TheVariants.{ByRow};
ghost use Rattle.boxcode.specs.Syndrome.{row_syndrome, column_syndrome};
ghost use Rattle.boxcode.specs.Check.{data_size};
ghost use Rattle.plan.specs.View.{code_in};
ghost use Rattle.plan.specs.Table.{Unpacked};
ghost use Rattle.plan.specs.Verdict.{told};
ghost use Rattle.mend.specs.Found.{IsBurst};
ghost use Rattle.reader.specs.Read.{taken, mend_outcome};
ghost use Rattle.scans.specs.ReadTwo.{two_read, alone, decide, read_two};

use crate::agree::mended_agree;
use buffers::call::read_two_checks;
use layout::stored::Layout;
use mend::found::Burst;
use plan::table::WORDS;
use plan::verdict::Refusal;
use plan::view::Accepted;
use reader::burst::{find_burst, take_mended};
use reader::search::Search;

// Check 19, and the data, where both scans can be mended. Data agree exactly if the mended sheets do, so these are compared, and the data
// buffer is written only where they agree.
fn read_both<'a>(
    accepted: Accepted<'a>,
    first: &[u8],
    burst: Burst,
    second: &[u8],
    burst2: Burst,
    bits: &mut [u8],
) -> Result<(), Refusal>
    requires right_form { RightForm accepted.view.header.n1 accepted.view.header.n2 first.now }
    requires fact { let c = code_in accepted.view in let s = cell_of accepted.view.header.n2 first.now in
        IsBurst c (row_syndrome c s) (column_syndrome c s) burst.top burst.left burst.pattern }
    requires right_form_2 { RightForm accepted.view.header.n1 accepted.view.header.n2 second.now }
    requires fact_2 { let c = code_in accepted.view in let s = cell_of accepted.view.header.n2 second.now in
        IsBurst c (row_syndrome c s) (column_syndrome c s) burst2.top burst2.left burst2.pattern }
    requires bits_len { length bits.old ≡ row_bytes (data_size (code_in accepted.view)) }
    ensures { let c = code_in accepted.entry.view in
        two_read (told result) bits.new ≡ decide (taken ByRow c first.now) (taken ByRow c second.now) bits.old }
{
    let h = accepted.view.header;
    if !mended_agree(h, first, burst, second, burst2) {
        return Err(Refusal::ScansDiffer);
    }
    take_mended(accepted, first, bits, burst);
    Ok(())
}

// Check 14, and the data, of one scan: what is left where the other can't be mended.
fn read_alone<'a>(
    accepted: Accepted<'a>,
    columns: &[u64],
    scan: &[u8],
    bits: &mut [u8],
) -> Result<(), Refusal>
    requires unpacked { Unpacked accepted.view.plan.now accepted.view.header columns.now }
    requires right_form { RightForm accepted.view.header.n1 accepted.view.header.n2 scan.now }
    requires bits_len { length bits.old ≡ row_bytes (data_size (code_in accepted.view)) }
    ensures { two_read (told result) bits.new ≡ alone (mend_outcome ByRow (code_in accepted.entry.view) scan.now bits.old) }
{
    let Some(burst) = find_burst(Search::ByWindow, Layout::ByRow, accepted, columns, scan) else {
        return Err(Refusal::NoBurst);
    };
    take_mended(accepted, scan, bits, burst);
    Ok(())
}

// Checks 14 and 19, and the data.
fn read_scans<'a>(
    accepted: Accepted<'a>,
    columns: &[u64],
    first: &[u8],
    second: &[u8],
    bits: &mut [u8],
) -> Result<(), Refusal>
    requires unpacked { Unpacked accepted.view.plan.now accepted.view.header columns.now }
    requires right_form { RightForm accepted.view.header.n1 accepted.view.header.n2 first.now }
    requires right_form_2 { RightForm accepted.view.header.n1 accepted.view.header.n2 second.now }
    requires bits_len { length bits.old ≡ row_bytes (data_size (code_in accepted.view)) }
    ensures { let c = code_in accepted.entry.view in let old = bits.old in two_read (told result) bits.new
        ≡ decide (mend_outcome ByRow c first.now old) (mend_outcome ByRow c second.now old) old }
{
    let Some(burst) = find_burst(Search::ByWindow, Layout::ByRow, accepted, columns, first) else {
        return read_alone(accepted, columns, second, bits);
    };
    let Some(burst2) = find_burst(Search::ByWindow, Layout::ByRow, accepted, columns, second) else {
        take_mended(accepted, first, bits, burst);
        return Ok(());
    };
    read_both(accepted, first, burst, second, burst2, bits)
}

// All checks, and the data. A refusal changes no byte of the data buffer.
pub fn read_two(plan: &[u8], first: &[u8], second: &[u8], bits: &mut [u8]) -> Result<(), Refusal>
    ensures { two_read (told result) bits.new
        ≡ read_two plan.now first.now second.now bits.old }
{
    let mut columns = [0u64; WORDS];
    let accepted = read_two_checks(plan, first, second, bits, &mut columns)?;
    read_scans(accepted, &columns, first, second, bits)
}
