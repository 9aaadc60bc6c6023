// The checks of a call, each a list of the same checks: the first that fails is the refusal, and where all pass there is the view of
// the plan. The lent words are room for the column table: where the checks pass, it is left there.
ghost use Rattle.std.specs.Prelude.{◌≡◌, IfOk, length};
ghost use Rattle.accept.specs.Checked.{Checked};
ghost use Rattle.plan.specs.Header.{Small};
ghost use Rattle.plan.specs.Verdict.{◌or_else◌, told};
ghost use Rattle.layout.specs.Cells.{sheet_bytes};
ghost use Rattle.layout.specs.declared.stored.Layout.TheVariants.{ByRow};
ghost use Rattle.buffers.specs.Buffers.{unused_verdict, sheet_checks, length_checks, write_checks, form_checks, sums_checks};
ghost use Rattle.buffers.specs.Buffers.{transpose_checks, scan_lengths, scans_checks, read_two_checks};

use crate::lent::{data_length, data_unused, sheet_length, sheet_unused, sums_length};
use accept::test::test;
use layout::stored::{Layout, other};
use plan::header::Header;
use plan::table::WORDS;
use plan::verdict::Refusal;
use plan::view::Accepted;

// The plan, and the length of the sheet.
fn sheet_checks<'a>(
    lay: Layout,
    plan: &'a [u8],
    sheet: &[u8],
    words: &mut [u64; WORDS],
) -> Result<Accepted<'a>, Refusal>
    ensures checked { Checked plan.now (sheet_checks lay plan.now sheet.now) (told result) words.new }
    ensures view { IfOk result (λ a. a.view.plan.now ≡ plan.now) }
{
    let accepted = test(plan, words)?;
    sheet_length(lay, accepted.view.header, sheet)?;
    Ok(accepted)
}

// The plan, and the lengths of the sheet and of the data: all the checks before reading but those of the sheet itself.
pub fn length_checks<'a>(
    lay: Layout,
    plan: &'a [u8],
    sheet: &[u8],
    bits: &[u8],
    words: &mut [u64; WORDS],
) -> Result<Accepted<'a>, Refusal>
    ensures checked { Checked plan.now (length_checks lay plan.now sheet.now bits.now) (told result) words.new }
    ensures view { IfOk result (λ a. a.view.plan.now ≡ plan.now) }
{
    let accepted = sheet_checks(lay, plan, sheet, words)?;
    data_length(accepted.view.header, bits)?;
    Ok(accepted)
}

// The checks before writing.
pub fn write_checks<'a>(
    lay: Layout,
    plan: &'a [u8],
    bits: &[u8],
    sheet: &[u8],
    words: &mut [u64; WORDS],
) -> Result<Accepted<'a>, Refusal>
    ensures checked { Checked plan.now (write_checks lay plan.now bits.now sheet.now) (told result) words.new }
    ensures view { IfOk result (λ a. a.view.plan.now ≡ plan.now) }
{
    let accepted = length_checks(lay, plan, sheet, bits, words)?;
    data_unused(accepted.view.header, bits)?;
    Ok(accepted)
}

// The checks before turning a sheet into the other layout.
pub fn transpose_checks<'a>(
    lay: Layout,
    plan: &'a [u8],
    source: &[u8],
    target: &[u8],
    words: &mut [u64; WORDS],
) -> Result<Accepted<'a>, Refusal>
    ensures checked { Checked plan.now (transpose_checks lay plan.now source.now target.now) (told result) words.new }
    ensures view { IfOk result (λ a. a.view.plan.now ≡ plan.now) }
{
    let accepted = sheet_checks(lay, plan, source, words)?;
    sheet_length(other(lay), accepted.view.header, target)?;
    sheet_unused(lay, accepted.view.header, source)?;
    Ok(accepted)
}

// The plan, and that the sheet is of the right form.
pub fn form_checks<'a>(
    plan: &'a [u8],
    sheet: &[u8],
    words: &mut [u64; WORDS],
) -> Result<Accepted<'a>, Refusal>
    ensures checked { Checked plan.now (form_checks plan.now sheet.now) (told result) words.new }
    ensures view { IfOk result (λ a. a.view.plan.now ≡ plan.now) }
{
    let accepted = sheet_checks(Layout::ByRow, plan, sheet, words)?;
    sheet_unused(Layout::ByRow, accepted.view.header, sheet)?;
    Ok(accepted)
}

// The checks before the sums of a run.
pub fn sums_checks<'a>(
    plan: &'a [u8],
    sheet: &[u8],
    sums: &[u8],
    words: &mut [u64; WORDS],
) -> Result<Accepted<'a>, Refusal>
    ensures checked { Checked plan.now (sums_checks plan.now sheet.now sums.now) (told result) words.new }
    ensures view { IfOk result (λ a. a.view.plan.now ≡ plan.now) }
{
    let accepted = form_checks(plan, sheet, words)?;
    sums_length(sums)?;
    Ok(accepted)
}

// The plan, and the lengths of two scans.
fn scan_lengths<'a>(
    plan: &'a [u8],
    first: &[u8],
    second: &[u8],
    words: &mut [u64; WORDS],
) -> Result<Accepted<'a>, Refusal>
    ensures checked { Checked plan.now (scan_lengths plan.now first.now second.now) (told result) words.new }
    ensures view { IfOk result (λ a. a.view.plan.now ≡ plan.now) }
{
    let accepted = sheet_checks(Layout::ByRow, plan, first, words)?;
    sheet_length(Layout::ByRow, accepted.view.header, second)?;
    Ok(accepted)
}

// Check 13, of two scans: which of them it was is not told.
fn scans_unused(h: Header, first: &[u8], second: &[u8]) -> Result<(), Refusal>
    requires small { Small h }
    requires first_len { length first.now ≡ sheet_bytes h.n1 h.n2 }
    requires second_len { length second.now ≡ sheet_bytes h.n1 h.n2 }
    ensures { told result ≡ unused_verdict ByRow h.n1 h.n2 first.now or_else unused_verdict ByRow h.n1 h.n2 second.now }
{
    sheet_unused(Layout::ByRow, h, first)?;
    sheet_unused(Layout::ByRow, h, second)
}

// The plan, and that two scans are of the right form.
pub fn scans_checks<'a>(
    plan: &'a [u8],
    first: &[u8],
    second: &[u8],
    words: &mut [u64; WORDS],
) -> Result<Accepted<'a>, Refusal>
    ensures checked { Checked plan.now (scans_checks plan.now first.now second.now) (told result) words.new }
    ensures view { IfOk result (λ a. a.view.plan.now ≡ plan.now) }
{
    let accepted = scan_lengths(plan, first, second, words)?;
    scans_unused(accepted.view.header, first, second)?;
    Ok(accepted)
}

// The checks before reading two scans.
pub fn read_two_checks<'a>(
    plan: &'a [u8],
    first: &[u8],
    second: &[u8],
    bits: &[u8],
    words: &mut [u64; WORDS],
) -> Result<Accepted<'a>, Refusal>
    ensures checked { Checked plan.now (read_two_checks plan.now first.now second.now bits.now) (told result) words.new }
    ensures view { IfOk result (λ a. a.view.plan.now ≡ plan.now) }
{
    let accepted = scan_lengths(plan, first, second, words)?;
    let h = accepted.view.header;
    data_length(h, bits)?;
    scans_unused(h, first, second)?;
    Ok(accepted)
}
