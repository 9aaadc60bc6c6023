// The checks before a burst is put back: those of the plan and of the sheet's form, and then of the answer.
ghost use Rattle.std.specs.Prelude.{◌≡◌, IfOk, ◌||◌, ◌+◌, ltb, length};
ghost use Rattle.answer.specs.Answer.{InRange, fields_of};
ghost use Rattle.plan.specs.View.{code_in};
ghost use Rattle.plan.specs.Verdict.{told};
ghost use Rattle.putback.specs.PutBack.{no_burst, back_checks};

use answer::{Answer, unpack};
use buffers::call::form_checks;
use mend::report::report_of;
use packing::pack_report;
use plan::header::Header;
use plan::table::WORDS;
use plan::verdict;
use plan::verdict::{Refusal, refuse_if};
use plan::view::{Accepted, View};
use sparse::few::few;

// The rectangle exceeds the plan's burst, or leaves the sheet.
fn outside(h: Header, told: Answer) -> bool
    requires { InRange (fields_of told) }
    ensures { result ≡ ((ltb h.b1 told.height || ltb h.b2 told.width)
        || (ltb h.n1 (told.top + told.height) || ltb h.n2 (told.left + told.width))) }
{
    let large = (h.b1 < told.height) | (h.b2 < told.width);
    let off = (h.n1 < told.top + told.height) | (h.n2 < told.left + told.width);
    large | off
}

// The 64 bits are the answer of no burst under the plan. A rectangle without rows or columns has no cells, and their answer is 0; for any other, the
// cells that are told have to be few where t is not 0, and their answer is worked out and has to be the one that was handed in, bit for bit.
fn no_burst<'a>(accepted: Accepted<'a>, answer: u64) -> bool
    ensures { result ≡ no_burst (code_in accepted.entry.view) answer }
{
    let h = accepted.view.header;
    let told = unpack(answer);
    if outside(h, told) {
        return true;
    }
    if (told.height == 0) | (told.width == 0) {
        return answer != 0;
    }
    let report = report_of(
        told.top,
        told.left,
        told.height,
        told.width,
        told.pattern as u64,
    );
    if !few(h.t, report.cells) {
        return true;
    }
    pack_report(verdict::told(&Ok(())), report) != answer
}

// The checks before putting back. The lent words are room for the column table.
pub fn back_checks<'a>(
    plan: &'a [u8],
    sheet: &[u8],
    answer: u64,
    words: &mut [u64; WORDS],
) -> Result<Accepted<'a>, Refusal>
    ensures told { told result ≡ back_checks plan.now sheet.now answer }
    ensures view { IfOk result (λ a. a.view.plan.now ≡ plan.now) }
{
    let accepted = form_checks(plan, sheet, words)?;
    refuse_if(no_burst(accepted, answer), Refusal::NotAnAnswer)?;
    Ok(accepted)
}
