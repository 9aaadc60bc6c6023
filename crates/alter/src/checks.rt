// The checks of an alteration, after those of the plan and of the sheet's form.
ghost use Rattle.std.specs.Prelude.{◌≡◌, IfOk, ◌+◌, ◌-◌, ◌*◌, ◌≤◌, length};
ghost use Rattle.layout.specs.Cells.{sheet_bytes};
ghost use Rattle.boxcode.specs.Code.{Formed};
ghost use Rattle.plan.specs.Header.{Small};
ghost use Rattle.plan.specs.Verdict.{told};
ghost use Rattle.plan.specs.View.{code_in};
ghost use Rattle.plan.specs.Table.{Unpacked};
ghost use Rattle.alter.specs.Alter.{position_verdict, belong_verdict, alter_checks};

use buffers::call::form_checks;
use buffers::lent::data_size;
use layout::stored::Layout;
use plan::header::Header;
use plan::table::WORDS;
use plan::verdict::{Refusal, refuse_if};
use plan::view::{Accepted, View};
use writer::solving::joint_sum;

// Check 17: a position is that of a data bit.
fn position_verdict(h: Header, position: usize) -> Result<(), Refusal>
    requires small { Small h }
    requires rh_bound { h.rv + h.rh ≤ h.n1 * h.n2 }
    ensures { told result ≡ position_verdict (h.n1 * h.n2 - (h.rv + h.rh)) position }
{
    refuse_if(data_size(h) <= position, Refusal::Position)
}

// Check 18: a sheet belongs to its plan, which it does exactly if its joint sum is 0.
fn belong_verdict<'a>(view: View<'a>, columns: &[u64], sheet: &[u8]) -> Result<(), Refusal>
    requires formed { Formed (code_in view) }
    requires unpacked { Unpacked view.plan.now view.header columns.now }
    requires sheet_len { length sheet.now ≡ sheet_bytes view.header.n1 view.header.n2 }
    ensures { told result ≡ belong_verdict (code_in view.entry) sheet.now }
{
    refuse_if(
        joint_sum(Layout::ByRow, sheet, view, columns) != 0,
        Refusal::Foreign,
    )
}

// The checks before altering. The lent words are room for the column table.
pub fn alter_checks<'a>(
    plan: &'a [u8],
    sheet: &[u8],
    position: usize,
    words: &mut [u64; WORDS],
) -> Result<Accepted<'a>, Refusal>
    ensures told { told result ≡ alter_checks plan.now sheet.now position }
    ensures view { IfOk result (λ a. a.view.plan.now ≡ plan.now) }
{
    let accepted = form_checks(plan, sheet, words)?;
    position_verdict(accepted.view.header, position)?;
    belong_verdict(accepted.view, words, sheet)?;
    Ok(accepted)
}
