// Putting back: the checks first, and then the cells that the answer tells are turned over, and no others.
ghost use Rattle.std.specs.Prelude.{◌≡◌, false};
ghost use Rattle.layout.specs.Cells.{RightForm};
ghost use Rattle.plan.specs.View.{code_in};
ghost use Rattle.plan.specs.Verdict.{told};
ghost use Rattle.putback.specs.PutBack.{no_burst, back_bytes, left_back, put_back};

use crate::checks::back_checks;
use answer::unpack;
use layout::stored::Layout;
use plan::table::WORDS;
use plan::verdict::Refusal;
use plan::view::Accepted;
use reader::turn::turn_box;

// Turns the cells of a burst over, by its answer: that of no cells is 0.
fn turn_told<'a>(accepted: Accepted<'a>, answer: u64, sheet: &mut [u8])
    requires right_form { RightForm accepted.view.header.n1 accepted.view.header.n2 sheet.old }
    requires answer_value { no_burst (code_in accepted.view) answer ≡ false }
    ensures { sheet.new ≡ back_bytes (code_in accepted.entry.view) sheet.old answer }
{
    let h = accepted.view.header;
    if answer == 0 {
        return;
    }
    let told = unpack(answer);
    turn_box(
        Layout::ByRow,
        sheet,
        h.n1,
        h.n2,
        told.top,
        told.left,
        told.height,
        told.width,
        told.pattern as u64,
    );
}

// Puts a burst back, or turns back with the sheet as it was.
pub fn put_back(plan: &[u8], sheet: &mut [u8], answer: u64) -> Result<(), Refusal>
    ensures { left_back (told result) sheet.new ≡ put_back plan.now sheet.old answer }
{
    let mut columns = [0u64; WORDS];
    let accepted = back_checks(plan, sheet, answer, &mut columns)?;
    turn_told(accepted, answer, sheet);
    Ok(())
}
