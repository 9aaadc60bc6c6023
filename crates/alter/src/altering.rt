// Altering: the checks first, then one data cell, and the check cells that its joint entry asks for. Nothing else of the sheet is looked at.
ghost use Rattle.std.specs.Prelude.{◌≡◌, ◌<◌};
ghost use Rattle.layout.specs.Cells.{cell_of, RightForm, bytes_of};
ghost use Rattle.boxcode.specs.Syndrome.{Belongs};
ghost use Rattle.boxcode.specs.Check.{data_size, written};
ghost use Rattle.plan.specs.View.{code_in};
ghost use Rattle.plan.specs.Verdict.{told};
ghost use Rattle.payload.specs.Packed.{packed_data};
ghost use Rattle.writer.specs.Write.{data_bits};
ghost use Rattle.alter.specs.Alter.{turned_data, altered, alter};

use crate::checks::alter_checks;
use accept::checks::joint_entry;
use layout::cells::turn;
use layout::stored::Layout;
use plan::table::WORDS;
use plan::verdict::Refusal;
use plan::view::Accepted;
use position::find::data_cell;
use writer::balancing::balance;

// The sheet after the alteration. It belonged to its plan, so its joint sum, with the cell turned over, is the joint entry of that cell.
fn alter_sheet<'a>(accepted: Accepted<'a>, position: usize, sheet: &mut [u8])
    requires position_bound { position < data_size (code_in accepted.view) }
    requires right_form { RightForm accepted.view.header.n1 accepted.view.header.n2 sheet.old }
    requires belongs { Belongs (code_in accepted.view) (cell_of accepted.view.header.n2 sheet.old) }
    ensures { let c = code_in accepted.entry.view in
        let bits = turned_data c position (packed_data c (cell_of accepted.entry.view.header.n2 sheet.old)) in
        sheet.new ≡ bytes_of accepted.entry.view.header.n1 accepted.entry.view.header.n2 (written c (data_bits (data_size c) bits)) }
{
    let view = accepted.view;
    let h = view.header;
    let cell = data_cell(view, position);
    let joint = joint_entry(view, cell.row, cell.column);
    turn(sheet, h.n2, cell.row, cell.column);
    balance(Layout::ByRow, accepted, joint, sheet);
}

// Turns the data bit at a position over, or turns back with the sheet as it was.
pub fn alter(plan: &[u8], sheet: &mut [u8], position: usize) -> Result<(), Refusal>
    ensures { altered (told result) sheet.new ≡ alter plan.now sheet.old position }
{
    let mut columns = [0u64; WORDS];
    let accepted = alter_checks(plan, sheet, position, &mut columns)?;
    alter_sheet(accepted, position, sheet);
    Ok(())
}
