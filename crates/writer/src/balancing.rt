// The check cells of a sheet brought up to date with its data, whatever they hold.
ghost use Rattle.std.specs.Prelude.{◌≡◌};
ghost use Rattle.layout.specs.Stored.{cell_in, FormIn, bytes_in};
ghost use Rattle.boxcode.specs.Check.{written, data_of};
ghost use Rattle.plan.specs.View.{code_in};
ghost use Rattle.writer.specs.Steps.{JointSum};

use crate::solving::check_digits;
use crate::turning::turn_checks;
use layout::stored::Layout;
use plan::view::Accepted;

// Turns over the check cells whose joint entries sum to the joint sum of the sheet, which is handed in: the sheet is then the one
// written from its data.
pub fn balance<'a>(lay: Layout, accepted: Accepted<'a>, sum: u64, sheet: &mut [u8])
    requires form_in { FormIn lay accepted.view.header.n1 accepted.view.header.n2 sheet.old }
    requires joint_sum { JointSum (code_in accepted.view) (cell_in lay accepted.view.header.n1 accepted.view.header.n2 sheet.old) sum }
    ensures { let c = code_in accepted.entry.view in
        sheet.new ≡ bytes_in lay c.n1 c.n2 (written c (data_of c (cell_in lay c.n1 c.n2 sheet.old))) }
{
    let view = accepted.view;
    let y = check_digits(view, sum);
    turn_checks(lay, view, y, sheet);
}
