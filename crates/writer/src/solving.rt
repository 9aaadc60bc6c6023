// What the check cells must hold: the digits that bring both sums of a sheet to 0.
ghost use Rattle.std.specs.Prelude.{◌≡◌, ◌+◌, ◌^◌, ◌<◌, length};
ghost use Rattle.finite.specs.Search.{bit};
ghost use Rattle.gf2.specs.Sum.{chosen_sum};
ghost use Rattle.layout.specs.Stored.{size_in, cell_in};
ghost use Rattle.boxcode.specs.Code.{Formed, check_joint};
ghost use Rattle.boxcode.specs.Condition.{Conditions};
ghost use Rattle.plan.specs.View.{code_in};
ghost use Rattle.plan.specs.Table.{Unpacked};
ghost use Rattle.writer.specs.Steps.{JointSum};

use accept::checks::{check_joints, joined};
use gf2::find_combination;
use layout::stored::Layout;
use plan::view::View;
use syndrome::whole::sheet_sums;

// The joint sum of a sheet: its V sum and its H sum, joined.
pub fn joint_sum<'a>(lay: Layout, sheet: &[u8], view: View<'a>, columns: &[u64]) -> u64
    requires formed { Formed (code_in view) }
    requires unpacked { Unpacked view.plan.now view.header columns.now }
    requires sheet_len { length sheet.now ≡ size_in lay view.header.n1 view.header.n2 }
    ensures { JointSum (code_in view.entry) (cell_in lay view.entry.header.n1 view.entry.header.n2 sheet.now) result }
{
    let h = view.header;
    let s = sheet_sums(lay, sheet, view, columns);
    joined(h.rv, s.row, s.column)
}

// The check cells, as digits of a number, whose joint entries sum to the target. Under an accepted plan there are always some.
pub fn check_digits<'a>(view: View<'a>, target: u64) -> u64
    requires formed { Formed (code_in view) }
    requires conditions { Conditions (code_in view) }
    requires target_bound { target < 2 ^ (view.header.rv + view.header.rh) }
    ensures { chosen_sum (view.entry.header.rv + view.entry.header.rh) (bit result) (check_joint (code_in view.entry)) ≡ target }
{
    let h = view.header;
    let joints = check_joints(view);
    let count = h.rv + h.rh;
    find_combination(&joints[..count], target).unwrap_or(0)
}
