// Check 10: the joint entries of the check cells are independent.
ghost use Rattle.std.specs.Prelude.{◌≡◌, ◌+◌, ◌*◌, ◌^◌, ◌≤◌, ◌<◌};
ghost use Rattle.boxcode.specs.Code.{Formed};
ghost use Rattle.plan.specs.View.{code_in};
ghost use Rattle.plan.specs.Verdict.{told};
ghost use Rattle.accept.specs.Joints.{Joint, Joints};
ghost use Rattle.accept.specs.Verdict.{checks_verdict};

use gf2::{empty_basis, keep};
use plan::verdict::{Refusal, refuse_if};
use plan::view::View;

// A V and an H number side by side: h above the rv bits of v.
pub fn joined(rv: usize, v: u64, h: u64) -> u64
    requires { (rv ≤ 32) × (v < 2 ^ 32) × (h < 2 ^ 32) }
    ensures { result ≡ v + 2 ^ rv * h }
{
    v + (1u64 << rv) * h
}

// The joint entry of cell (i, j): its V entry and its H entry, joined.
pub fn joint_entry<'a>(view: View<'a>, i: usize, j: usize) -> u64
    requires formed { Formed (code_in view) }
    requires i_lt_n1 { (i < view.header.n1) × (j < view.header.n2) }
    ensures { Joint (code_in view.entry) i j result }
{
    joined(
        view.header.rv,
        view.row_weight(i, j),
        view.column_weight(i, j),
    )
}

// The joint entries of all check cells; zeros after them.
pub fn check_joints<'a>(view: View<'a>) -> [u64; 64]
    requires { Formed (code_in view) }
    ensures { Joints (code_in view.entry) result }
{
    let mut joints = [0u64; 64];
    let count = view.header.rv + view.header.rh;
    for k in 0..count {
        let cell = view.check_cell(k);
        joints[k] = joint_entry(view, cell.row, cell.column);
    }
    joints
}

// Check 10.
pub fn checks_verdict<'a>(view: View<'a>) -> Result<(), Refusal>
    requires { Formed (code_in view) }
    ensures { told result ≡ checks_verdict (code_in view.entry) }
{
    let joints = check_joints(view);
    let count = view.header.rv + view.header.rh;
    let taken = keep(empty_basis(), &joints[..count]).taken;
    refuse_if(taken < count, Refusal::CheckCells(taken))
}
