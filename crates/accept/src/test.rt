// The test of a plan: all checks of document 01, in order.
ghost use Rattle.std.specs.Prelude.{◌≡◌, IfOk, OnOk};
ghost use Rattle.boxcode.specs.Code.{Formed};
ghost use Rattle.plan.specs.View.{code_in};
ghost use Rattle.plan.specs.Table.{Unpacked};
ghost use Rattle.plan.specs.Verdict.{told};
ghost use Rattle.accept.specs.Verdict.{conditions_verdict, plan_verdict};
ghost use Rattle.accept.specs.Checked.{Checked};

use crate::checks::checks_verdict;
use crate::conditions::condition_verdict;
use plan::form::form_verdict;
use plan::table::{Table, WORDS};
use plan::verdict::Refusal;
use plan::view::{Accepted, View};

// Checks 8 to 10, of a plan of the right form.
fn conditions_verdict<'a>(view: View<'a>, words: &mut [u64; WORDS]) -> Result<(), Refusal>
    requires { Formed (code_in view) }
    ensures told { told result ≡ conditions_verdict (code_in view.entry) }
    ensures words { OnOk result (Unpacked view.entry.plan.now view.entry.header words.new) }
{
    let mut rest = [0u64; WORDS];
    condition_verdict(view, Table::Rows, words, &mut rest)?;
    condition_verdict(view, Table::Columns, words, &mut rest)?;
    checks_verdict(view)
}

// Checks 1 to 10. The lent words are room for the column table: where the plan passes, it is left there, so that it is unpacked once a
// call.
pub fn test<'a>(plan: &'a [u8], words: &mut [u64; WORDS]) -> Result<Accepted<'a>, Refusal>
    ensures checked { Checked plan.now (plan_verdict plan.now) (told result) words.new }
    ensures view { IfOk result (λ a. a.view.plan.now ≡ plan.now) }
{
    let view = form_verdict(plan)?;
    conditions_verdict(view, words)?;
    Ok(Accepted { view })
}
