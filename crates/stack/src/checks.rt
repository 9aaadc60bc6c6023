// The checks before reading a stack: the plan, then 20, 21 and 12.
ghost use Rattle.std.specs.Prelude.{◌≡◌, IfOk, ◌≤◌};
ghost use Rattle.stackform.specs.Stack.{sheet_count};
ghost use Rattle.plan.specs.Verdict.{◌or_else◌, told};
ghost use Rattle.plan.specs.View.{code_in};
ghost use Rattle.accept.specs.Checked.{Checked};
ghost use Rattle.buffers.specs.Buffers.{numbers_length, data_lengths};
ghost use Rattle.stack.specs.ReadStack.{stack_form, stack_checks};

use accept::test::test;
use buffers::lent::{data_lengths, numbers_length, sheet_bytes};
use layout::stored::Layout;
use plan::table::WORDS;
use plan::verdict::{Refusal, refuse_if};
use plan::view::{Accepted, View};
use stackform::{broken, count_of};

// Check 20: the header of the stack, and its length.
fn stack_form<'a>(accepted: Accepted<'a>, stack: &[u8]) -> Result<(), Refusal>
    ensures { told result ≡ stack_form (code_in accepted.entry.view) stack.now }
{
    refuse_if(
        broken(stack, sheet_bytes(Layout::ByRow, accepted.view.header)),
        Refusal::StackForm,
    )
}

// Checks 21 and 12, of a stack of so many sheets.
fn room_checks<'a>(
    accepted: Accepted<'a>,
    count: usize,
    numbers: &[u8],
    bits: &[u8],
) -> Result<(), Refusal>
    requires count_bound { count ≤ 64 }
    ensures { told result ≡ numbers_length count numbers.now or_else data_lengths (code_in accepted.entry.view) count bits.now }
{
    numbers_length(count, numbers)?;
    data_lengths(accepted.view.header, count, bits)
}

// Checks 20, 21 and 12: the count is looked at where the header is right.
fn lent_checks<'a>(
    accepted: Accepted<'a>,
    stack: &[u8],
    numbers: &[u8],
    bits: &[u8],
) -> Result<(), Refusal>
    ensures { let c = code_in accepted.entry.view in let n = sheet_count stack.now in
        told result ≡ stack_form c stack.now or_else numbers_length n numbers.now or_else data_lengths c n bits.now }
{
    stack_form(accepted, stack)?;
    room_checks(accepted, count_of(stack), numbers, bits)
}

// All checks. The lent words are room for the column table: where the checks pass, it is left there.
pub(crate) fn stack_checks<'a>(
    plan: &'a [u8],
    stack: &[u8],
    numbers: &[u8],
    bits: &[u8],
    words: &mut [u64; WORDS],
) -> Result<Accepted<'a>, Refusal>
    ensures checked { Checked plan.now (stack_checks plan.now stack.now numbers.now bits.now) (told result) words.new }
    ensures view { IfOk result (λ a. a.view.plan.now ≡ plan.now) }
{
    let accepted = test(plan, words)?;
    lent_checks(accepted, stack, numbers, bits)?;
    Ok(accepted)
}
