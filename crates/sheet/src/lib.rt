// The calls, as sheet_c exports them for C (include/sheet.h). Each takes whatever it is handed, and answers one 64-bit number
// (docs/ANSWER.md). A call that turns something back changes no byte of any buffer. The data buffer is called bits here.
#![tactic(auto)]

ghost use Rattle.std.specs.Prelude.{◌≡◌};
ghost use Rattle.answer.specs.Answer.{InRange, packed};
ghost use Rattle.plan.specs.Verdict.{told};
ghost use Rattle.houseplan.specs.HousePlan.{house_parameters};
ghost use Rattle.sheet.specs.Calls.{verdict_fields, plan_answer, parameters, make_reply, make_call, write_reply, write_call, read_reply, read_call};
ghost use Rattle.sheet.specs.Calls.{sums_reply, sums_call, alter_reply, alter_call, read_two_reply, read_two_call, difference_answer};
ghost use Rattle.sheet.specs.Calls.{read_stack_reply, read_stack_call, turn_reply, turn_call, put_back_reply, put_back_call};
ghost use Rattle.layout.specs.declared.stored.Layout.TheVariants.{ByRow, ByColumn};
ghost use Rattle.stack.specs.ReadStack.{lent};

use accept::test::test;
use alter::altering::alter;
use answer::{pack_part, pack_places};
use difference::differing_part;
use houseplan::make_house;
use layout::stored::Layout;
use maker::making::make;
use maker::parameters::Parameters;
use packing::pack_report;
use plan::table::WORDS;
use plan::verdict::{Refusal, told};
use putback::putting::put_back;
use reader::answer::tell;
use reader::read::read;
use reader::search::Search;
use runsums::sum_run;
use scans::reading::read_two;
use stack::reading::read_stack;
use transpose::turning::turn_over;
use writer::writing::write;

// A refusal's number and places, or that there is none, packed.
fn pack_told<T>(checked: &Result<T, Refusal>) -> u64
    requires { InRange (verdict_fields (told checked.now)) }
    ensures { result ≡ packed (verdict_fields (told checked.now)) }
{
    let v = told(checked);
    pack_places(v.number, v.p, v.q)
}

// Tests a plan: the number and places of the first check of document 01 that fails, or 0.
pub fn sheet_plan_test(plan: &[u8]) -> u64
    ensures { result ≡ plan_answer plan.now }
{
    let mut words = [0u64; WORDS];
    pack_told(&test(plan, &mut words))
}

// Makes a plan from two polynomials, each by its degree and the coefficients below it: every byte of it, whatever the buffer held.
pub fn sheet_plan_make(
    n1: u32,
    n2: u32,
    b1: u32,
    b2: u32,
    t: u32,
    rv: u32,
    v_low: u32,
    rh: u32,
    h_low: u32,
    plan: &mut [u8],
) -> u64
    ensures { make_reply result plan.new ≡ make_call (parameters n1 n2 b1 b2 t rv v_low rh h_low) plan.old }
{
    let given = Parameters {
        n1: n1 as usize,
        n2: n2 as usize,
        b1: b1 as usize,
        b2: b2 as usize,
        t: t as usize,
        rv: rv as usize,
        vlow: u64::from(v_low),
        rh: rh as usize,
        hlow: u64::from(h_low),
    };
    pack_told(&make(given, plan))
}

// Makes the house plan: what sheet_plan_make makes from the house numbers.
pub fn sheet_house_plan(plan: &mut [u8]) -> u64
    ensures { make_reply result plan.new ≡ make_call house_parameters plan.old }
{
    pack_told(&make_house(plan))
}

// Writing in a layout, its answer packed.
fn write_packed(lay: Layout, plan: &[u8], bits: &[u8], sheet: &mut [u8]) -> u64
    ensures { write_reply result sheet.new ≡ write_call lay plan.now bits.now sheet.old }
{
    pack_told(&write(lay, plan, bits, sheet))
}

// Writes the sheet that carries the data: every byte of it, whatever it held.
pub fn sheet_write(plan: &[u8], bits: &[u8], sheet: &mut [u8]) -> u64
    ensures { write_reply result sheet.new ≡ write_call ByRow plan.now bits.now sheet.old }
{
    write_packed(Layout::ByRow, plan, bits, sheet)
}

// The same, with the sheet stored by columns.
pub fn sheet_write_by_column(plan: &[u8], bits: &[u8], sheet: &mut [u8]) -> u64
    ensures { write_reply result sheet.new ≡ write_call ByColumn plan.now bits.now sheet.old }
{
    write_packed(Layout::ByColumn, plan, bits, sheet)
}

// Reading in a layout, its answer packed.
fn read_packed(by: Search, lay: Layout, plan: &[u8], sheet: &mut [u8], bits: &mut [u8]) -> u64
    ensures { read_reply result sheet.new bits.new ≡ read_call lay plan.now sheet.old bits.old }
{
    let a = tell(read(by, lay, plan, sheet, bits));
    pack_report(a.verdict, a.report)
}

// Reads a sheet: mends it in place, writes its data, and tells which cells were turned over.
pub fn sheet_read(plan: &[u8], sheet: &mut [u8], bits: &mut [u8]) -> u64
    ensures { read_reply result sheet.new bits.new ≡ read_call ByRow plan.now sheet.old bits.old }
{
    read_packed(Search::ByWindow, Layout::ByRow, plan, sheet, bits)
}

// The same, with the sheet stored by columns.
pub fn sheet_read_by_column(plan: &[u8], sheet: &mut [u8], bits: &mut [u8]) -> u64
    ensures { read_reply result sheet.new bits.new
        ≡ read_call ByColumn plan.now sheet.old bits.old }
{
    read_packed(Search::ByWindow, Layout::ByColumn, plan, sheet, bits)
}

// The same as sheet_read, its burst searched for by trial: for small sheets.
pub fn sheet_read_by_trial(plan: &[u8], sheet: &mut [u8], bits: &mut [u8]) -> u64
    ensures { read_reply result sheet.new bits.new ≡ read_call ByRow plan.now sheet.old bits.old }
{
    read_packed(Search::ByTrial, Layout::ByRow, plan, sheet, bits)
}

// Turning a sheet of a layout into the other, its answer packed.
fn turn_packed(lay: Layout, plan: &[u8], source: &[u8], target: &mut [u8]) -> u64
    ensures { turn_reply result target.new ≡ turn_call lay plan.now source.now target.old }
{
    pack_told(&turn_over(lay, plan, source, target))
}

// A sheet stored by rows into one stored by columns: every byte of the target, whatever it held.
pub fn sheet_to_columns(plan: &[u8], source: &[u8], target: &mut [u8]) -> u64
    ensures { turn_reply result target.new ≡ turn_call ByRow plan.now source.now target.old }
{
    turn_packed(Layout::ByRow, plan, source, target)
}

// A sheet stored by columns into one stored by rows: every byte of the target, whatever it held.
pub fn sheet_to_rows(plan: &[u8], source: &[u8], target: &mut [u8]) -> u64
    ensures { turn_reply result target.new ≡ turn_call ByColumn plan.now source.now target.old }
{
    turn_packed(Layout::ByColumn, plan, source, target)
}

// The two sums of the rows of a sheet from first up to but not including past: V, then H, in 8 bytes.
pub fn sheet_sums(plan: &[u8], sheet: &[u8], first: u32, past: u32, sums: &mut [u8]) -> u64
    ensures { sums_reply result sums.new ≡ sums_call plan.now sheet.now first past sums.old }
{
    pack_told(&sum_run(plan, sheet, first as usize, past as usize, sums))
}

// Turns one data bit of a sheet over, and brings the check cells up to date: the sheet is then as written afresh from the altered data.
pub fn sheet_alter(plan: &[u8], sheet: &mut [u8], position: u32) -> u64
    ensures { alter_reply result sheet.new ≡ alter_call plan.now sheet.old position }
{
    pack_told(&alter(plan, sheet, position as usize))
}

// Reads two scans of one film, each with a burst of its own or none: writes the data, and leaves both scans as they are.
pub fn sheet_read_two(plan: &[u8], first: &[u8], second: &[u8], bits: &mut [u8]) -> u64
    ensures { read_two_reply result bits.new
        ≡ read_two_call plan.now first.now second.now bits.old }
{
    pack_told(&read_two(plan, first, second, bits))
}

// The row where two scans of one film first differ, as it lies in the second scan: the byte where it starts, and its length.
pub fn sheet_first_difference(plan: &[u8], first: &[u8], second: &[u8]) -> u64
    ensures { result ≡ difference_answer plan.now first.now second.now }
{
    let part = differing_part(plan, first, second);
    pack_part(part.start, part.end - part.start)
}

// Reads a stack of sheets under one plan, from two rooms: each sheet as if it were alone, with its nine numbers.
pub fn sheet_read_stack(plan: &[u8], stack: &mut [u8], numbers: &mut [u8], bits: &mut [u8]) -> u64
    ensures { read_stack_reply result (lent stack.new numbers.new bits.new)
        ≡ read_stack_call plan.now stack.old numbers.old bits.old }
{
    pack_told(&read_stack(plan, stack, numbers, bits))
}

// Puts a burst back: turns the cells over that an answer of the reader tells, so that the scan is restored.
pub fn sheet_put_back(plan: &[u8], sheet: &mut [u8], answer: u64) -> u64
    ensures { put_back_reply result sheet.new ≡ put_back_call plan.now sheet.old answer }
{
    pack_told(&put_back(plan, sheet, answer))
}
