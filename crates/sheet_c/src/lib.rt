// The calls for C (include/sheet.h): each export calls the function of its name in the crate sheet, and promises what that does.
#![tactic(auto)]

ghost use Rattle.std.specs.Prelude.{◌≡◌};
ghost use Rattle.houseplan.specs.HousePlan.{house_parameters};
ghost use Rattle.sheet.specs.Calls.{plan_answer, parameters, make_reply, make_call, write_reply, write_call, read_reply, read_call};
ghost use Rattle.sheet.specs.Calls.{sums_reply, sums_call, alter_reply, alter_call, read_two_reply, read_two_call, difference_answer};
ghost use Rattle.sheet.specs.Calls.{read_stack_reply, read_stack_call, turn_reply, turn_call, put_back_reply, put_back_call};
ghost use Rattle.layout.specs.declared.stored.Layout.TheVariants.{ByRow, ByColumn};
ghost use Rattle.stack.specs.ReadStack.{lent};

// Tests a plan: the number and places of the first check of document 01 that fails, or 0.
#[unsafe(no_mangle)]
pub extern "C" fn sheet_plan_test(plan: &[u8]) -> u64
    ensures { result ≡ plan_answer plan.now }
{
    sheet::sheet_plan_test(plan)
}

// Makes a plan from two polynomials, each by its degree and the coefficients below it: every byte of it, whatever the buffer held.
#[unsafe(no_mangle)]
pub extern "C" fn sheet_plan_make(
    n1: u32,
    n2: u32,
    b1: u32,
    b2: u32,
    t: u32,
    rv: u32,
    v_low: u32,
    rh: u32,
    h_low: u32,
    plan: &mut [u8],
) -> u64
    ensures { make_reply result plan.new ≡ make_call (parameters n1 n2 b1 b2 t rv v_low rh h_low) plan.old }
{
    sheet::sheet_plan_make(n1, n2, b1, b2, t, rv, v_low, rh, h_low, plan)
}

// Makes the house plan: what sheet_plan_make makes from the house numbers.
#[unsafe(no_mangle)]
pub extern "C" fn sheet_house_plan(plan: &mut [u8]) -> u64
    ensures { make_reply result plan.new ≡ make_call house_parameters plan.old }
{
    sheet::sheet_house_plan(plan)
}

// Writes the sheet that carries the data: every byte of it, whatever it held.
#[unsafe(no_mangle)]
pub extern "C" fn sheet_write(plan: &[u8], bits: &[u8], sheet: &mut [u8]) -> u64
    ensures { write_reply result sheet.new ≡ write_call ByRow plan.now bits.now sheet.old }
{
    sheet::sheet_write(plan, bits, sheet)
}

// The same, with the sheet stored by columns.
#[unsafe(no_mangle)]
pub extern "C" fn sheet_write_by_column(plan: &[u8], bits: &[u8], sheet: &mut [u8]) -> u64
    ensures { write_reply result sheet.new ≡ write_call ByColumn plan.now bits.now sheet.old }
{
    sheet::sheet_write_by_column(plan, bits, sheet)
}

// Reads a sheet: mends it in place, writes its data, and tells which cells were turned over.
#[unsafe(no_mangle)]
pub extern "C" fn sheet_read(plan: &[u8], sheet: &mut [u8], bits: &mut [u8]) -> u64
    ensures { read_reply result sheet.new bits.new ≡ read_call ByRow plan.now sheet.old bits.old }
{
    sheet::sheet_read(plan, sheet, bits)
}

// The same, with the sheet stored by columns.
#[unsafe(no_mangle)]
pub extern "C" fn sheet_read_by_column(plan: &[u8], sheet: &mut [u8], bits: &mut [u8]) -> u64
    ensures { read_reply result sheet.new bits.new
        ≡ read_call ByColumn plan.now sheet.old bits.old }
{
    sheet::sheet_read_by_column(plan, sheet, bits)
}

// The same as sheet_read, its burst searched for by trial: for small sheets.
#[unsafe(no_mangle)]
pub extern "C" fn sheet_read_by_trial(plan: &[u8], sheet: &mut [u8], bits: &mut [u8]) -> u64
    ensures { read_reply result sheet.new bits.new ≡ read_call ByRow plan.now sheet.old bits.old }
{
    sheet::sheet_read_by_trial(plan, sheet, bits)
}

// A sheet stored by rows into one stored by columns: every byte of the target, whatever it held.
#[unsafe(no_mangle)]
pub extern "C" fn sheet_to_columns(plan: &[u8], source: &[u8], target: &mut [u8]) -> u64
    ensures { turn_reply result target.new ≡ turn_call ByRow plan.now source.now target.old }
{
    sheet::sheet_to_columns(plan, source, target)
}

// A sheet stored by columns into one stored by rows: every byte of the target, whatever it held.
#[unsafe(no_mangle)]
pub extern "C" fn sheet_to_rows(plan: &[u8], source: &[u8], target: &mut [u8]) -> u64
    ensures { turn_reply result target.new ≡ turn_call ByColumn plan.now source.now target.old }
{
    sheet::sheet_to_rows(plan, source, target)
}

// The two sums of the rows of a sheet from first up to but not including past: V, then H, in 8 bytes.
#[unsafe(no_mangle)]
pub extern "C" fn sheet_sums(
    plan: &[u8],
    sheet: &[u8],
    first: u32,
    past: u32,
    sums: &mut [u8],
) -> u64
    ensures { sums_reply result sums.new ≡ sums_call plan.now sheet.now first past sums.old }
{
    sheet::sheet_sums(plan, sheet, first, past, sums)
}

// Turns one data bit of a sheet over, and brings the check cells up to date: the sheet is then as written afresh from the altered data.
#[unsafe(no_mangle)]
pub extern "C" fn sheet_alter(plan: &[u8], sheet: &mut [u8], position: u32) -> u64
    ensures { alter_reply result sheet.new ≡ alter_call plan.now sheet.old position }
{
    sheet::sheet_alter(plan, sheet, position)
}

// Reads two scans of one film, each with a burst of its own or none: writes the data, and leaves both scans as they are.
#[unsafe(no_mangle)]
pub extern "C" fn sheet_read_two(plan: &[u8], first: &[u8], second: &[u8], bits: &mut [u8]) -> u64
    ensures { read_two_reply result bits.new
        ≡ read_two_call plan.now first.now second.now bits.old }
{
    sheet::sheet_read_two(plan, first, second, bits)
}

// The row where two scans of one film first differ, as it lies in the second scan: the byte where it starts, and its length.
#[unsafe(no_mangle)]
pub extern "C" fn sheet_first_difference(plan: &[u8], first: &[u8], second: &[u8]) -> u64
    ensures { result ≡ difference_answer plan.now first.now second.now }
{
    sheet::sheet_first_difference(plan, first, second)
}

// Reads a stack of sheets under one plan, from two rooms: each sheet as if it were alone, with its nine numbers.
#[unsafe(no_mangle)]
pub extern "C" fn sheet_read_stack(
    plan: &[u8],
    stack: &mut [u8],
    numbers: &mut [u8],
    bits: &mut [u8],
) -> u64
    ensures { read_stack_reply result (lent stack.new numbers.new bits.new)
        ≡ read_stack_call plan.now stack.old numbers.old bits.old }
{
    sheet::sheet_read_stack(plan, stack, numbers, bits)
}

// Puts a burst back: turns the cells over that an answer of the reader tells, so that the scan is restored.
#[unsafe(no_mangle)]
pub extern "C" fn sheet_put_back(plan: &[u8], sheet: &mut [u8], answer: u64) -> u64
    ensures { put_back_reply result sheet.new ≡ put_back_call plan.now sheet.old answer }
{
    sheet::sheet_put_back(plan, sheet, answer)
}
