// The read of a stack: each sheet as if it were alone.
ghost use Rattle.std.specs.Prelude.{◌≡◌, ◌≤◌, ◌<◌, length};
ghost use Rattle.stackform.specs.Stack.{sheet_count};
ghost use Rattle.plan.specs.View.{code_in};
ghost use Rattle.plan.specs.Table.{Unpacked};
ghost use Rattle.plan.specs.Verdict.{told};
ghost use Rattle.buffers.specs.Buffers.{numbers_size};
ghost use Rattle.reader.specs.Read.{outcome, read_outcome};
ghost use Rattle.stack.specs.ReadStack.{sheet_size, data_bytes, number_bytes, lent, each_read, stack_read, read_stack};
ghost use Rattle.stack.specs.Step.{Sized, read_left, stepped};

use crate::checks::stack_checks;
use buffers::lent::{NUMBERS_SIZE, data_bytes, sheet_bytes};
use layout::number::put_u16;
use layout::stored::Layout;
use plan::table::WORDS;
use plan::verdict::Refusal;
use plan::view::Accepted;
use reader::answer::{Answer, tell};
use reader::read::read_lent;
use reader::search::Search;
use stackform::{count_of, place};

// The nine numbers of a sheet.
fn put_numbers(answer: Answer, numbers: &mut [u8])
    requires { length numbers.old ≡ numbers_size }
    ensures { numbers.new ≡ number_bytes (outcome answer numbers.old numbers.old) }
{
    let v = answer.verdict;
    let r = answer.report;
    put_u16(numbers, 0, v.number);
    put_u16(numbers, 2, v.p);
    put_u16(numbers, 4, v.q);
    put_u16(numbers, 6, r.cells);
    put_u16(numbers, 8, r.top);
    put_u16(numbers, 10, r.left);
    put_u16(numbers, 12, r.height);
    put_u16(numbers, 14, r.width);
    put_u16(numbers, 16, r.pattern);
}

// One sheet, with its places in the other two buffers: read as if it were alone.
fn read_sheet<'a>(
    accepted: Accepted<'a>,
    columns: &[u64],
    sheet: &mut [u8],
    numbers: &mut [u8],
    bits: &mut [u8],
)
    requires unpacked { Unpacked accepted.view.plan.now accepted.view.header columns.now }
    requires sheet_len { length sheet.old ≡ sheet_size (code_in accepted.view) }
    requires numbers_len { length numbers.old ≡ numbers_size }
    requires bits_len { length bits.old ≡ data_bytes (code_in accepted.view) }
    ensures { lent sheet.new numbers.new bits.new
        ≡ read_left (read_outcome accepted.entry.view.plan.now sheet.old bits.old) }
{
    let read = read_lent(
        Search::ByWindow,
        Layout::ByRow,
        accepted,
        columns,
        sheet,
        bits,
    );
    put_numbers(tell(read), numbers);
}

// Sheet i of so many, where it lies. What is told of it is told there alone: a refusal stops no other.
fn read_at<'a>(
    accepted: Accepted<'a>,
    columns: &[u64],
    count: usize,
    i: usize,
    stack: &mut [u8],
    numbers: &mut [u8],
    bits: &mut [u8],
)
    requires unpacked { Unpacked accepted.view.plan.now accepted.view.header columns.now }
    requires count_bound { (count ≤ 64) × (i < count) }
    requires sized { Sized (code_in accepted.view) count (lent stack.old numbers.old bits.old) }
    ensures { lent stack.new numbers.new bits.new
        ≡ stepped accepted.entry.view.plan.now (code_in accepted.entry.view) count i
        (lent stack.old numbers.old bits.old) }
{
    let h = accepted.view.header;
    let size = sheet_bytes(Layout::ByRow, h);
    let start = place(size, count, i);
    let end = start + size;
    let first = i * NUMBERS_SIZE;
    let past = first + NUMBERS_SIZE;
    let length = data_bytes(h);
    let from = i * length;
    let to = from + length;
    read_sheet(
        accepted,
        columns,
        &mut stack[start..end],
        &mut numbers[first..past],
        &mut bits[from..to],
    );
}

// All sheets of a stack, one after the other.
fn read_each<'a>(
    accepted: Accepted<'a>,
    columns: &[u64],
    count: usize,
    stack: &mut [u8],
    numbers: &mut [u8],
    bits: &mut [u8],
)
    requires unpacked { Unpacked accepted.view.plan.now accepted.view.header columns.now }
    requires count_bound { (count ≤ 64) × (count ≡ sheet_count stack.old) }
    requires sized { Sized (code_in accepted.view) count (lent stack.old numbers.old bits.old) }
    ensures { lent stack.new numbers.new bits.new
        ≡ each_read accepted.entry.view.plan.now stack.old bits.old }
{
    for i in 0..count {
        read_at(accepted, columns, count, i, stack, numbers, bits);
    }
}

// All checks, and the read of each sheet. The plan is tested once. A refusal of the stack changes no byte of any buffer.
pub fn read_stack(
    plan: &[u8],
    stack: &mut [u8],
    numbers: &mut [u8],
    bits: &mut [u8],
) -> Result<(), Refusal>
    ensures { stack_read (told result) (lent stack.new numbers.new bits.new)
        ≡ read_stack plan.now stack.old numbers.old bits.old }
{
    let mut columns = [0u64; WORDS];
    let accepted = stack_checks(plan, stack, numbers, bits, &mut columns)?;
    let count = count_of(stack);
    read_each(accepted, &columns, count, stack, numbers, bits);
    Ok(())
}
