// The bytes of a stack of sheets (document 02, request h): its header, and where each sheet begins.
#![tactic(auto)]

ghost use Rattle.std.specs.Prelude.{◌≡◌, ◌≤◌, ◌<◌, length};
ghost use Rattle.finite.specs.Search.{any_below};
ghost use Rattle.stackform.specs.Stack.{sheet_count, header_end, sheet_place, entry_broken, stack_broken};

use layout::number::{u16_at, u32_at};

// The number of sheets.
pub fn count_of(stack: &[u8]) -> usize
    requires { 2 ≤ length stack.now }
    ensures { (result ≡ sheet_count stack.now) × (result < 65536) }
{
    u16_at(stack, 0)
}

// Where sheet i of so many begins.
pub fn place(size: usize, count: usize, i: usize) -> usize
    requires { (size ≤ 1000000) × (count ≤ 64) × (i ≤ 64) }
    ensures { result ≡ sheet_place size count i }
{
    2 + 6 * count + i * size
}

// Whether the header breaks the rules for sheet i.
fn entry_broken(stack: &[u8], size: usize, count: usize, i: usize) -> bool
    requires { (size ≤ 1000000) × (count ≤ 64) × (i < count) × (header_end count ≤ length stack.now) }
    ensures { result ≡ entry_broken size count stack.now i }
{
    let room = u16_at(stack, 2 + 6 * i);
    let offset = u32_at(stack, 4 + 6 * i) as usize;
    (1 < room) | (offset != place(size, count, i))
}

// Whether it does for some sheet.
fn entries_broken(stack: &[u8], size: usize, count: usize) -> bool
    requires { (size ≤ 1000000) × (count ≤ 64) × (header_end count ≤ length stack.now) }
    ensures { result ≡ any_below count (entry_broken size count stack.now) }
{
    for i in 0..count {
        if entry_broken(stack, size, count, i) {
            return true;
        }
    }
    false
}

// Whether the stack breaks the rules. The count is asked first, and then the length, so that the whole header is there when its entries
// are.
pub fn broken(stack: &[u8], size: usize) -> bool
    requires { size ≤ 1000000 }
    ensures { result ≡ stack_broken size stack.now }
{
    if stack.len() < 2 {
        return true;
    }
    let count = count_of(stack);
    if 64 < count {
        return true;
    }
    if stack.len() != place(size, count, count) {
        return true;
    }
    entries_broken(stack, size, count)
}
