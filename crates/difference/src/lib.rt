// The row where two scans of one film first differ (document 02, request g), as a part of the second scan.
#![tactic(auto)]

ghost use Rattle.std.specs.Prelude.{◌≡◌, ◌/◌, ◌≤◌, ◌<◌};
ghost use Rattle.layout.specs.Cells.{row_bytes};
ghost use Rattle.difference.specs.Difference.{row_part, difference, part_of};

use buffers::call::scans_checks;
use layout::cells::row_bytes;
use layout::differ::first_different;
use plan::table::WORDS;

// The bytes from start up to but not including end.
#[derive(Clone, Copy)]
pub struct Part {
    pub start: usize,
    pub end: usize,
}

// The bytes of the row that byte k lies in.
fn row_part(n2: usize, k: usize) -> Part
    requires { (0 < row_bytes n2) × (n2 ≤ 1000000) × (k < 4294967296) }
    ensures { result ≡ row_part n2 (k / row_bytes n2) }
{
    let size = row_bytes(n2);
    let row = k / size;
    let start = row * size;
    let end = (row + 1) * size;
    Part { start, end }
}

// The row where the scans first differ; an empty part if none differs or a check fails.
pub fn differing_part(plan: &[u8], first: &[u8], second: &[u8]) -> Part
    ensures { result ≡ difference plan.now first.now second.now }
{
    let mut words = [0u64; WORDS];
    let Ok(accepted) = scans_checks(plan, first, second, &mut words) else {
        return Part { start: 0, end: 0 };
    };
    let k = first_different(first, second);
    if k == second.len() {
        return Part { start: 0, end: 0 };
    }
    row_part(accepted.view.header.n2, k)
}

// That row, as it lies in the second scan.
pub fn first_difference<'a>(plan: &[u8], first: &[u8], second: &'a [u8]) -> &'a [u8]
    ensures { result.now ≡ part_of (difference plan.now first.now second.now) second.now }
{
    let part = differing_part(plan, first, second);
    let start = part.start;
    let end = part.end;
    &second[start..end]
}
