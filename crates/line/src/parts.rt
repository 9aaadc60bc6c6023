// The plan and the sheet in the bytes that are given, and the size of the data.
ghost use Rattle.std.specs.Prelude.{◌≡◌, ◌≤◌, length};
ghost use Rattle.text.specs.Text.{Put};
ghost use Rattle.line.specs.Line.{plan_size};
ghost use Rattle.line.specs.Parts.{DataSize};

use layout::cells::row_bytes;
use layout::number::u16_at;
use plan::entry::header_of;
use plan::header::LENGTH;

// How many bytes are the plan.
pub fn plan_size(input: &[u8]) -> usize
    ensures { result ≡ plan_size input.now }
{
    if input.len() < LENGTH {
        return input.len();
    }
    u16_at(input, 18).max(LENGTH).min(input.len())
}

// The bytes of data, where the plan is accepted. A plan that is not is refused whatever the data.
pub fn data_bytes(plan: &[u8]) -> usize
    ensures { DataSize plan.now result }
{
    if plan.len() < LENGTH {
        return 0;
    }
    let h = header_of(plan);
    if 512 < h.n1 {
        return 0;
    }
    if 698 < h.n2 {
        return 0;
    }
    if 32 < h.rv {
        return 0;
    }
    if 32 < h.rh {
        return 0;
    }
    let cells = h.n1 * h.n2;
    let checks = h.rv + h.rh;
    if cells < checks {
        return 0;
    }
    row_bytes(cells - checks)
}

// All of a slice to the start of another.
pub fn copy(from: &[u8], to: &mut [u8]) -> usize
    requires { length from.now ≤ length to.old }
    ensures { Put to.old 0 from.now to.new result }
{
    to[..from.len()].copy_from_slice(from);
    from.len()
}
