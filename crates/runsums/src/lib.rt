// The two sums of a run of rows (document 02, request e), in a buffer of 8 bytes.
#![tactic(auto)]

ghost use Rattle.std.specs.Prelude.{◌≡◌, ◌++◌, length};
ghost use Rattle.layout.specs.Number.{low_bytes};
ghost use Rattle.plan.specs.Verdict.{told};
ghost use Rattle.runsums.specs.RunSums.{summed, sum_run};

use buffers::call::sums_checks;
use layout::number::put_u32;
use plan::table::WORDS;
use plan::verdict::Refusal;
use syndrome::gather::sums;
use syndrome::run::Run;
use syndrome::sums::Sums;

// The V sum, and then the H sum.
fn put_sums(s: Sums, room: &mut [u8])
    requires { length room.old ≡ 8 }
    ensures { room.new ≡ low_bytes 4 s.row ++ low_bytes 4 s.column }
{
    put_u32(room, 0, s.row);
    put_u32(room, 4, s.column);
}

// The two sums of the rows from first up to but not including past, or turns back with the buffer as it was.
pub fn sum_run(
    plan: &[u8],
    sheet: &[u8],
    first: usize,
    past: usize,
    room: &mut [u8],
) -> Result<(), Refusal>
    ensures { summed (told result) room.new ≡ sum_run plan.now sheet.now first past room.old }
{
    let mut columns = [0u64; WORDS];
    let accepted = sums_checks(plan, sheet, room, &mut columns)?;
    let run = Run { first, past };
    put_sums(sums(sheet, accepted.view, &columns, run), room);
    Ok(())
}
