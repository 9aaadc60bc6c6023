// A sheet turned into the other layout (document 02, request i).
ghost use Rattle.std.specs.Prelude.{◌≡◌};
ghost use Rattle.plan.specs.Verdict.{told};
ghost use Rattle.transpose.specs.Transpose.{turned_over, turn_over};

use crate::transposing::transpose_in;
use buffers::call::transpose_checks;
use layout::stored::Layout;
use plan::table::WORDS;
use plan::verdict::Refusal;

// The source, which has the layout lay, into the target, which has the other; or turns back with the target as it was.
pub fn turn_over(lay: Layout, plan: &[u8], source: &[u8], target: &mut [u8]) -> Result<(), Refusal>
    ensures { turned_over (told result) target.new ≡ turn_over lay plan.now source.now target.old }
{
    let mut words = [0u64; WORDS];
    let accepted = transpose_checks(lay, plan, source, target, &mut words)?;
    let h = accepted.view.header;
    transpose_in(source, lay, h.n1, h.n2, target);
    Ok(())
}
