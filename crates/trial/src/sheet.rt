// The trial of a sheet: each rectangle in sheet order, each pattern in it by number, until one has the two sums that are asked for.
// Of a sheet's own two sums that is the first burst which, turned over, leaves both at 0.
ghost use Rattle.std.specs.Prelude.{◌≡◌};
ghost use Rattle.plan.specs.View.{code_in};
ghost use Rattle.mend.specs.Found.{first_burst};

use crate::rectangle::try_rectangle;
use mend::found::Burst;
use plan::view::View;

// The first burst by trial whose V sum is v and whose H sum is s.
pub fn try_all<'a>(view: View<'a>, v: u64, s: u64) -> Option<Burst>
    ensures { result ≡ first_burst (code_in view.entry) v s }
{
    let h = view.header;
    let tops = h.n1 - h.b1 + 1;
    let lefts = h.n2 - h.b2 + 1;
    let patterns = 1u64 << (h.b1 * h.b2);
    for top in 0..tops {
        for left in 0..lefts {
            let pattern = try_rectangle(view, top, left, v, s);
            if pattern < patterns {
                return Some(Burst { top, left, pattern });
            }
        }
    }
    None
}
