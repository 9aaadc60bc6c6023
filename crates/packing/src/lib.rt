// The reader's answer as one 64-bit number.
#![tactic(auto)]

ghost use Rattle.std.specs.Prelude.{◌≡◌};
ghost use Rattle.answer.specs.Answer.{InRange, packed};
ghost use Rattle.packing.specs.Packed.{report_fields};

use answer::{Answer, pack};
use mend::report::Report;
use plan::verdict::Verdict;

// A number with its places, and a report.
pub fn pack_report(v: Verdict, r: Report) -> u64
    requires { InRange (report_fields v r) }
    ensures { result ≡ packed (report_fields v r) }
{
    pack(Answer {
        number: v.number,
        p: v.p,
        q: v.q,
        cells: r.cells,
        top: r.top,
        left: r.left,
        height: r.height,
        width: r.width,
        pattern: r.pattern,
    })
}
