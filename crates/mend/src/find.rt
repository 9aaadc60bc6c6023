// The burst for two sums. The first window that has a pattern with the V sum decides: no other pattern has that sum
// (proofs/Decision.antt), so only the strips of this one are tried.
ghost use Rattle.std.specs.Prelude.{◌≡◌, ◌+◌, ◌-◌};
ghost use Rattle.plan.specs.View.{code_in};
ghost use Rattle.plan.specs.Table.{Unpacked, word_at};
ghost use Rattle.mend.specs.Search.{search_from};
ghost use Rattle.mend.specs.Found.{FoundFor};

use crate::fit::window_fit;
use crate::found::Burst;
use crate::strip::on_strips;
use plan::view::Accepted;

// The search over the windows: a fit that fails leaves early, and only a pattern goes on to the strips.
fn search<'a>(accepted: Accepted<'a>, columns: &[u64], v: u64, s: u64) -> Option<Burst>
    requires unpacked { Unpacked accepted.view.plan.now accepted.view.header columns.now }
    ensures { let h = accepted.entry.view.header in
        result ≡ search_from accepted.entry.view.plan.now h (word_at columns.now) v s 0 (h.n1 - h.b1 + 1) }
{
    let h = accepted.view.header;
    let count = h.n1 - h.b1 + 1;
    for i in 0..count {
        let Some(x) = window_fit(accepted, i, v) else {
            continue;
        };
        return on_strips(columns, h, i, x, s);
    }
    None
}

// The burst whose V sum is v and whose H sum is s, under an accepted plan with its column table unpacked.
// Every window has the empty pattern, so a V sum of 0 is no matter of a search: only the empty burst has it, and its H sum is 0.
pub fn find<'a>(accepted: Accepted<'a>, columns: &[u64], v: u64, s: u64) -> Option<Burst>
    requires unpacked { Unpacked accepted.view.plan.now accepted.view.header columns.now }
    ensures { FoundFor (code_in accepted.entry.view) v s result }
{
    if v != 0 {
        return search(accepted, columns, v, s);
    }
    if s != 0 {
        return None;
    }
    Some(Burst {
        top: 0,
        left: 0,
        pattern: 0,
    })
}
