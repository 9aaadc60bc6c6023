// The window fit: the pattern in a window, b1 consecutive rows, that makes the V sum.
ghost use Rattle.std.specs.Prelude.{◌≡◌, ◌+◌, ◌≤◌, ◌<◌};
ghost use Rattle.plan.specs.View.{code_in};
ghost use Rattle.mend.specs.Window.{Gathered, first_fit};

use crate::few::few_fit;
use gf2::find_combination;
use plan::view::{Accepted, View};

// The V entries of the window at row i; zeros after them.
fn gather<'a>(view: View<'a>, i: usize) -> [u64; 16]
    requires b1_bound { i + view.header.b1 ≤ view.header.n1 }
    ensures { Gathered (code_in view.entry) i result }
{
    let h = view.header;
    let mut words = [0u64; 16];
    let first = i * h.b2;
    let size = h.b1 * h.b2;
    for (k, word) in words[..size].iter_mut().enumerate() {
        *word = view.row_entry(first + k);
    }
    words
}

// The pattern in the window at row i whose V sum is v, by remainders: digit r × b2 + t stands for row i + r and remainder t modulo b2.
// Or that there is none.
pub fn window_fit<'a>(accepted: Accepted<'a>, i: usize, v: u64) -> Option<u64>
    requires b1_bound { i + accepted.view.header.b1 ≤ accepted.view.header.n1 }
    ensures { result ≡ first_fit (code_in accepted.entry.view) i v }
{
    let view = accepted.view;
    let h = view.header;
    let words = gather(view, i);
    let size = h.b1 * h.b2;
    if h.t != 0 {
        return few_fit(&words[..size], h.t, v);
    }
    find_combination(&words[..size], v)
}
