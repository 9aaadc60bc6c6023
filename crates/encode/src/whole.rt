// A whole plan.
ghost use Rattle.std.specs.Prelude.{◌≡◌, ◌/◌, ◌%◌, length};
ghost use Rattle.plan.specs.Header.{Small, ruled, plan_length};
ghost use Rattle.plan.specs.Bytes.{code_from};
ghost use Rattle.plan.specs.Table.{word_at};
ghost use Rattle.encode.specs.Encode.{plan_bytes};

use crate::parts::{put_header, put_list, put_table};
use plan::header::{Header, LENGTH};
use plan::table::WORDS;

// The bytes of a plan with this header, these tables and these check cells, each cell a number in sheet order.
pub fn encode(
    h: Header,
    rows: &[u64; WORDS],
    columns: &[u64; WORDS],
    cells: &[usize; 64],
    plan: &mut [u8],
)
    requires small { Small h }
    requires h_value { h ≡ ruled h }
    requires plan_len { length plan.old ≡ plan_length h }
    ensures { plan.new
        ≡ plan_bytes h (code_from h (word_at rows.now) (word_at columns.now)
        (λ k. word_at cells.now k / h.n2) (λ k. word_at cells.now k % h.n2)) }
{
    put_header(h, plan);
    put_table(rows, h.n1 * h.b2, LENGTH, plan);
    put_table(columns, h.n2 * h.b1, h.columns, plan);
    put_list(cells, h.n2, h.rv + h.rh, h.checks, plan);
}
