// Checks 8 and 9: the conditions on rows and on columns, each a search over one table.
ghost use Rattle.std.specs.Prelude.{◌≡◌, ◌+◌, ◌-◌, ◌*◌, ◌≤◌, length};
ghost use Rattle.gf2.specs.Powers.{Digits32};
ghost use Rattle.plan.specs.Header.{Small};
ghost use Rattle.plan.specs.View.{code_in};
ghost use Rattle.plan.specs.Verdict.{told};
ghost use Rattle.plan.specs.Table.{entries_of, word_at, EntriesIn};
ghost use Rattle.accept.specs.Pairs.{first_failing, pair_verdict};
ghost use Rattle.accept.specs.Windows.{table_pass, start_of, Windows, Entries32, table_verdict, condition_number, condition_of};

use crate::few::few_failing;
use crate::pairs::pair_refusal;
use crate::search::first_failing;
use plan::header::Header;
use plan::table::{Table, WORDS};
use plan::verdict::Refusal;
use plan::view::View;

// Of a table in windows: by sets of at most most entries, or where most is 0 by independence.
fn failing(
    t: Table,
    words: &[u64],
    step: usize,
    size: usize,
    count: usize,
    most: usize,
    rest: &mut [u64],
) -> Option<(usize, usize)>
    requires windows { Windows (length words.now) step size count × (length rest.old ≡ length words.now) }
    requires step_le_size { (step ≤ size) × (most ≤ 2) × Digits32 words.now }
    ensures { result ≡ first_failing (table_pass t (word_at words.now) most (length words.now) step size) (start_of t) count }
{
    if most == 0 {
        return first_failing(t, words, step, size, count, rest);
    }
    few_failing(t, words, step, size, count, most, rest)
}

// Of a table of lines with step words each, in windows of burst lines. Rest is room to work in.
fn lines_verdict(
    t: Table,
    lines: usize,
    burst: usize,
    step: usize,
    most: usize,
    words: &[u64; WORDS],
    rest: &mut [u64; WORDS],
) -> Result<(), Refusal>
    requires le_burst { (1 ≤ burst) × (burst ≤ lines) × Windows (lines * step) step (burst * step) (lines - burst + 1) × (most ≤ 2) }
    requires entries32 { Entries32 (lines * step) words.now }
    ensures { told result ≡ pair_verdict (condition_number t) (first_failing (table_pass t (word_at words.now) most (lines * step) step (burst * step))
        (start_of t) (lines - burst + 1)) }
{
    let n = lines * step;
    let count = lines - burst + 1;
    pair_refusal(
        t,
        failing(
            t,
            &words[..n],
            step,
            burst * step,
            count,
            most,
            &mut rest[..n],
        ),
    )
}

// Check 8 of a row table in the first of the words, or check 9 of a column table.
pub fn table_verdict(
    h: Header,
    t: Table,
    words: &[u64; WORDS],
    rest: &mut [u64; WORDS],
) -> Result<(), Refusal>
    requires small { Small h }
    requires entries32 { Entries32 (entries_of h t) words.now }
    ensures { told result ≡ table_verdict h t (word_at words.now) }
{
    match t {
        Table::Rows => lines_verdict(t, h.n1, h.b1, h.b2, h.t, words, rest),
        Table::Columns => lines_verdict(t, h.n2, h.b2, h.b1, h.t, words, rest),
    }
}

// Check 8 or 9 of a plan. The table is unpacked into the lent words, and stays there.
pub fn condition_verdict<'a>(
    view: View<'a>,
    t: Table,
    words: &mut [u64; WORDS],
    rest: &mut [u64; WORDS],
) -> Result<(), Refusal>
    ensures told { told result ≡ condition_of (code_in view.entry) t }
    ensures words { EntriesIn view.entry.plan.now view.entry.header t words.new }
{
    view.unpack(t, words);
    table_verdict(view.header, t, words, rest)
}
