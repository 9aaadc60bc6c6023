// Making a plan: all checks first, and then every byte of it.
ghost use Rattle.std.specs.Prelude.{◌≡◌, length};
ghost use Rattle.plan.specs.Verdict.{◌or_else◌, told};
ghost use Rattle.plan.specs.Header.{Small, ruled, plan_length};
ghost use Rattle.plan.specs.declared.table.Table.TheVariants.{Rows, Columns};
ghost use Rattle.plan.specs.Table.{word_at};
ghost use Rattle.accept.specs.Windows.{table_verdict};
ghost use Rattle.encode.specs.Encode.{plan_bytes};
ghost use Rattle.maker.specs.Taken.{Tables};
ghost use Rattle.maker.specs.Make.{header_for, made_code, taken_verdict, given_checks, made, outcome, make};
ghost use Rattle.maker.specs.Steps.{PowerTables};

use crate::parameters::{Parameters, given_checks, numbers};
use crate::taking::take_cells;
use accept::conditions::table_verdict;
use encode::whole::encode;
use gf2::powers::fill_powers;
use plan::header::{Header, ruled};
use plan::table::{Table, WORDS};
use plan::verdict::{Refusal, refuse_if};

// Checks 8 and 9 of the two tables.
fn tables_verdict(h: Header, rows: &[u64; WORDS], columns: &[u64; WORDS]) -> Result<(), Refusal>
    requires small { Small h }
    requires tables { Tables h rows.now columns.now }
    ensures { told result ≡ (table_verdict h Rows (word_at rows.now) or_else table_verdict h Columns (word_at columns.now)) }
{
    let mut rest = [0u64; WORDS];
    table_verdict(h, Table::Rows, rows, &mut rest)?;
    table_verdict(h, Table::Columns, columns, &mut rest)
}

// The check cells of two tables, check 16, and the bytes of the plan.
fn finish(
    h: Header,
    rows: &[u64; WORDS],
    columns: &[u64; WORDS],
    plan: &mut [u8],
) -> Result<(), Refusal>
    requires small { Small h }
    requires h_value { h ≡ ruled h }
    requires tables { Tables h rows.now columns.now }
    requires plan_len { length plan.old ≡ plan_length h }
    ensures { let v = word_at rows.now in let w = word_at columns.now in
        made (told result) plan.new ≡ outcome (taken_verdict h v w) (plan_bytes h (made_code h v w)) plan.old }
{
    let taken = take_cells(h, rows, columns);
    refuse_if(taken.count < h.rv + h.rh, Refusal::FewCheckCells)?;
    let cells = taken.cells;
    encode(h, rows, columns, &cells, plan);
    Ok(())
}

// Makes the plan from its two tables, or turns back: checks 8, 9 and 16, once those of the numbers have passed.
pub fn make_filled(
    g: Parameters,
    rows: &[u64; WORDS],
    columns: &[u64; WORDS],
    plan: &mut [u8],
) -> Result<(), Refusal>
    requires plan_value { (given_checks g (length plan.old)).number ≡ 0 }
    requires power_tables { PowerTables g (header_for g) rows.now columns.now }
    ensures { made (told result) plan.new ≡ make g plan.old }
{
    let h = ruled(numbers(g));
    tables_verdict(h, rows, columns)?;
    finish(h, rows, columns, plan)
}

// Lays out the tables, once the checks of the numbers have passed: nothing is worked out before.
fn make_checked(g: Parameters, plan: &mut [u8]) -> Result<(), Refusal>
    requires { (given_checks g (length plan.old)).number ≡ 0 }
    ensures { made (told result) plan.new ≡ make g plan.old }
{
    let mut rows = [0u64; WORDS];
    let mut columns = [0u64; WORDS];
    fill_powers(g.rv, g.vlow, g.n1 * g.b2, &mut rows);
    fill_powers(g.rh, g.hlow, g.n2 * g.b1, &mut columns);
    make_filled(g, &rows, &columns, plan)
}

// Makes the plan, or turns back with the buffer as it was.
pub fn make(g: Parameters, plan: &mut [u8]) -> Result<(), Refusal>
    ensures { made (told result) plan.new ≡ make g plan.old }
{
    given_checks(g, plan.len())?;
    make_checked(g, plan)
}
