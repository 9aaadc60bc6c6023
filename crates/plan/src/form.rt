// The rules of form: checks 1 to 7 of document 01.
ghost use Rattle.std.specs.Prelude.{IfOk, ◌≡◌, ◌+◌, ◌*◌, ◌≤◌, ◌<◌};
ghost use Rattle.finite.specs.Search.{least};
ghost use Rattle.plan.specs.Header.{Small};
ghost use Rattle.plan.specs.View.{code_in};
ghost use Rattle.plan.specs.Table.{entries_of, entry_of};
ghost use Rattle.plan.specs.Form.{bad_burst, bad_sheet, bad_widths, bad_cells, bad_offsets, sizes_verdict, offsets_verdict, fields_verdict};
ghost use Rattle.plan.specs.declared.verdict.Refusal.TheVariants.{LargeEntry};
ghost use Rattle.plan.specs.Verdict.{refusal_of, told};
ghost use Rattle.plan.specs.Form.{verdict_at, header_verdict, first_large, entries_verdict, rises, bad_pair, list_verdict, form_verdict};

use crate::entry::header_of;
use crate::header::{Header, LENGTH, ruled};
use crate::table::{Table, entries};
use crate::verdict::{Refusal, refuse_if};
use crate::view::View;

// Check 2: the burst's size.
fn bad_burst(h: Header) -> bool
    ensures { result ≡ bad_burst h }
{
    (h.b1 == 0) | (4 < h.b1) | (h.b2 == 0) | (4 < h.b2)
}

// Check 3: the sheet's size.
fn bad_sheet(h: Header) -> bool
    ensures { result ≡ bad_sheet h }
{
    (h.n1 < h.b1) | (512 < h.n1) | (h.n2 < h.b2) | (698 < h.n2)
}

// Check 4: how many bits the entries have.
fn bad_widths(h: Header) -> bool
    ensures { result ≡ bad_widths h }
{
    (h.rv == 0) | (32 < h.rv) | (h.rh == 0) | (32 < h.rh)
}

// Check 23: how many cells a burst may have.
fn bad_cells(h: Header) -> bool
    ensures { result ≡ bad_cells h }
{
    2 < h.t
}

// Check 5: where the tables begin, and the length, as the field says and as it is.
fn bad_offsets(size: usize, h: Header) -> bool
    requires { Small h }
    ensures { result ≡ bad_offsets size h }
{
    let by_rule = ruled(h);
    (h.rows != by_rule.rows)
        | (h.columns != by_rule.columns)
        | (h.checks != by_rule.checks)
        | (h.total != by_rule.total)
        | (size != by_rule.total)
}

// Checks 2 to 4 and 23: the seven numbers of a header, with or without a plan.
pub fn sizes_verdict(h: Header) -> Result<(), Refusal>
    ensures { told result ≡ sizes_verdict h }
{
    refuse_if(bad_burst(h), Refusal::BurstSize)?;
    refuse_if(bad_sheet(h), Refusal::SheetSize)?;
    refuse_if(bad_widths(h), Refusal::EntryWidths)?;
    refuse_if(bad_cells(h), Refusal::BurstCells)
}

// Check 5, of a plan of size bytes. The sizes come first: the rule's sums then can't wrap.
pub fn offsets_verdict(size: usize, h: Header) -> Result<(), Refusal>
    requires { Small h }
    ensures { told result ≡ offsets_verdict size h }
{
    refuse_if(bad_offsets(size, h), Refusal::Offsets)
}

// Checks 2 to 5, of the header of a plan of size bytes.
fn fields_verdict(size: usize, h: Header) -> Result<(), Refusal>
    ensures { told result ≡ fields_verdict size h }
{
    sizes_verdict(h)?;
    offsets_verdict(size, h)
}

// Checks 1 to 5.
pub fn header_verdict<'a>(plan: &'a [u8]) -> Result<View<'a>, Refusal>
    ensures told { told result ≡ header_verdict plan.now }
    ensures view { IfOk result (λ v. v.plan.now ≡ plan.now) }
    ensures lent { IfOk result (λ v. v.plan ≡ plan.entry) }
{
    if plan.len() < LENGTH {
        return Err(Refusal::ShortPlan);
    }
    let header = header_of(plan);
    fields_verdict(plan.len(), header)?;
    Ok(View { plan, header })
}

// The first of count entries of a table that has more than width bits, or count.
fn first_large<'a>(view: View<'a>, t: Table, count: usize, width: usize) -> usize
    requires { (count ≤ entries_of view.header t) × (width ≤ 32) }
    ensures { result ≡ first_large count width (entry_of view.entry.plan.now view.entry.header t) }
{
    let limit = 1u64 << width;
    for k in 0..count {
        if limit <= view.entry(t, k) {
            return k;
        }
    }
    count
}

// Check 6 of a table.
fn table_verdict<'a>(view: View<'a>, t: Table, width: usize) -> Result<(), Refusal>
    requires { width ≤ 32 }
    ensures { let n = entries_of view.entry.header t in
        let k = first_large n width (entry_of view.entry.plan.now view.entry.header t) in
        told result ≡ verdict_at n k (refusal_of (LargeEntry t k)) }
{
    let count = entries(view.header, t);
    let k = first_large(view, t, count, width);
    refuse_if(k < count, Refusal::LargeEntry(t, k))
}

// Check 6: V and then H.
pub fn entries_verdict<'a>(view: View<'a>) -> Result<(), Refusal>
    ensures { told result ≡ entries_verdict (code_in view.entry) }
{
    table_verdict(view, Table::Rows, view.header.rv)?;
    table_verdict(view, Table::Columns, view.header.rh)
}

// A pair of the check list comes after the one before it.
fn pair_rises<'a>(view: View<'a>, k: usize) -> bool
    requires { k < view.header.rv + view.header.rh }
    ensures { result ≡ rises (code_in view.entry) k }
{
    if k == 0 {
        return true;
    }
    let before = view.check_cell(k - 1);
    let here = view.check_cell(k);
    (before.row < here.row) | ((before.row == here.row) & (before.column < here.column))
}

// A pair of the check list is off the sheet or out of order.
fn bad_pair<'a>(view: View<'a>, k: usize) -> bool
    requires { k < view.header.rv + view.header.rh }
    ensures { result ≡ bad_pair (code_in view.entry) k }
{
    let here = view.check_cell(k);
    (view.header.n1 <= here.row) | (view.header.n2 <= here.column) | !pair_rises(view, k)
}

// The first such pair, or the length of the list.
fn first_bad_pair<'a>(view: View<'a>) -> usize
    ensures { result ≡ least (view.entry.header.rv + view.entry.header.rh) (bad_pair (code_in view.entry)) }
{
    let count = view.header.rv + view.header.rh;
    for k in 0..count {
        if bad_pair(view, k) {
            return k;
        }
    }
    count
}

// Check 7.
pub fn list_verdict<'a>(view: View<'a>) -> Result<(), Refusal>
    ensures { told result ≡ list_verdict (code_in view.entry) }
{
    let k = first_bad_pair(view);
    refuse_if(k < view.header.rv + view.header.rh, Refusal::CheckList(k))
}

// Checks 1 to 7.
pub fn form_verdict<'a>(plan: &'a [u8]) -> Result<View<'a>, Refusal>
    ensures told { told result ≡ form_verdict plan.now }
    ensures view { IfOk result (λ v. v.plan.now ≡ plan.now) }
    ensures lent { IfOk result (λ v. v.plan ≡ plan.entry) }
{
    let view = header_verdict(plan)?;
    entries_verdict(view)?;
    list_verdict(view)?;
    Ok(view)
}
