// What a check answers: nothing, or why the call is turned back. As it is told, that is 0 or a number of document 01's table, with two
// places.
ghost use Rattle.std.specs.Prelude.{◌≡◌};
ghost use Rattle.plan.specs.Verdict.{refusal_of, told, verdict_if};

use crate::table::Table;

// What is told of a check: 0 where it passed, or its number in document 01's table with two places.
#[derive(Clone, Copy)]
pub struct Verdict {
    pub number: usize,
    pub p: usize,
    pub q: usize,
}

// Why something is turned back: the check of document 01's table (and of 02's, from Polynomial on) that failed, with its places.
#[derive(Clone, Copy)]
pub enum Refusal {
    ShortPlan,
    BurstSize,
    SheetSize,
    EntryWidths,
    Offsets,
    LargeEntry(Table, usize),
    CheckList(usize),
    RowWindows(usize, usize),
    ColumnStrips(usize, usize),
    CheckCells(usize),
    SheetLength,
    DataLength,
    UnusedBits(usize),
    NoBurst,
    Polynomial,
    FewCheckCells,
    Position,
    Foreign,
    ScansDiffer,
    StackForm,
    NumbersLength,
    NotAnAnswer,
    BurstCells,
    SumsLength,
}

impl Refusal {
    // The number of the check and its places.
    pub fn told(self) -> Verdict
        ensures { result ≡ refusal_of self }
    {
        let (number, p, q) = match self {
            Refusal::ShortPlan => (1, 0, 0),
            Refusal::BurstSize => (2, 0, 0),
            Refusal::SheetSize => (3, 0, 0),
            Refusal::EntryWidths => (4, 0, 0),
            Refusal::Offsets => (5, 0, 0),
            Refusal::LargeEntry(t, k) => (6, t as usize, k),
            Refusal::CheckList(k) => (7, k, 0),
            Refusal::RowWindows(i, j) => (8, i, j),
            Refusal::ColumnStrips(a, b) => (9, a, b),
            Refusal::CheckCells(k) => (10, k, 0),
            Refusal::SheetLength => (11, 0, 0),
            Refusal::DataLength => (12, 0, 0),
            Refusal::UnusedBits(k) => (13, k, 0),
            Refusal::NoBurst => (14, 0, 0),
            Refusal::Polynomial => (15, 0, 0),
            Refusal::FewCheckCells => (16, 0, 0),
            Refusal::Position => (17, 0, 0),
            Refusal::Foreign => (18, 0, 0),
            Refusal::ScansDiffer => (19, 0, 0),
            Refusal::StackForm => (20, 0, 0),
            Refusal::NumbersLength => (21, 0, 0),
            Refusal::NotAnAnswer => (22, 0, 0),
            Refusal::BurstCells => (23, 0, 0),
            Refusal::SumsLength => (24, 0, 0),
        };
        Verdict { number, p, q }
    }
}

// What is told of a check, or of checks in a row.
pub fn told<T>(checked: &Result<T, Refusal>) -> Verdict
    ensures { result ≡ told checked.now }
{
    match checked {
        Ok(_) => Verdict {
            number: 0,
            p: 0,
            q: 0,
        },
        Err(refusal) => refusal.told(),
    }
}

// The refusal where the check fails.
pub fn refuse_if(bad: bool, refusal: Refusal) -> Result<(), Refusal>
    ensures { told result ≡ verdict_if bad (refusal_of refusal) }
{
    if bad { Err(refusal) } else { Ok(()) }
}
