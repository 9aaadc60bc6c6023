// The plan through a small view over its bytes: the bytes, and the numbers of its header. Only here is a place in a plan's tables computed.
ghost use Rattle.std.specs.Prelude.{◌≡◌, ◌+◌, ◌*◌, ◌≤◌, ◌<◌, length};
ghost use Rattle.layout.specs.Number.{Number32};
ghost use Rattle.boxcode.specs.Code.{row_weight, column_weight};
ghost use Rattle.plan.specs.Header.{Framed, header_length, header_of, columns_start};
ghost use Rattle.plan.specs.Accepted.{AcceptedWith};
ghost use Rattle.plan.specs.Bytes.{code_with, Weight, CheckCell};

use crate::header::{Header, read};
use layout::number::{u16_at, u32_at};

// A plan of which nothing is known but that it has a header: its bytes, and the numbers of the header.
#[derive(Clone, Copy)]
pub struct Unchecked<'a> {
    pub plan: &'a [u8],
    pub header: Header,
}

// A plan that passed checks 1 to 5 and 23: its bytes, and its header.
#[derive(Clone, Copy)]
pub struct View<'a> {
    pub plan: &'a [u8],
    pub header: Header,
    pub ghost framed: { Framed plan.now header },
}

// A plan that passed its test, checks 1 to 10.
#[derive(Clone, Copy)]
pub struct Accepted<'a> {
    pub view: View<'a>,
    pub ghost accepted: { AcceptedWith view.plan.now view.header },
}

// A check cell: a pair of the check list.
#[derive(Clone, Copy)]
pub struct Cell {
    pub row: usize,
    pub column: usize,
}

// The bytes of a plan that has a header, and the header's numbers.
pub fn over<'a>(plan: &'a [u8]) -> Unchecked<'a>
    requires { header_length ≤ length plan.now }
    ensures { (result.plan ≡ plan.entry) × (result.header ≡ header_of plan.now) }
{
    Unchecked {
        plan,
        header: read(plan),
    }
}

impl<'a> View<'a> {
    // The entry at a position of the row table V.
    pub fn row_entry(self, k: usize) -> u64
        requires { k < self.header.n1 * self.header.b2 }
        ensures { Number32 self.entry.plan.now (header_length + 4 * k) result }
    {
        u32_at(self.plan, self.header.rows + 4 * k)
    }

    // The entry at a position of the column table H.
    pub fn column_entry(self, k: usize) -> u64
        requires { k < self.header.n2 * self.header.b1 }
        ensures { Number32 self.entry.plan.now (columns_start self.entry.header + 4 * k) result }
    {
        u32_at(self.plan, self.header.columns + 4 * k)
    }

    // The check cell at a position of the check list.
    pub fn check_cell(self, k: usize) -> Cell
        requires { k < self.header.rv + self.header.rh }
        ensures { CheckCell self.entry.plan.now self.entry.header k result }
    {
        let at = self.header.checks + 4 * k;
        let row = u16_at(self.plan, at);
        let column = u16_at(self.plan, at + 2);
        Cell { row, column }
    }

    // The V entry of a cell.
    pub fn row_weight(self, i: usize, j: usize) -> u64
        requires { i < self.header.n1 }
        ensures { Weight (row_weight (code_with self.entry.plan.now self.entry.header) i j) result }
    {
        let h = self.header;
        self.row_entry(i * h.b2 + j % h.b2)
    }

    // The H entry of a cell.
    pub fn column_weight(self, i: usize, j: usize) -> u64
        requires { j < self.header.n2 }
        ensures { Weight (column_weight (code_with self.entry.plan.now self.entry.header) i j) result }
    {
        let h = self.header;
        self.column_entry(j * h.b1 + i % h.b1)
    }
}
