// The two tables of a plan, and a table unpacked into words.
ghost use Rattle.std.specs.Prelude.{◌≡◌, ◌<◌, length};
ghost use Rattle.plan.specs.Header.{Small};
ghost use Rattle.plan.specs.Bytes.{Weight};
ghost use Rattle.plan.specs.Table.{entries_of, entry_of, EntriesIn};

use crate::header::Header;
use crate::view::View;

// The row table V, the column table H.
#[derive(Clone, Copy)]
pub enum Table {
    Rows,
    Columns,
}

// Words for either table: there are at most 698 columns, with 4 entries each.
pub const WORDS: usize = 2792;

// How many entries a table has.
pub fn entries(h: Header, t: Table) -> usize
    requires { Small h }
    ensures { result ≡ entries_of h t }
{
    match t {
        Table::Rows => h.n1 * h.b2,
        Table::Columns => h.n2 * h.b1,
    }
}

impl<'a> View<'a> {
    // The entry at a position of a table.
    pub fn entry(self, t: Table, k: usize) -> u64
        requires { k < entries_of self.header t }
        ensures { Weight (entry_of self.entry.plan.now self.entry.header t k) result }
    {
        match t {
            Table::Rows => self.row_entry(k),
            Table::Columns => self.column_entry(k),
        }
    }

    // A table into the first words.
    pub fn unpack(self, t: Table, words: &mut [u64; WORDS])
        ensures { EntriesIn self.entry.plan.now self.entry.header t words.new }
    {
        let count = entries(self.header, t);
        for k in 0..count {
            words[k] = self.entry(t, k);
        }
    }
}
