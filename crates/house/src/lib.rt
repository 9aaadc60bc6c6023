// The column table of the house plan, held in the program as a constant (document 02, request d): 512 rows, 698 columns, bursts of 3 by 3.
#![tactic(auto)]

mod constant;

ghost use Rattle.std.specs.Prelude.{◌≡◌, ◌≤◌, length};
ghost use Rattle.gf2.specs.Powers.{PowersIn};
ghost use Rattle.house.specs.House.{house_polynomial, house_entries, house_columns};

use crate::constant::COLUMNS;

// The house polynomial of the columns: its degree, and the coefficients below it.
pub const DEGREE: usize = 14;

pub const LOW: u64 = 0x8f7;

// How many entries the table has: 3 for each of 698 columns.
pub const ENTRIES: usize = 2094;

// The table: its first entry is 1, and each after it is z times the one before, modulo the house polynomial.
pub fn columns() -> [u32; ENTRIES]
    ensures { result ≡ house_columns }
{
    COLUMNS
}

// The table into the first words, as gf2::powers::fill_powers would lay it out.
pub fn lay_columns(words: &mut [u64])
    requires { house_entries ≤ length words.old }
    ensures { PowersIn house_polynomial house_entries words.old words.new }
{
    let table = columns();
    for (k, entry) in table.iter().enumerate() {
        let word = u64::from(*entry);
        words[k] = word;
    }
}
