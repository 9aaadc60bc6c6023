// The generator of the house table (document 02, request d): the column table of the house plan in decimal, one entry a line, worked out from
// the house polynomial. It does not look at the constant.
#![tactic(auto)]

ghost use Rattle.std.specs.Prelude.{◌≤◌, length};
ghost use Rattle.text.specs.Text.{lines_text, Printed};
ghost use Rattle.house.specs.House.{house_columns};

use gf2::powers::fill_powers;
use house::{DEGREE, ENTRIES, LOW};
use std::io::Print;
use text::put_lines;

// The text of the table, at the start of out.
fn table_text(out: &mut [u8]) -> usize
    requires { 65536 ≤ length out.old }
    ensures { Printed (lines_text house_columns) out.new result }
{
    let mut words = [0u64; ENTRIES];
    fill_powers(DEGREE, LOW, ENTRIES, &mut words);
    put_lines(out, 0, &words)
}

// A write that fails ends the program.
fn main(rt: HostRuntime) {
    let mut out = [0u8; 65536];
    let end = table_text(&mut out);
    let _ = rt.write_all(&out[..end]);
}
