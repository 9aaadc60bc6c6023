// The line that the program prints, from the bytes that it is given.
ghost use Rattle.std.specs.Prelude.{◌≡◌, ◌+◌, ◌*◌, ◌≤◌, length};
ghost use Rattle.reader.specs.Read.{read_outcome};
ghost use Rattle.text.specs.Text.{Put, Printed};
ghost use Rattle.line.specs.Line.{line_from, line_of};
ghost use Rattle.line.specs.Parts.{Room};

use crate::parts::{copy, data_bytes, plan_size};
use crate::print::{put_no, put_ok};
use layout::cells::clear;
use layout::stored::Layout;
use reader::read::read;
use reader::search::Search;

// Room for the longest line: 160 bytes, and two for each of 44,672 bytes of data.
pub fn line_buffer() -> [u8; 89504]
    ensures { 89504 ≡ length result }
{
    [0; 89504]
}

// The read of one sheet, and its line.
fn read_line(by: Search, plan: &[u8], sheet: &mut [u8], bits: &mut [u8], out: &mut [u8]) -> usize
    requires { 160 + 2 * length bits.old ≤ length out.old }
    ensures put { Put out.old 0 (line_from (read_outcome plan.now sheet.old bits.old)) out.new result }
    ensures upper_bound { result ≤ length out.old }
{
    match read(by, Layout::ByRow, plan, sheet, bits) {
        Ok(report) => put_ok(out, report, bits),
        Err(refusal) => put_no(out, refusal.told()),
    }
}

// The line, at the start of out, the same whichever way the burst is searched for. The sheet is read in a copy, so that the input stays as it is.
pub fn line(by: Search, input: &[u8], sheet: &mut [u8], bits: &mut [u8], out: &mut [u8]) -> usize
    requires { Room input.now sheet.old bits.old out.old }
    ensures { Printed (line_of input.now) out.new result }
{
    let n = plan_size(input);
    let plan = &input[..n];
    let m = copy(&input[n..], sheet);
    let k = data_bytes(plan);
    clear(bits);
    read_line(by, plan, &mut sheet[..m], &mut bits[..k], out)
}
