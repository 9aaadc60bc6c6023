// The two lines that the program prints.
ghost use Rattle.std.specs.Prelude.{[], ◌∷◌, ◌+◌, ◌*◌, ◌≤◌, length};
ghost use Rattle.text.specs.Text.{Put};
ghost use Rattle.line.specs.Line.{data_field, numbers, ok_line, no_line};

use mend::report::Report;
use plan::verdict::Verdict;
use text::{put_byte, put_field, put_hexes};

// A word of two letters.
fn put_word(out: &mut [u8], a: u8, b: u8) -> usize
    requires { 2 ≤ length out.old }
    ensures { Put out.old 0 (a ∷ b ∷ []) out.new result }
{
    let m = put_byte(out, 0, a);
    put_byte(out, m, b)
}

// The six numbers of a report: each field is at most 21 bytes, a space and 20 digits.
fn put_numbers(out: &mut [u8], n: usize, r: Report) -> usize
    requires { n + 126 ≤ length out.old }
    ensures put { Put out.old n (numbers r) out.new result }
    ensures upper_bound { result ≤ n + 126 }
{
    let a = put_field(out, n, r.cells);
    let b = put_field(out, a, r.top);
    let c = put_field(out, b, r.left);
    let d = put_field(out, c, r.height);
    let e = put_field(out, d, r.width);
    put_field(out, e, r.pattern)
}

// The data, where there is any.
fn put_data(out: &mut [u8], n: usize, bits: &[u8]) -> usize
    requires { n + 1 + 2 * length bits.now ≤ length out.old }
    ensures put { Put out.old n (data_field bits.now) out.new result }
    ensures upper_bound { result ≤ n + 1 + 2 * length bits.now }
{
    if bits.is_empty() {
        return n;
    }
    let m = put_byte(out, n, 32);
    put_hexes(out, m, bits)
}

// The line of a sheet that was read.
pub fn put_ok(out: &mut [u8], r: Report, bits: &[u8]) -> usize
    requires { 160 + 2 * length bits.now ≤ length out.old }
    ensures put { Put out.old 0 (ok_line r bits.now) out.new result }
    ensures upper_bound { result ≤ length out.old }
{
    let a = put_word(out, 111, 107);
    let b = put_numbers(out, a, r);
    let c = put_data(out, b, bits);
    put_byte(out, c, 10)
}

// The line of a refusal.
pub fn put_no(out: &mut [u8], v: Verdict) -> usize
    requires { 160 ≤ length out.old }
    ensures put { Put out.old 0 (no_line v) out.new result }
    ensures upper_bound { result ≤ length out.old }
{
    let a = put_word(out, 110, 111);
    let b = put_field(out, a, v.number);
    let c = put_field(out, b, v.p);
    let d = put_field(out, c, v.q);
    put_byte(out, d, 10)
}
