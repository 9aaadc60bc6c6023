// Text in a buffer of bytes: each function writes from place n on, and gives the place after what it wrote.
#![tactic(auto)]

ghost use Rattle.std.specs.Prelude.{◌≡◌, [], ◌∷◌, ◌+◌, ◌*◌, ◌≤◌, ◌<◌, length};
ghost use Rattle.text.specs.Text.{digit_of, decimal_bytes, field, hex_bytes, hex_text, line_bytes, lines_text, Put};

// One byte. (Std writes a byte by `out[n] = b` alone: this promises `Put`, as the others do.)
pub fn put_byte(out: &mut [u8], n: usize, b: u8) -> usize
    requires { n < length out.old }
    ensures { Put out.old n (b ∷ []) out.new result }
{
    out[n] = b;
    n + 1
}

// A digit as a character, hexadecimal digits in small letters. (Std's `char::from_digit` gives an `Option<char>`: no plainer.)
pub fn digit(d: u8) -> u8
    requires { d < 16 }
    ensures { result ≡ digit_of d }
{
    if d < 10 { 48 + d } else { 87 + d }
}

// A number in decimal: the last digit after all the others.
pub fn put_decimal(out: &mut [u8], n: usize, x: usize) -> usize
    requires { n + 20 ≤ length out.old }
    ensures { Put out.old n (decimal_bytes x) out.new result }
{
    if x < 10 {
        return put_byte(out, n, digit(x as u8));
    }
    let m = put_decimal(out, n, x / 10);
    put_byte(out, m, digit((x % 10) as u8))
}

// A space and a number.
pub fn put_field(out: &mut [u8], n: usize, x: usize) -> usize
    requires { n + 21 ≤ length out.old }
    ensures put { Put out.old n (field x) out.new result }
    ensures upper_bound { result ≤ n + 21 }
{
    let m = put_byte(out, n, 32);
    put_decimal(out, m, x)
}

// A byte as two hexadecimal digits.
pub fn put_hex(out: &mut [u8], n: usize, b: u8) -> usize
    requires { n + 2 ≤ length out.old }
    ensures { Put out.old n (hex_bytes b) out.new result }
{
    let m = put_byte(out, n, digit(b / 16));
    put_byte(out, m, digit(b % 16))
}

// Every byte of a slice, with nothing between.
pub fn put_hexes(out: &mut [u8], n: usize, s: &[u8]) -> usize
    requires { n + 2 * length s.now ≤ length out.old }
    ensures { Put out.old n (hex_text s.now) out.new result }
{
    let mut m = n;
    for b in s {
        m = put_hex(out, m, *b);
    }
    m
}

// A number and a line feed.
pub fn put_line(out: &mut [u8], n: usize, x: usize) -> usize
    requires { n + 21 ≤ length out.old }
    ensures put { Put out.old n (line_bytes x) out.new result }
    ensures upper_bound { result ≤ n + 21 }
{
    let m = put_decimal(out, n, x);
    put_byte(out, m, 10)
}

// Every number of a slice on a line of its own.
pub fn put_lines(out: &mut [u8], n: usize, s: &[u64]) -> usize
    requires { n + 21 * length s.now ≤ length out.old }
    ensures put { Put out.old n (lines_text s.now) out.new result }
    ensures upper_bound { result ≤ n + 21 * length s.now }
{
    let mut m = n;
    for x in s {
        m = put_line(out, m, *x as usize);
    }
    m
}
