// Cells in bytes: one row after the other, column 0 in the lowest bit of a row's first byte.
ghost use Rattle.std.specs.Prelude.{◌≡◌, ◌^◌, ◌≤◌, ◌<◌, length, replicate};
ghost use Rattle.layout.specs.Cells.{row_bytes, sheet_bytes, byte_of, cell_of, first_unused, turned, turned_if, byte_turned};

// The bytes of a row of n2 cells. Not by `div_ceil`: it takes the remainder too, 5 instructions where this takes 2, at each cell looked up.
pub fn row_bytes(n2: usize) -> usize
    requires { n2 ≤ 1000000 }
    ensures { result ≡ row_bytes n2 }
{
    (n2 + 7) / 8
}

// The byte that holds a cell.
pub fn byte_of(n2: usize, i: usize, j: usize) -> usize
    requires { (n2 ≤ 1000000) × (byte_of n2 i j < 2 ^ 64) }
    ensures { result ≡ byte_of n2 i j }
{
    i * row_bytes(n2) + j / 8
}

// Cell (i, j).
pub fn cell(s: &[u8], n2: usize, i: usize, j: usize) -> bool
    requires { (n2 ≤ 1000000) × (byte_of n2 i j < length s.now) }
    ensures { result ≡ cell_of n2 s.now i j }
{
    let k = byte_of(n2, i, j);
    (s[k] >> (j % 8)) % 2 == 1
}

// Turns cell (i, j) over.
pub fn turn(s: &mut [u8], n2: usize, i: usize, j: usize)
    requires { (n2 ≤ 1000000) × (byte_of n2 i j < length s.old) }
    ensures { s.new ≡ turned n2 s.old i j }
{
    let k = byte_of(n2, i, j);
    s[k] ^= 1 << (j % 8);
}

// Turns cell (i, j) over if it is asked for; no branch.
pub fn turn_if(s: &mut [u8], n2: usize, i: usize, j: usize, asked: bool)
    requires { (n2 ≤ 1000000) × (byte_of n2 i j < length s.old) }
    ensures { s.new ≡ turned_if asked n2 s.old i j }
{
    let k = byte_of(n2, i, j);
    s[k] ^= u8::from(asked) << (j % 8);
}

// What byte k becomes, of the value x, if cell (i, j) is turned over where that is asked for: another byte stays as it is.
pub fn byte_turned(x: u8, k: usize, n2: usize, i: usize, j: usize, asked: bool) -> u8
    requires { (n2 ≤ 1000000) × (byte_of n2 i j < 2 ^ 64) }
    ensures { result ≡ byte_turned asked n2 i j k x }
{
    if byte_of(n2, i, j) != k {
        return x;
    }
    x ^ (u8::from(asked) << (j % 8))
}

// All cells light.
pub fn clear(s: &mut [u8])
    ensures { s.new ≡ replicate (length s.old) 0 }
{
    s.fill(0);
}

// The first byte with an unused bit that is 1, or the number of bytes. Only the last byte of a row has unused bits.
pub fn first_unused(s: &[u8], n1: usize, n2: usize) -> usize
    requires { (n2 ≤ 1000000) × (length s.now ≡ sheet_bytes n1 n2) }
    ensures { result ≡ first_unused n1 n2 s.now }
{
    let size = row_bytes(n2);
    if size == 0 {
        return 0;
    }
    let limit = 1usize << (n2 + 8 - 8 * size);
    for i in 0..n1 {
        let k = i * size + (size - 1);
        if limit <= usize::from(s[k]) {
            return k;
        }
    }
    s.len()
}
