// A burst turned over on a sheet.
ghost use Rattle.std.specs.Prelude.{◌≡◌, ◌<◌, length, get_or};
ghost use Rattle.layout.specs.Cells.{sheet_bytes};
ghost use Rattle.layout.specs.Stored.{size_in};
ghost use Rattle.layout.specs.declared.stored.Layout.TheVariants.{ByRow};
ghost use Rattle.mend.specs.Strip.{BurstSize};
ghost use Rattle.reader.specs.Turn.{Rectangle, box_turned};

use layout::cells::{byte_turned, row_bytes};
use layout::stored::{Layout, turn_in};

// Turns the cells of pattern number x over, in the rectangle of b1 rows and b2 columns at a top row and a left column:
// digit r × b2 + d stands for row top + r and column left + d.
pub fn turn_box(
    lay: Layout,
    sheet: &mut [u8],
    n1: usize,
    n2: usize,
    top: usize,
    left: usize,
    b1: usize,
    b2: usize,
    x: u64,
)
    requires burst_size { BurstSize b1 b2 }
    requires rectangle { Rectangle n1 n2 top left b1 b2 }
    requires sheet_len { length sheet.old ≡ size_in lay n1 n2 }
    ensures { sheet.new ≡ box_turned lay n1 n2 sheet.old top left b1 b2 x }
{
    for k in 0..b1 * b2 {
        turn_in(
            sheet,
            lay,
            n1,
            n2,
            top + k / b2,
            left + k % b2,
            (x >> k) % 2 == 1,
        );
    }
}

// Byte k of a sheet by row with those cells turned over, where nothing is written. Only the rows of the rectangle are looked through.
pub fn turned_byte(
    sheet: &[u8],
    n1: usize,
    n2: usize,
    top: usize,
    left: usize,
    b1: usize,
    b2: usize,
    x: u64,
    k: usize,
) -> u8
    requires burst_size { BurstSize b1 b2 }
    requires rectangle { Rectangle n1 n2 top left b1 b2 }
    requires sheet_len { length sheet.now ≡ sheet_bytes n1 n2 }
    requires k_in_bounds { k < length sheet.now }
    ensures { result ≡ get_or (box_turned ByRow n1 n2 sheet.now top left b1 b2 x) k 0 }
{
    let size = row_bytes(n2);
    let mut y = sheet[k];
    if k < top * size {
        return y;
    }
    if (top + b1) * size <= k {
        return y;
    }
    for m in 0..b1 * b2 {
        y = byte_turned(y, k, n2, top + m / b2, left + m % b2, (x >> m) % 2 == 1);
    }
    y
}
