// Whether two scans are mended to the same sheet.
ghost use Rattle.std.specs.Prelude.{◌≡◌, ◌<◌, length, get_or};
ghost use Rattle.layout.specs.Cells.{sheet_bytes};
ghost use Rattle.layout.specs.Differ.{agree};
ghost use Rattle.layout.specs.declared.stored.Layout.TheVariants.{ByRow};
ghost use Rattle.plan.specs.Header.{Small};
ghost use Rattle.reader.specs.Turn.{Rectangle, box_turned};

use mend::found::Burst;
use plan::header::Header;
use reader::turn::turned_byte;

// Byte k of a scan with the cells of its burst turned over.
fn mended_byte(h: Header, scan: &[u8], burst: Burst, k: usize) -> u8
    requires small { Small h }
    requires scan_len { length scan.now ≡ sheet_bytes h.n1 h.n2 }
    requires rectangle { Rectangle h.n1 h.n2 burst.top burst.left h.b1 h.b2 }
    requires k_in_bounds { k < length scan.now }
    ensures { result ≡ get_or (box_turned ByRow h.n1 h.n2 scan.now burst.top burst.left h.b1 h.b2 burst.pattern) k 0 }
{
    let Burst { top, left, pattern } = burst;
    turned_byte(scan, h.n1, h.n2, top, left, h.b1, h.b2, pattern, k)
}

// Byte for byte, with the cells of the burst of each turned over on the way: neither scan is written to.
pub fn mended_agree(h: Header, first: &[u8], burst: Burst, second: &[u8], burst2: Burst) -> bool
    requires small { Small h }
    requires first_len { length first.now ≡ sheet_bytes h.n1 h.n2 }
    requires rectangle { Rectangle h.n1 h.n2 burst.top burst.left h.b1 h.b2 }
    requires second_len { length second.now ≡ sheet_bytes h.n1 h.n2 }
    requires rectangle_2 { Rectangle h.n1 h.n2 burst2.top burst2.left h.b1 h.b2 }
    ensures { result ≡ agree (box_turned ByRow h.n1 h.n2 first.now burst.top burst.left h.b1 h.b2 burst.pattern)
        (box_turned ByRow h.n1 h.n2 second.now burst2.top burst2.left h.b1 h.b2 burst2.pattern) }
{
    for k in 0..first.len() {
        if mended_byte(h, first, burst, k) != mended_byte(h, second, burst2, k) {
            return false;
        }
    }
    true
}
