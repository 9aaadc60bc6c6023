// The buffers that a call is lent: each check of them, by the header of a plan that passed its own.
ghost use Rattle.std.specs.Prelude.{◌≡◌, not, eqb, ◌+◌, ◌-◌, ◌*◌, ◌≤◌, length};
ghost use Rattle.layout.specs.Cells.{row_bytes};
ghost use Rattle.layout.specs.Stored.{size_in};
ghost use Rattle.layout.specs.declared.stored.Layout.TheVariants.{ByRow};
ghost use Rattle.plan.specs.Header.{Small};
ghost use Rattle.plan.specs.Verdict.{verdict_if, refusal_of, told};
ghost use Rattle.buffers.specs.Buffers.{length_verdict, unused_verdict, numbers_size};

use layout::cells::row_bytes;
use layout::stored::{Layout, bytes_in, first_unused_in};
use plan::header::Header;
use plan::verdict::{Refusal, refuse_if};

// The bytes of the numbers of one sheet of a stack: nine of 16 bits.
pub const NUMBERS_SIZE: usize = 18;

// The length of a buffer.
fn length_verdict(s: &[u8], size: usize, refusal: Refusal) -> Result<(), Refusal>
    ensures { told result ≡ verdict_if (not (eqb (length s.now) size)) (refusal_of refusal) }
{
    refuse_if(s.len() != size, refusal)
}

// Check 13: the unused bits of n1 rows of n2 cells, in a buffer of their length.
fn unused_verdict(lay: Layout, s: &[u8], n1: usize, n2: usize) -> Result<(), Refusal>
    requires n1_bound { (n1 ≤ 1000000) × (n2 ≤ 1000000) }
    requires s_len { length s.now ≡ size_in lay n1 n2 }
    ensures { told result ≡ unused_verdict lay n1 n2 s.now }
{
    let k = first_unused_in(s, lay, n1, n2);
    refuse_if(k < s.len(), Refusal::UnusedBits(k))
}

// The number of data bits.
pub fn data_size(h: Header) -> usize
    requires small { Small h }
    requires rh_bound { h.rv + h.rh ≤ h.n1 * h.n2 }
    ensures { result ≡ h.n1 * h.n2 - (h.rv + h.rh) }
{
    h.n1 * h.n2 - (h.rv + h.rh)
}

// The bytes of a sheet.
pub fn sheet_bytes(lay: Layout, h: Header) -> usize
    requires { Small h }
    ensures { (result ≡ size_in lay h.n1 h.n2) × (result ≤ 45056) }
{
    bytes_in(lay, h.n1, h.n2)
}

// The bytes of the data.
pub fn data_bytes(h: Header) -> usize
    requires small { Small h }
    requires rh_bound { h.rv + h.rh ≤ h.n1 * h.n2 }
    ensures { (result ≡ row_bytes (h.n1 * h.n2 - (h.rv + h.rh))) × (result ≤ 45056) }
{
    row_bytes(data_size(h))
}

// Check 11: the length of a sheet buffer.
pub fn sheet_length(lay: Layout, h: Header, sheet: &[u8]) -> Result<(), Refusal>
    requires { Small h }
    ensures { told result ≡ length_verdict 11 sheet.now (size_in lay h.n1 h.n2) }
{
    length_verdict(sheet, sheet_bytes(lay, h), Refusal::SheetLength)
}

// Check 12: the length of a data buffer.
pub fn data_length(h: Header, bits: &[u8]) -> Result<(), Refusal>
    requires small { Small h }
    requires rh_bound { h.rv + h.rh ≤ h.n1 * h.n2 }
    ensures { told result ≡ length_verdict 12 bits.now (row_bytes (h.n1 * h.n2 - (h.rv + h.rh))) }
{
    length_verdict(bits, data_bytes(h), Refusal::DataLength)
}

// Check 13, of a sheet.
pub fn sheet_unused(lay: Layout, h: Header, sheet: &[u8]) -> Result<(), Refusal>
    requires small { Small h }
    requires sheet_len { length sheet.now ≡ size_in lay h.n1 h.n2 }
    ensures { told result ≡ unused_verdict lay h.n1 h.n2 sheet.now }
{
    unused_verdict(lay, sheet, h.n1, h.n2)
}

// Check 13, of data.
pub fn data_unused(h: Header, bits: &[u8]) -> Result<(), Refusal>
    requires small { Small h }
    requires rh_bound { h.rv + h.rh ≤ h.n1 * h.n2 }
    requires bits_len { length bits.now ≡ row_bytes (h.n1 * h.n2 - (h.rv + h.rh)) }
    ensures { told result ≡ unused_verdict ByRow 1 (h.n1 * h.n2 - (h.rv + h.rh)) bits.now }
{
    unused_verdict(Layout::ByRow, bits, 1, data_size(h))
}

// Check 24: the length of a buffer for two sums.
pub fn sums_length(sums: &[u8]) -> Result<(), Refusal>
    ensures { told result ≡ length_verdict 24 sums.now 8 }
{
    length_verdict(sums, 8, Refusal::SumsLength)
}

// Check 12: the length of a buffer for the data of so many sheets.
pub fn data_lengths(h: Header, count: usize, bits: &[u8]) -> Result<(), Refusal>
    requires small { Small h }
    requires rh_bound { h.rv + h.rh ≤ h.n1 * h.n2 }
    requires count_bound { count ≤ 64 }
    ensures { told result ≡ length_verdict 12 bits.now (count * row_bytes (h.n1 * h.n2 - (h.rv + h.rh))) }
{
    length_verdict(bits, count * data_bytes(h), Refusal::DataLength)
}

// Check 21: the length of a buffer for the numbers of so many sheets.
pub fn numbers_length(count: usize, numbers: &[u8]) -> Result<(), Refusal>
    requires { count ≤ 64 }
    ensures { told result ≡ length_verdict 21 numbers.now (count * numbers_size) }
{
    length_verdict(numbers, count * NUMBERS_SIZE, Refusal::NumbersLength)
}
