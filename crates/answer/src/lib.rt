// The answer of a call as one 64-bit number: the number of the check lowest, and above it its places, or the report of a success (docs/ANSWER.md).
#![tactic(auto)]

ghost use Rattle.std.specs.Prelude.{◌≡◌, cond, ◌/◌, ◌%◌, ◌<◌, eqb};
ghost use Rattle.answer.specs.Answer.{InRange, fields_of, places_fields, fields_in, place_bits, report_bits, packed, packed_part};

#[derive(Clone, Copy)]
pub struct Answer {
    pub number: usize,
    pub p: usize,
    pub q: usize,
    pub cells: usize,
    pub top: usize,
    pub left: usize,
    pub height: usize,
    pub width: usize,
    pub pattern: usize,
}

// The two places, one above the other.
fn place_bits(a: Answer) -> usize
    requires { InRange (fields_of a) }
    ensures { result ≡ place_bits (fields_of a) }
{
    a.p + 65536 * a.q
}

// The six numbers of the report, one above the other.
fn report_bits(a: Answer) -> usize
    requires { InRange (fields_of a) }
    ensures { result ≡ report_bits (fields_of a) }
{
    let size = a.height + 8 * (a.width + 8 * a.pattern);
    a.cells + 32 * (a.top + 512 * (a.left + 1024 * size))
}

// What stands above the number: the report of a success, the places of a refusal.
fn above(a: Answer) -> usize
    requires { InRange (fields_of a) }
    ensures { result ≡ cond (eqb a.number 0) (report_bits (fields_of a)) (place_bits (fields_of a)) }
{
    let report = report_bits(a);
    let places = place_bits(a);
    if a.number == 0 { report } else { places }
}

// The fields in one number.
pub fn pack(a: Answer) -> u64
    requires { InRange (fields_of a) }
    ensures { result ≡ packed (fields_of a) }
{
    (a.number + 32 * above(a)) as u64
}

// An answer that has a number and places alone.
pub fn pack_places(number: usize, p: usize, q: usize) -> u64
    requires { InRange (places_fields number p q) }
    ensures { result ≡ packed (places_fields number p q) }
{
    pack(Answer {
        number,
        p,
        q,
        cells: 0,
        top: 0,
        left: 0,
        height: 0,
        width: 0,
        pattern: 0,
    })
}

// A field of an answer, which has `size` values and counts in units of `unit`, where it is told; elsewhere 0.
fn field(told: bool, answer: u64, unit: u64, size: u64) -> usize
    requires { (0 < unit) × (0 < size) }
    ensures { result ≡ cond told (answer / unit % size) 0 }
{
    if told {
        (answer / unit % size) as usize
    } else {
        0
    }
}

// The fields of any number of 64 bits.
pub fn unpack(answer: u64) -> Answer
    ensures { fields_of result ≡ fields_in answer }
{
    let number = (answer % 32) as usize;
    let success = number == 0;
    let refusal = number != 0;
    Answer {
        number,
        p: field(refusal, answer, 32, 65536),
        q: field(refusal, answer, 2097152, 4096),
        cells: field(success, answer, 32, 32),
        top: field(success, answer, 1024, 512),
        left: field(success, answer, 524288, 1024),
        height: field(success, answer, 536870912, 8),
        width: field(success, answer, 4294967296, 8),
        pattern: field(success, answer, 34359738368, 65536),
    }
}

// A part of a buffer: the byte where it starts, and its length.
pub fn pack_part(start: usize, length: usize) -> u64
    requires { (start < 65536) × (length < 65536) }
    ensures { result ≡ packed_part start length }
{
    (start + 4294967296 * length) as u64
}
