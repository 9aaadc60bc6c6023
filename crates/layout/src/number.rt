// Numbers of 16 and 32 bits, low byte first: read and written.
ghost use Rattle.std.specs.Prelude.{◌≡◌, ◌+◌, ◌<◌, [], ◌∷◌, length};
ghost use Rattle.layout.specs.Number.{Number16, Number32, low_bytes, overwritten};

// The 16-bit number at a place.
pub fn u16_at(s: &[u8], at: usize) -> usize
    requires { at + 1 < length s.now }
    ensures { Number16 s.now at result }
{
    usize::from(u16::from_le_bytes([s[at], s[at + 1]]))
}

// The 32-bit number at a place.
pub fn u32_at(s: &[u8], at: usize) -> u64
    requires { at + 3 < length s.now }
    ensures { Number32 s.now at result }
{
    u64::from(u32::from_le_bytes([s[at], s[at + 1], s[at + 2], s[at + 3]]))
}

// Writes the low 16 bits of x at a place.
pub fn put_u16(s: &mut [u8], at: usize, x: usize)
    requires { at + 1 < length s.old }
    ensures { s.new ≡ overwritten s.old at (low_bytes 2 x) }
{
    s[at..at + 2].copy_from_slice(&((x % 65536) as u16).to_le_bytes());
}

// Writes the low 32 bits of x at a place.
pub fn put_u32(s: &mut [u8], at: usize, x: u64)
    requires { at + 3 < length s.old }
    ensures { s.new ≡ overwritten s.old at (low_bytes 4 x) }
{
    s[at..at + 4].copy_from_slice(&((x % 4294967296) as u32).to_le_bytes());
}
