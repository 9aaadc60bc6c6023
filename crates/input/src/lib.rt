// What stands on standard input, or in any other reader, into a buffer.
#![tactic(auto)]

ghost use Rattle.std.specs.Prelude.{◌≤◌, length, take};
ghost use Rattle.std.specs.Io.KnownBytes.{Consumes};

use std::io::Read;

// One read: how many bytes it put at the start of the buffer, 0 where it failed too.
fn read_some<R: Read>(reader: &mut R, buf: &mut [u8]) -> usize
    ensures bound { result ≤ length buf.new }
    ensures bytes { Consumes (R.remaining reader.old) (R.remaining reader.new) (take result buf.new) }
{
    match reader.read(buf) {
        Ok(n) => n,
        Err(_) => 0,
    }
}

// Reads until the buffer is full, the input ends or a read fails: how many bytes are at the start of the buffer then. They are the
// reader's next bytes, in order, and the reader goes on after them.
pub fn read_full<R: Read>(reader: &mut R, buf: &mut [u8]) -> usize
    ensures bound { result ≤ length buf.new }
    ensures bytes { Consumes (R.remaining reader.old) (R.remaining reader.new) (take result buf.new) }
{
    let mut done = 0;
    while done < buf.len() {
        let n = read_some(reader, &mut buf[done..]);
        if n == 0 {
            break;
        }
        done += n;
    }
    done
}
