// The program: a plan and a sheet on standard input, one line on standard output.
#![tactic(auto)]

use reader::search::Search;
use std::io::Print;

// At most 65,536 bytes are read, in as many pieces as they come in. A read that fails ends the input, and a write that fails the program.
fn main(rt: HostRuntime) {
    let mut input = [0u8; 65536];
    let n = input::read_full(&mut rt.stdin(), &mut input);
    let mut sheet = [0u8; 65536];
    let mut bits = [0u8; 65536];
    let mut out = line::whole::line_buffer();
    let end = line::whole::line(
        Search::ByWindow,
        &input[..n],
        &mut sheet,
        &mut bits,
        &mut out,
    );
    let _ = rt.write_all(&out[..end]);
}
