// The sales desk's program (02 j): it takes and prints what sheetread does, and reads small sheets by trial.
#![tactic(auto)]

use std::io::Print;

// It is sheetread's but for the line that asks how to search, which a function of both would be handed as a closure.
// At most 65,536 bytes are read, in as many pieces as they come in. A read that fails ends the input, and a write that fails the program.
fn main(rt: HostRuntime) {
    let mut input = [0u8; 65536];
    let n = input::read_full(&mut rt.stdin(), &mut input);
    let by = line::choice::search_for(&input[..n]);
    let mut sheet = [0u8; 65536];
    let mut bits = [0u8; 65536];
    let mut out = line::whole::line_buffer();
    let end = line::whole::line(by, &input[..n], &mut sheet, &mut bits, &mut out);
    let _ = rt.write_all(&out[..end]);
}
