// Reads `state,count` and a line end from standard input, and prints that many draws of the noise generator from that state.
// 17 bytes of the input are enough: one of more than 16 is refused, and so are its first 17 (`long_refused` in the proofs of
// `draw_request`).
#![tactic(auto)]

use std::io;
use std::io::Write;

fn main(rt: HostRuntime) -> io::Result<()> {
    let mut request = [0u8; 17];
    let n = input::read_full(&mut rt.stdin(), &mut request)?;
    let mut output = [0u8; listing::MAX_DRAWS_LEN];
    let length = listing::draws(&request[..n], &mut output);
    rt.stdout().write_all(&output[..length])
}
