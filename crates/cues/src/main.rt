// Reads a cue sheet from standard input, and prints its samples or its refusal. An accepted sheet has at most 3,404 bytes;
// a longer input gets the answer of its first 4,096.
#![tactic(auto)]

use std::io;
use std::io::Write;

fn main(rt: HostRuntime) -> io::Result<()> {
    let mut sheet = [0u8; listing::SHEET_BUFFER_LEN];
    let n = input::read_full(&mut rt.stdin(), &mut sheet)?;
    let mut output = [0u8; listing::MAX_CUES_LEN];
    let length = listing::cues(&sheet[..n], &mut output);
    rt.stdout().write_all(&output[..length])
}
