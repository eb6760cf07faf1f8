// Prints the name of each sheet that the arguments name, and what `cues` prints for it.
#![tactic(auto)]

use std::io::Write;
use std::{env, fs, io};

// As `cues` does with its standard input; a function of both would need a contract over a reader and a writer, for these few lines.
fn print_sheet(rt: &HostRuntime, name: &str) -> io::Result<()> {
    let mut out = rt.stdout();
    out.write_all(name.as_bytes())?;
    out.write_all(b"\n")?;
    let Ok(mut file) = fs::open(rt, name) else {
        return out.write_all(b"no such sheet\n");
    };
    let mut sheet = [0u8; listing::SHEET_BUFFER_LEN];
    let n = input::read_full(&mut file, &mut sheet)?;
    let mut output = [0u8; listing::MAX_CUES_LEN];
    let length = listing::cues(&sheet[..n], &mut output);
    out.write_all(&output[..length])
}

fn main(rt: HostRuntime) -> io::Result<()> {
    for name in env::args(&rt)?.skip(1) {
        print_sheet(&rt, name.as_str())?;
    }
    Ok(())
}
