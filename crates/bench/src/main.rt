// The bench: standard input is replayed to standard output, as document 01, "The bench", has it. The program lends two buffers; what is
// read and written is the crate `player`, and so is what is promised. A read or a write that fails ends the program with its error.

#![tactic(auto)]

use player::replay_file;
use std::io;

fn main(rt: HostRuntime) -> io::Result<()> {
    let mut input = [0u8; 65536];
    let mut out = [0u8; 65536];
    let mut source = rt.stdin();
    let mut to = rt.stdout();
    replay_file(&mut source, &mut to, &mut input, &mut out)?;
    Ok(())
}
