// The program of 01 (Table of examples): reads a circuit from standard input and prints what `text` makes of it. One byte more than the
// 65,536 that a circuit may have is enough to know that there are more (`program_front` of crates/model/proofs/Program.antt).
// The bytes are read to an array, since there is no heap.
#![tactic(auto)]

use input::read_full;
use std::io;
use text::program_text;

fn main(rt: HostRuntime) -> io::Result<()> {
    let mut buffer = [0u8; 65537];
    let len = read_full(&mut rt.stdin(), &mut buffer)?;
    rt.write_all(program_text(&buffer[..len]).as_bytes())
}
