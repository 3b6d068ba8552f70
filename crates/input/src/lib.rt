// What a reader gives, in a lent buffer: for programs alone, since no library crate reads a file.
#![tactic(auto)]

ghost use Rattle.std.specs.Prelude.{◌≤◌, IfOk, length};

use std::io;
use std::io::Read;

// Reads until a buffer is full or there is no more; answers how many bytes there were. By a `while`: each read is as long as it likes, and
// what std has that reads on needs the heap.
pub fn read_full<R: Read>(from: &mut R, buffer: &mut [u8]) -> io::Result<usize>
    ensures { IfOk result (λ len. len ≤ length buffer.new) }
{
    let mut len: usize = 0;
    while len < buffer.len() {
        let more = from.read(&mut buffer[len..])?;
        if more == 0 {
            break;
        }
        len += more;
    }
    Ok(len)
}
