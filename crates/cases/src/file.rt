// A file of cases, and the line that is printed of it: its name, by what its cases were run, and how many agree.
ghost use Rattle.std.specs.Prelude.{◌≡◌, ◌≤◌, IfOk, length};

use crate::line::{Case, Tally, agreements, read_case};
use crate::room::{MOST, room};
use input::read_full;
use std::fs::Files;
use std::io::Print;
use std::{fs, io};

// Prints a file's name and reads its bytes; answers how many there are. Where that fails the buffer has its length, and may hold some
// of them.
// Into a buffer, with the length beside it: there is no heap for a `Vec`.
fn read_file<R: Files + Print>(rt: &R, name: &str, text: &mut [u8]) -> io::Result<usize>
    ensures read { IfOk result (λ len. len ≤ length text.new) }
    ensures same_length { length text.new ≡ length text.old }
{
    rt.write_all(name.as_bytes())?;
    let mut file = fs::open(rt, name)?;
    read_full(&mut file, text)
}

// Runs the lines of a file (line.rt). Not inlined, so that a caller of more than one has room for one file at a time.
#[inline(never)]
pub fn run_lines<R: Files + Print, F: Fn(&[u8], &mut [u8]) -> bool>(
    rt: &R,
    name: &str,
    by: &str,
    agrees: F,
) -> io::Result<()>
    requires { F.IsAlwaysCallable agrees }
{
    let mut text = room::<MOST>(0);
    let len = read_file(rt, name, &mut text)?;
    rt.write_all(by.as_bytes())?;
    let Tally { cases, agreed } = agreements(&text[..len], agrees);
    println!(rt; ": {agreed} of {cases} agree")
}

// Runs the cases of a file, of seven fields each.
pub fn run_by<R: Files + Print, F: Fn(Case) -> bool>(
    rt: &R,
    name: &str,
    by: &str,
    agrees: F,
) -> io::Result<()>
    requires { (f : F) (case : _) → F.pre f case }
{
    run_lines(
        rt,
        name,
        by,
        |line, fields|
            requires { (f : F) (case : _) → F.pre f case }
        { agrees(read_case(line, fields)) },
    )
}

// The same, where one function alone runs the cases.
pub fn run<R: Files + Print, F: Fn(Case) -> bool>(rt: &R, name: &str, agrees: F) -> io::Result<()>
    requires { (f : F) (case : _) → F.pre f case }
{
    run_by(rt, name, "", agrees)
}
