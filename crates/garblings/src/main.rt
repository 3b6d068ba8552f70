// The test program of garble: garblings made by others against the proved function. Each file of data/ has a case a line, and
// each prints how many of its cases agree.
// Each file is a call that hands over what runs its cases. Each function is of a type of its own, so a table of names
// and functions would need function pointers or `dyn`, and a loop over it: no plainer.
#![tactic(auto)]

use crate::garbler::garble;
use crate::large::large;
use cases::file::{run, run_lines};
use std::fs::Files;
use std::io;
use std::io::Print;

mod fingerprint;
mod garbler;
mod large;
mod rule;

// Cases of a third reading of 01, and those of the second implementation.
fn run_right<R: Files + Print>(rt: &R) -> io::Result<()> {
    run(rt, "garble", garble)?;
    run(rt, "garble-generated", garble)?;
    run(rt, "garble-one-operand", garble)?;
    run(rt, "garble-runs", garble)?;
    run(rt, "garble-rekeyed", garble)?;
    run(rt, "garble-named", garble)?;
    run(rt, "garble-hashed", garble)?;
    run(rt, "garble-no-room", garble)?;
    run_lines(rt, "garble-large", "", large)?;
    run_lines(rt, "garble-large-rekeyed", "", large)
}

// Cases that are wrong on purpose: right ones in which one thing that is compared was changed. None may agree, or the
// comparison compares nothing.
fn run_wrong<R: Files + Print>(rt: &R) -> io::Result<()> {
    run(rt, "wrong-garble", garble)?;
    run_lines(rt, "wrong-garble-large", "", large)
}

fn main(rt: HostRuntime) -> io::Result<()> {
    run_right(&rt)?;
    run_wrong(&rt)
}
