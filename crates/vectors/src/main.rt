// The test program: outside vectors against the proved functions, all but garble, which has a program of its own, and evaluate's list
// form, whose cases the tests in Rust run on the archive. Each file of data/ has a case a line, and each group prints how many of its
// cases agree.
// Each file is a call that hands over what runs its cases. Each function is of a type of its own, so a table of names
// and functions would need function pointers or `dyn`, and a loop over it: no plainer.
#![tactic(auto)]

use crate::agree::{check, doubling, pick, sigma};
use crate::buffers::{decode, encode, evaluate, fill, output_tokens, plain};
use crate::chained::chain;
use crate::ciphers::run_encryptions;
use crate::clashes::{clash, zeroed};
use crate::schedules::{expansion, expansion_by_gates, expansion_word, fixed_expansion};
use cases::file::{run, run_by};
use std::fs::Files;
use std::io;
use std::io::Print;

mod agree;
mod buffers;
mod chained;
mod ciphers;
mod clashes;
mod schedules;

// Keys and their schedules, by both forms of key expansion.
fn run_expansions<R: Files + Print>(rt: &R, name: &str) -> io::Result<()> {
    run_by(rt, name, " by tables", expansion)?;
    run_by(rt, name, " by gates", expansion_by_gates)
}

// π's key and its schedule, by what makes it and by the constant that holds it.
fn run_fixed<R: Files + Print>(rt: &R, name: &str) -> io::Result<()> {
    run_by(rt, name, " by expand_key", expansion)?;
    run_by(rt, name, " by gates", expansion_by_gates)?;
    run_by(rt, name, " by fixed_schedule", fixed_expansion)
}

// Outside vectors, 01's examples and σ.
fn run_outside<R: Files + Print>(rt: &R) -> io::Result<()> {
    run_encryptions(rt, "fips197-encryption")?;
    run_expansions(rt, "fips197-key-expansion")?;
    run(rt, "fips197-words", expansion_word)?;
    run_fixed(rt, "fips197-fixed-key")?;
    run(rt, "doubling", doubling)?;
    run(rt, "sigma", sigma)?;
    run(rt, "examples", check)
}

// Cases of a third reading of 01.
fn run_stored<R: Files + Print>(rt: &R) -> io::Result<()> {
    run(rt, "check", check)?;
    run(rt, "plain", plain)?;
    run(rt, "encode", encode)?;
    run(rt, "pick", pick)?;
    run(rt, "evaluate", evaluate)?;
    run(rt, "decode", decode)
}

// Cases of the second implementation.
fn run_generated<R: Files + Print>(rt: &R) -> io::Result<()> {
    run(rt, "encode-generated", encode)?;
    run(rt, "pick-generated", pick)?;
    run(rt, "evaluate-generated", evaluate)?;
    run(rt, "decode-generated", decode)?;
    run(rt, "chain-generated", chain)
}

// Cases of the second implementation with gates that use one operand (02, job 2).
fn run_one_operand<R: Files + Print>(rt: &R) -> io::Result<()> {
    run(rt, "plain-one-operand", plain)?;
    run(rt, "evaluate-one-operand", evaluate)?;
    run(rt, "decode-one-operand", decode)?;
    run(rt, "chain-one-operand", chain)
}

// Cases of the second implementation with run numbers (02, job 4).
fn run_runs<R: Files + Print>(rt: &R) -> io::Result<()> {
    run(rt, "chain-runs", chain)
}

// Cases of the second implementation by scheme 4 (02, job 7).
fn run_rekeyed<R: Files + Print>(rt: &R) -> io::Result<()> {
    run(rt, "evaluate-rekeyed", evaluate)?;
    run(rt, "decode-rekeyed", decode)?;
    run(rt, "chain-rekeyed", chain)
}

// Cases of the second implementation with outputs by name (02, job 8).
fn run_named<R: Files + Print>(rt: &R) -> io::Result<()> {
    run(rt, "check-named", check)?;
    run(rt, "plain-named", plain)?;
    run(rt, "encode-named", encode)?;
    run(rt, "evaluate-named", evaluate)?;
    run(rt, "output-tokens", output_tokens)?;
    run(rt, "decode-named", decode)?;
    run(rt, "chain-named", chain)
}

// Cases of the second implementation on comparators (02, job 1).
fn run_compared<R: Files + Print>(rt: &R) -> io::Result<()> {
    run(rt, "chain-comparator", chain)
}

// Cases of the second implementation with material that ends in hashes (02, job 12); and of what refusal 30 does, on
// bytes alone.
fn run_hashed<R: Files + Print>(rt: &R) -> io::Result<()> {
    run(rt, "evaluate-hashed", evaluate)?;
    run(rt, "decode-hashed", decode)?;
    run(rt, "chain-hashed", chain)?;
    run(rt, "clash", clash)?;
    run(rt, "zeroed", zeroed)
}

// Cases of the second implementation whose buffers are the same whether a call is refused or not, so that the answer
// alone tells; and buffers after calls.
fn run_filled<R: Files + Print>(rt: &R) -> io::Result<()> {
    run(rt, "encode-fill", encode)?;
    run(rt, "evaluate-fill", evaluate)?;
    run(rt, "fill", fill)
}

// Cases that are wrong on purpose: right ones in which one thing that is compared was changed. None may agree, or the
// comparison compares nothing.
fn run_wrong<R: Files + Print>(rt: &R) -> io::Result<()> {
    run_encryptions(rt, "wrong-fips197-encryption")?;
    run_expansions(rt, "wrong-fips197-key-expansion")?;
    run(rt, "wrong-fips197-words", expansion_word)?;
    run_fixed(rt, "wrong-fips197-fixed-key")?;
    run(rt, "wrong-doubling", doubling)?;
    run(rt, "wrong-sigma", sigma)?;
    run(rt, "wrong-check", check)?;
    run(rt, "wrong-plain", plain)?;
    run(rt, "wrong-encode", encode)?;
    run(rt, "wrong-pick", pick)?;
    run(rt, "wrong-evaluate", evaluate)?;
    run(rt, "wrong-output-tokens", output_tokens)?;
    run(rt, "wrong-decode", decode)?;
    run(rt, "wrong-chain", chain)?;
    run(rt, "wrong-fill", fill)?;
    run(rt, "wrong-clash", clash)?;
    run(rt, "wrong-zeroed", zeroed)
}

fn main(rt: HostRuntime) -> io::Result<()> {
    run_outside(&rt)?;
    run_stored(&rt)?;
    run_generated(&rt)?;
    run_one_operand(&rt)?;
    run_runs(&rt)?;
    run_rekeyed(&rt)?;
    run_named(&rt)?;
    run_compared(&rt)?;
    run_hashed(&rt)?;
    run_filled(&rt)?;
    run_wrong(&rt)
}
