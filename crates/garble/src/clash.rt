// Refusal 30 (02, job 12): all is written, then the hashes are looked at where they stand in the material, and where an output's two are
// equal, what was written is zeroed.
// The material goes with a place in it, and each buffer with how much is to be zeroed: `pair_verdict` and `WipedTo`
// speak of the whole buffer. The circuit and its sizes, the seed and what is wanted stay apart: contracts name the
// bytes alone (`OutcomeIs`), and a struct of circuit and sizes would write `circuit.now.bytes.now` in each. Zeros and
// ones are two buffers, as in `GarbleIs`.
ghost use Rattle.std.specs.Prelude.{◌≡◌, ◌+◌, ◌*◌, ◌≤◌, cond, length};
ghost use Rattle.model.specs.Ending.{hashes};
ghost use Rattle.model.specs.Evaluation.{bytes_for};
ghost use Rattle.model.specs.Refusals.{fine, first_of};
ghost use Rattle.model.specs.Operations.{ran_of, answer_of};
ghost use Rattle.circuit.specs.Accepted.{Bounded};
ghost use Rattle.garble.specs.Answers.{length_for};
ghost use Rattle.garble.specs.Clash.{pair_verdict, found_verdict};
ghost use Rattle.garble.specs.Whole.{WholeStart, WipeStart, WipedTo, OutcomeIs};

use crate::arguments::file_length;
use crate::whole::garble_whole;
use block::load;
use buffer::zero_front;
use material::ending::wants_hashes;
use material::last_start;
use model::{Garbled, Refusal, Sizes, Wanted};

// 1 where the two hashes of output i are equal, and 0 where they differ. The hashes of all outputs stand at an index.
fn equal_pair(material: &[u8], at: usize, i: usize) -> u8
    requires { at + 32 * i + 32 ≤ length material.now }
    ensures { result ≡ cond (hashes.clash (bytes_for hashes material.now at i)) 1 0 }
{
    let here = at + 32 * i;
    1 - load(material, here).differs(load(material, here + 16))
}

// 0 where the hashes of each of m outputs differ: all pairs together, and nothing branches by one.
// Numbers, put together by `|`, and no truth values to branch by: constant time.
#[tactic(auto, using(crate::proofs::ClashLaws::pair_cases))]
fn equal_pairs(material: &[u8], at: usize, m: usize) -> u8
    requires { at + 32 * m ≤ length material.now }
    ensures { result ≡ 0 → fine ≡ first_of (pair_verdict hashes material.now at) m }
{
    let mut all = 0;
    for i in 0..m {
        all |= equal_pair(material, at, i);
    }
    all
}

// Where not all differ, the search leaves at the first pair of equals. The hashes of m outputs stand at an index.
#[tactic(auto, using(crate::proofs::ClashLaws::pair_cases))]
pub fn search_clash(material: &[u8], at: usize, m: usize) -> Result<(), Refusal>
    requires { at + 32 * m ≤ length material.now }
    ensures { ran_of result ≡ first_of (pair_verdict hashes material.now at) m }
{
    if equal_pairs(material, at, m) == 0 {
        return Ok(());
    }
    for i in 0..m {
        if equal_pair(material, at, i) == 1 {
            return Err(Refusal::OutputHashes(i + 1));
        }
    }
    Ok(())
}

// The same of a material as it was written, by the mark wanted.
// Two marks, one branch: a trait of two would be no plainer, since the mark is known only when garble is called.
#[tactic(auto, using(crate::proofs::ClashLaws::found_cases))]
fn find_clash(material: &[u8], wanted: Wanted, z: Sizes) -> Result<(), Refusal>
    requires bounded { Bounded z }
    requires wanted_in_bounds { length_for z wanted ≤ length material.now }
    ensures { ran_of result ≡ found_verdict material.now wanted z }
{
    if wants_hashes(wanted) {
        let at = last_start(wanted.scheme, z.p) + 2;
        return search_clash(material, at, z.m);
    }
    Ok(())
}

// Zeros for what a garbling wrote, which was `length` bytes of the material and a token of each wire and each input.
fn wipe(z: Sizes, length: usize, material: &mut [u8], zeros: &mut [u8], ones: &mut [u8])
    requires { WipeStart z length material.old zeros.old ones.old }
    ensures { WipedTo z length material.old zeros.old ones.old material.new zeros.new ones.new }
{
    zero_front(material, length);
    zero_front(zeros, 16 * (z.n + z.q));
    zero_front(ones, 16 * z.n);
}

// A whole garbling: its answer, and zeros for what it wrote where 30 refuses it.
pub fn garble_or_wipe(
    circuit: &[u8],
    seed: &[u8],
    wanted: Wanted,
    z: Sizes,
    material: &mut [u8],
    zeros: &mut [u8],
    ones: &mut [u8],
) -> Result<Garbled, Refusal>
    requires { WholeStart circuit.now seed.now wanted z material.old zeros.old ones.old }
    ensures { OutcomeIs circuit.now seed.now wanted material.old zeros.old ones.old (answer_of result) material.new zeros.new ones.new }
{
    let calls = garble_whole(circuit, seed, wanted, z, material, zeros, ones);
    let length = file_length(z, wanted);
    if let Err(clash) = find_clash(material, wanted, z) {
        wipe(z, length, material, zeros, ones);
        return Err(clash);
    }
    Ok(Garbled { length, calls })
}
