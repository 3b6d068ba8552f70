// The last record of the material: the colours of the outputs' zero tokens (01, Material), or the hashes of both their tokens (02, job 12).
// The material is written at a place: `LastIs` says of all of it what it then is (`put`). Tokens stand at 16i and
// hashes at 32i in lent buffers, as the files have them (no heap). The circuit's bytes and its sizes stay apart:
// contracts name the bytes alone. The two loops, and that of evaluate's `gather_tokens`, share the line that reads an
// output's token; what they write, and what they promise of it, has nothing in common: one loop that takes a closure,
// with the contract of one, would be no plainer.
ghost use Rattle.std.specs.Prelude.{◌≡◌, map, ◌+◌, ◌≤◌, length};
ghost use Rattle.model.specs.Bytes.{put};
ghost use Rattle.model.specs.Circuit.{circuit_of};
ghost use Rattle.model.specs.Aes.{◌⊕◌};
ghost use Rattle.model.specs.Tokens.{colour};
ghost use Rattle.model.specs.Ending.{hashes};
ghost use Rattle.model.specs.Evaluation.{token_at};
ghost use Rattle.garble.specs.Walk.{ColoursStart, HashesStart, stored_from, LastStart, LastIs};

use crate::gate::wire_token;
use crate::plan::Plan;
use block::{Block, store};
use circuit::outputs::output_wire;
use material::ending::{last_mark, wants_hashes};
use material::writers::write_last_head;
use model::Sizes;
use planes::FixedPlanes;
use scheme::hash_output;

// By the mark wanted, at a place. Answers the encryptions made.
// One branch: the mark is known only when garble is called, and a trait of two would be chosen by the same branch.
pub fn write_last(
    fixed: &FixedPlanes,
    plan: &Plan,
    circuit: &[u8],
    z: Sizes,
    zeros: &[u8],
    material: &mut [u8],
    at: usize,
) -> usize
    requires { LastStart circuit.now plan.now.wanted z zeros.now material.old at }
    ensures { LastIs circuit.now plan.now.wanted plan.now.r.bytes zeros.now material.old at material.new result }
{
    let hashed = wants_hashes(plan.wanted);
    write_last_head(material, at, last_mark(hashed));
    if hashed {
        write_hashes(fixed, plan.r, circuit, z, zeros, material, at + 2);
        return 2 * z.m;
    }
    write_colours(circuit, z, zeros, material, at + 2);
    0
}

// The colours alone.
fn write_colours(circuit: &[u8], z: Sizes, zeros: &[u8], material: &mut [u8], at: usize)
    requires { ColoursStart circuit.now z zeros.now material.old at }
    ensures { material.new ≡ put material.old at (map (λ w. colour (token_at zeros.now w)) (circuit_of circuit.now).outputs) }
{
    for i in 0..z.m {
        let colour = wire_token(zeros, output_wire(circuit, z, i)).colour();
        material[at + i] = colour.bit;
    }
}

// The two hashes of an output, by its number from 1 and its zero token x.
fn write_pair(
    fixed: &FixedPlanes,
    r: Block,
    x: Block,
    number: usize,
    material: &mut [u8],
    at: usize,
)
    requires number_bound { number ≤ 65536 }
    requires at_in_bounds { at + 32 ≤ length material.old }
    ensures { material.new ≡ put material.old at (hashes.stored number x.bytes (x.bytes ⊕ r.bytes)) }
{
    let h = hash_output(fixed, x, x.xor(r), number);
    store(material, at, h.x);
    store(material, at + 16, h.y);
}

// The hashes alone.
fn write_hashes(
    fixed: &FixedPlanes,
    r: Block,
    circuit: &[u8],
    z: Sizes,
    zeros: &[u8],
    material: &mut [u8],
    at: usize,
)
    requires { HashesStart circuit.now z zeros.now material.old at }
    ensures { material.new ≡ put material.old at (stored_from hashes zeros.now r.bytes 1 (circuit_of circuit.now).outputs) }
{
    for i in 0..z.m {
        let x = wire_token(zeros, output_wire(circuit, z, i));
        write_pair(fixed, r, x, i + 1, material, at + 32 * i);
    }
}
