// A whole garbling, once nothing refuses: the inputs and the header first, then the gates, then the last record.
// Seed, wanted, circuit, sizes and buffers are parameters of their own: `WholeIs` names each, a buffer as it is lent
// and as it is left.
ghost use Rattle.garble.specs.Walk.{WalkOf, FrontStart, FrontIs, BodyStart, BodyIs};
ghost use Rattle.garble.specs.Whole.{WholeStart, WholeIs};

use crate::last::write_last;
use crate::plan::Plan;
use crate::schedule::SeedPlanes;
use crate::walk::garble_gates;
use block::load;
use material::ending::{header_mark, wants_hashes};
use material::last_start;
use material::writers::write_header;
use model::{Sizes, Wanted};
use scheme::Garbler;

// The inputs' tokens, and the material's header.
fn garble_front(plan: &Plan, z: Sizes, material: &mut [u8], zeros: &mut [u8], ones: &mut [u8])
    requires { FrontStart plan.now.n material.old zeros.old ones.old }
    ensures { FrontIs plan.now z.n z.m z.q material.old zeros.old ones.old material.new zeros.new ones.new }
{
    plan.garble_inputs(zeros, ones);
    let mark = header_mark(wants_hashes(plan.wanted));
    write_header(material, mark, plan.wanted.scheme, z.n, z.m, z.q);
}

// The gates, and the last record after theirs. Answers the encryptions made.
fn garble_body(
    garbler: &Garbler,
    plan: &Plan,
    circuit: &[u8],
    z: Sizes,
    material: &mut [u8],
    zeros: &mut [u8],
) -> usize
    requires walk_of { WalkOf circuit.now plan.now.seed.key.bytes plan.now.wanted plan.now }
    requires body_start { BodyStart circuit.now plan.now.seed.key.bytes plan.now.wanted z material.old zeros.old }
    ensures { BodyIs circuit.now plan.now.seed.key.bytes plan.now.wanted material.old zeros.old material.new zeros.new result }
{
    let made = garble_gates(garbler, plan, circuit, z.q, material, zeros);
    let at = last_start(plan.wanted.scheme, z.p);
    let hashes = write_last(&garbler.fixed, plan, circuit, z, zeros, material, at);
    made + hashes
}

// The garbling of an accepted circuit. The tables and the schedules in planes of π's key and of the seed are made here, once, and lent down.
// Answers the encryptions made.
pub fn garble_whole(
    circuit: &[u8],
    seed: &[u8],
    wanted: Wanted,
    z: Sizes,
    material: &mut [u8],
    zeros: &mut [u8],
    ones: &mut [u8],
) -> usize
    requires { WholeStart circuit.now seed.now wanted z material.old zeros.old ones.old }
    ensures { WholeIs circuit.now seed.now wanted material.old zeros.old ones.old material.new zeros.new ones.new result }
{
    let garbler = Garbler::new();
    let key = load(seed, 0);
    let seed = SeedPlanes::new(key);
    let plan = Plan::new(seed, wanted, z.n);
    garble_front(&plan, z, material, zeros, ones);
    garble_body(&garbler, &plan, circuit, z, material, zeros)
}
