// The walk over the gates: each gets its zero token, and a charged one its record (01, Scheme 1 to 3 and Material).
ghost use Rattle.model.specs.Circuit.{gate_at, gate_wire};
ghost use Rattle.garble.specs.Held.{FreshIs};
ghost use Rattle.garble.specs.Walk.{WalkOf, StepStart, StepIs, GatesStart, GatesIs};

use crate::gate::GateIn;
use crate::plan::Plan;
use crate::records::garble_charged;
use crate::seed::Held;
use block::{Block, store};
use circuit::code::code_kind;
use model::Kind;
use scheme::{Garbler, free_zero};

// What a gate comes to: the place of the next record, and the encryptions that were made for it.
// By value, and no `&mut`: the clauses then have one name for what was and one for what is, and no `.old` and `.new`
// of each.
#[derive(Clone, Copy)]
pub struct Stepped {
    pub at: usize,
    pub calls: usize,
}

// One gate: what it adds to the zeros and to the material, at a place. A free gate makes no encryption.
// `StepIs` says of both buffers, from a place and a slot on, what they were and are; so they stay whole, with the
// tokens at 16i (no heap). Three kinds, three arms: with an `Option` of the other two, `None` is the third.
pub fn garble_step(
    garbler: &Garbler,
    plan: &Plan,
    circuit: &[u8],
    k: usize,
    fresh: Block,
    material: &mut [u8],
    at: usize,
    zeros: &mut [u8],
) -> Stepped
    requires walk_of { WalkOf circuit.now plan.now.seed.key.bytes plan.now.wanted plan.now }
    requires fresh_is { FreshIs plan.now.seed.key.bytes plan.now.wanted (gate_at circuit.now k).code (gate_wire plan.now.n k) fresh.bytes }
    requires step_start { StepStart circuit.now plan.now.seed.key.bytes plan.now.wanted k at material.old zeros.old }
    ensures { StepIs circuit.now plan.now.seed.key.bytes plan.now.wanted k at material.old zeros.old result.at result.calls material.new zeros.new }
{
    let n = plan.n;
    let g = GateIn::read(circuit, n, k, zeros);
    let slot = 16 * (n + k);
    match code_kind(g.code) {
        Kind::Charged(kind) => {
            let calls = garble_charged(garbler, plan, g, kind, fresh, material, at, zeros, slot);
            let at = at + plan.stride;
            Stepped { at, calls }
        }
        Kind::Free(kind) => {
            store(zeros, slot, free_zero(kind, plan.r, g.xa, g.xb));
            Stepped { at, calls: 0 }
        }
        Kind::Refused => Stepped { at, calls: 0 },
    }
}

// All gates, after the inputs' zero tokens and the material's header. Answers the encryptions made, added up gate by gate.
pub fn garble_gates(
    garbler: &Garbler,
    plan: &Plan,
    circuit: &[u8],
    q: usize,
    material: &mut [u8],
    zeros: &mut [u8],
) -> usize
    requires walk_of { WalkOf circuit.now plan.now.seed.key.bytes plan.now.wanted plan.now }
    requires gates_start { GatesStart circuit.now plan.now.seed.key.bytes plan.now.wanted q material.old zeros.old }
    ensures { GatesIs circuit.now plan.now.seed.key.bytes plan.now.wanted material.old zeros.old material.new zeros.new result }
{
    let mut held = Held::new(&plan.seed.words, plan.wanted.run, [0, 1, 2, 3]);
    let mut fresh = plan.r;
    let mut at = 9;
    let mut calls = 0;
    for k in 0..q {
        // By the byte, which is known only when garble is called. By other schemes it stays R, of which `FreshIs` says
        // nothing.
        if plan.wanted.scheme == 1 {
            fresh = plan.fresh_block(circuit, q, k, &mut held);
        }
        let step = garble_step(garbler, plan, circuit, k, fresh, material, at, zeros);
        at = step.at;
        calls += step.calls;
    }
    calls
}
