// A gate by value: from the zero tokens of its operands to its own and its rows, if it is charged (01, Scheme 1 to Scheme 3;
// 02, job 7).
// A free gate's zero token is `scheme::free_zero`.
ghost use Rattle.std.specs.Prelude.{◌≡◌, ◌*◌, ◌≤◌, length};
ghost use Rattle.model.specs.Circuit.{charged, kind_of};
ghost use Rattle.model.specs.Evaluation.{token_at};
ghost use Rattle.model.specs.Garbling.{Known, scheme_of};
ghost use Rattle.model.specs.Calls.{garbled_calls};
ghost use Rattle.scheme.specs.Garbled.{GarbledIs};
ghost use Rattle.garble.specs.Held.{FreshIs};
ghost use Rattle.garble.specs.Walk.{site_at, OperandsStart, GateInIs};

use crate::plan::Plan;
use block::{Block, load};
use circuit::gates::gate_at;
use model::{AndGate, Wire};
use scheme::{GarbledGate, Garbler, Site, garble_gate};

// A gate as it was read: its code, its own wire, and the zero tokens of its operands.
// The code is the circuit's byte: the model's `kind_of` and `value` are functions of the byte. That the operands stand
// in the zeros (`OperandsStart`), that a block is the seed's (`FreshIs`) and what a gate comes to (`GarbledIs`) are
// clauses, since each is of several arguments together: a type for it would hold the circuit, the buffer or the plan
// as well. `Site` of scheme has these four among its six, as the model's `Site` does: with this one inside it, each
// clause of scheme would name it on the way to them.
#[derive(Clone, Copy)]
pub struct GateIn {
    pub code: u8,
    pub own: Wire,
    pub xa: Block,
    pub xb: Block,
}

// The zero token of a wire. Tokens stand at 16 bytes a wire, as the files have them (no heap for a list of blocks).
#[tactic(auto, unfolding(model::specs::Evaluation::token_at))]
pub fn wire_token(zeros: &[u8], wire: Wire) -> Block
    requires wire_low { 1 ≤ wire.0 }
    requires wire_high { 16 * wire.0 ≤ length zeros.now }
    ensures { result.bytes ≡ token_at zeros.now wire.0 }
{
    load(zeros, 16 * (wire.0 as usize - 1))
}

impl GateIn {
    // Gate k, from 0, with the zero tokens of its operands.
    // Its wire by `as`: it fits 16 bits by the contract, and `try_from` would answer an error that cannot be.
    #[tactic(auto, using(crate::proofs::OperandLaws::operand_needs))]
    pub fn read(circuit: &[u8], n: usize, k: usize, zeros: &[u8]) -> GateIn
        requires { OperandsStart circuit.now n k zeros.now }
        ensures { GateInIs circuit.now n k zeros.now result }
    {
        let g = gate_at(circuit, k);
        GateIn {
            code: g.code,
            own: Wire((n + k + 1) as u16),
            xa: wire_token(zeros, g.a),
            xb: wire_token(zeros, g.b),
        }
    }

    // A charged gate's zero token, its rows, and the encryptions made for them. fresh is the seed's block of its wire, where scheme 1 asks for it.
    pub fn garbled(self, garbler: &Garbler, plan: &Plan, kind: AndGate, fresh: Block) -> GarbledGate
        requires known { Known plan.now.wanted.scheme }
        requires code_value { kind_of self.code ≡ charged kind.u.bit kind.v.bit kind.own.bit }
        requires fresh_is { FreshIs plan.now.seed.key.bytes plan.now.wanted self.code self.own.0 fresh.bytes }
        ensures { GarbledIs (scheme_of plan.now.wanted.scheme) (garbled_calls plan.now.wanted.scheme (site_at plan.now self)) (site_at plan.now self) result }
    {
        let site = Site {
            r: plan.r,
            fresh,
            g: self.own,
            code: self.code,
            xa: self.xa,
            xb: self.xb,
        };
        garble_gate(garbler, plan.wanted.scheme, site, kind)
    }
}
