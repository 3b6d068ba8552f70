// What scheme 1 takes for the zero token of a charged gate: the seed's block of its wire (01, Scheme 1). Four are made at once: the gate's, and those
// of the next three charged gates.
ghost use Rattle.std.specs.Prelude.{◌≤◌, ◌<◌};
ghost use Rattle.garble.specs.Held.{HeldIs, GatesRoom, FreshTaken};

use crate::plan::Plan;
use crate::seed::Held;
use block::Block;
use circuit::code::code_charge;
use circuit::gates::gate_at;

// The next charged gate after gate k of q, or q.
// q is no gate: the wire after the last one's then fills the place. An `Option` would be taken apart again at each of
// three calls. `GatesRoom` is of the bytes and n and q: with a struct of them it would say `circuit.now.bytes.now`.
fn next_charged(circuit: &[u8], n: usize, q: usize, k: usize) -> usize
    requires gates_room { GatesRoom circuit.now n q }
    requires k_le_q { k ≤ q }
    ensures { result ≤ q }
{
    for i in k + 1..q {
        if code_charge(gate_at(circuit, i).code) == 1 {
            return i;
        }
    }
    q
}

impl Plan {
    // The block for gate k of q, where it is charged. Where it is not held, the next three charged gates are looked up.
    // A free gate takes none, and gets R: the model's `Site` has a block for every gate, and `FreshIs` says nothing of
    // this one. The charge is a number, 0 or 1, as in the model, which adds it up to p (`charge`).
    pub fn fresh_block(&self, circuit: &[u8], q: usize, k: usize, held: &mut Held) -> Block
        requires held_is { HeldIs self.now.seed.key.bytes self.now.wanted.run held.old }
        requires gates_room { GatesRoom circuit.now self.now.n q }
        requires k_lt_q { k < q }
        ensures { FreshTaken circuit.now self.now k held.new result.bytes }
    {
        let n = self.n;
        let run = self.wanted.run;
        let wire = n + k + 1;
        if code_charge(gate_at(circuit, k).code) == 0 {
            return self.r;
        }
        if let Some(block) = held.find(wire) {
            return block;
        }
        let a = next_charged(circuit, n, q, k);
        let b = next_charged(circuit, n, q, a);
        let c = next_charged(circuit, n, q, b);
        held.make(
            &self.seed.words,
            run,
            [wire, n + a + 1, n + b + 1, n + c + 1],
        )
    }
}
