// The tokens of the outputs, gathered from those of all wires: what decode is given (01, Operations; 02, job 8).
// Tokens stand at 16i in lent buffers, as the files have them (no heap). The circuit's bytes and its sizes stay apart:
// contracts name the bytes alone.
ghost use Rattle.std.specs.Prelude.{◌≡◌};
ghost use Rattle.model.specs.Bytes.{over};
ghost use Rattle.model.specs.Circuit.{circuit_of};
ghost use Rattle.model.specs.Evaluation.{output_tokens};
ghost use Rattle.evaluate.specs.Outputs.{GatherStart};

use block::{load, store};
use circuit::outputs::output_wire;
use model::Sizes;

// The outputs' tokens, in their order, to the front of a buffer.
pub fn gather_tokens(circuit: &[u8], z: Sizes, wires: &[u8], tokens: &mut [u8])
    requires { GatherStart circuit.now z wires.now tokens.old }
    ensures { tokens.new ≡ over (output_tokens (circuit_of circuit.now) wires.now) tokens.old }
{
    for i in 0..z.m {
        let w = output_wire(circuit, z, i).0 as usize;
        let x = load(wires, 16 * (w - 1));
        store(tokens, 16 * i, x);
    }
}
