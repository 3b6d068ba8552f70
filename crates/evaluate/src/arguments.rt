// The refusals of evaluate, decode and output_tokens once the circuit is accepted, in order (01, Operations): nothing is written here.
// A circuit and its sizes stay apart: contracts name the bytes alone (`Accepted`), and a struct of both would write
// `circuit.now.bytes.now` in each. That sizes are an accepted circuit's (`Bounded`) is no part of `Sizes`, since
// `sizes_of` of the model makes them of any bytes; a second type of sizes would be taken apart wherever they are used.
ghost use Rattle.std.specs.Prelude.{◌≡◌};
ghost use Rattle.model.specs.Operations.{ran_of};
ghost use Rattle.circuit.specs.Accepted.{Accepted, Bounded};
ghost use Rattle.evaluate.specs.Answers.{rest_verdict, output_arguments};

use circuit::arguments::{check_room, check_tokens};
use material::check_material;
use model::{Refusal, Sizes};

// 11 for a list of `due` tokens, 12 to 18, and 19 for the bytes that will be written to a buffer of length `room`.
pub fn check_rest(
    circuit: &[u8],
    z: Sizes,
    due: usize,
    tokens: &[u8],
    material: &[u8],
    bytes: usize,
    room: usize,
) -> Result<(), Refusal>
    requires { Accepted circuit.now z }
    ensures { ran_of result ≡ rest_verdict circuit.now due tokens.now material.now bytes room }
{
    check_tokens(due, tokens)?;
    check_material(circuit, z, material)?;
    check_room(bytes, room)
}

// 11 for the tokens of all wires, and 19 for the tokens of the outputs.
pub fn output_arguments(z: Sizes, wires: &[u8], room: usize) -> Result<(), Refusal>
    requires { Bounded z }
    ensures { ran_of result ≡ output_arguments z wires.now room }
{
    check_tokens(z.n + z.q, wires)?;
    check_room(16 * z.m, room)
}
