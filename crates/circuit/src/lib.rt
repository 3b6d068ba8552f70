// Circuits (01, Circuit): what a code means, the header, the gates, the outputs, their bytes, and the operations check and plain (01, Operations).
#![tactic(auto)]

ghost use Rattle.std.specs.Prelude.{◌≡◌};
ghost use Rattle.model.specs.Operations.{answer_of, check_answer, ran_of, PlainIs};

use crate::gates::search_gates;
use crate::header::read_header;
use crate::outputs::search_outputs;
use crate::values::{plain_arguments, plain_gates};
use buffer::copy_front;
use model::{Refusal, Sizes};

pub mod arguments;
pub mod code;
pub mod gates;
pub mod header;
pub mod marks;
pub mod outputs;
pub mod refusal;
pub mod values;
pub mod writers;

// The sizes n, m, q and p of a circuit, or the first of refusals 1 to 7, 25, 26.
pub fn check(circuit: &[u8]) -> Result<Sizes, Refusal>
    ensures { answer_of result ≡ check_answer circuit.now }
{
    let h = read_header(circuit)?;
    let n = h.n;
    let m = h.m;
    let q = h.q;
    let p = search_gates(circuit, n, q)?;
    search_outputs(circuit, h)?;
    Ok(Sizes { n, m, q, p })
}

// The value on every wire, from the values of the inputs; or the first of refusals 1 to 7, 25, 26, 9, 10, 19.
pub fn plain(circuit: &[u8], values: &[u8], wires: &mut [u8]) -> Result<(), Refusal>
    ensures { PlainIs circuit.now values.now wires.old (ran_of result) wires.new }
{
    let z = check(circuit)?;
    plain_arguments(z, values, wires.len())?;
    copy_front(values, wires);
    plain_gates(circuit, z.n, z.q, wires);
    Ok(())
}
