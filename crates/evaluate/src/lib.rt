// The evaluator's side (01, Operations): evaluate and decode, over anyone's material; and between them the outputs' tokens (02, job 8).
// Each operation is a check, its other arguments and its work; what they have in common are the question marks. Each
// has a contract of its own (`EvaluateIs`, `OutputTokensIs`, `DecodeIs`), which names every buffer: so the buffers are
// parameters of their own.
#![tactic(auto)]

ghost use Rattle.model.specs.Operations.{answer_of, ran_of, EvaluateIs, OutputTokensIs, DecodeIs};

use crate::arguments::{check_rest, output_arguments};
use crate::last::decode_bits;
use crate::outputs::gather_tokens;
use crate::walk::evaluate_wires;
use circuit::check;
use model::Refusal;

pub mod arguments; // refusals
pub mod hashes; // decoding by hashes
pub mod last; // decoding
pub mod list; // a list of gate records
pub mod outputs; // the outputs' tokens
pub mod walk; // all gates

// The tokens of all wires and the encryptions, from the inputs' tokens; or the first of refusals 1 to 7, 25, 26, 11, 12
// to 18, 19.
pub fn evaluate(
    circuit: &[u8],
    tokens: &[u8],
    material: &[u8],
    wires: &mut [u8],
) -> Result<usize, Refusal>
    ensures { EvaluateIs circuit.now tokens.now material.now wires.old (answer_of result) wires.new }
{
    let z = check(circuit)?;
    let bytes = 16 * (z.n + z.q);
    check_rest(circuit, z, z.n, tokens, material, bytes, wires.len())?;
    Ok(evaluate_wires(circuit, z.n, z.q, tokens, material, wires))
}

// The outputs' tokens, in their order, from those of all wires; or the first of refusals 1 to 7, 25, 26, 11, 19.
pub fn output_tokens(circuit: &[u8], wires: &[u8], tokens: &mut [u8]) -> Result<(), Refusal>
    ensures { OutputTokensIs circuit.now wires.now tokens.old (ran_of result) tokens.new }
{
    let z = check(circuit)?;
    output_arguments(z, wires, tokens.len())?;
    gather_tokens(circuit, z, wires, tokens);
    Ok(())
}

// The outputs' bits, from their tokens; or the first of refusals 1 to 7, 25, 26, 11, 12 to 18, 19, 29.
pub fn decode(
    circuit: &[u8],
    tokens: &[u8],
    material: &[u8],
    bits: &mut [u8],
) -> Result<(), Refusal>
    ensures { DecodeIs circuit.now tokens.now material.now bits.old (ran_of result) bits.new }
{
    let z = check(circuit)?;
    check_rest(circuit, z, z.m, tokens, material, z.m, bits.len())?;
    decode_bits(z.m, tokens, material, bits)
}
