// The chain of demand 3 (01, Operations): garble, encode, evaluate and decode in turn, on one circuit; before decode the outputs' tokens are
// taken from those of all wires (02, job 8).
#![tactic(auto)]

ghost use Rattle.chain.specs.Chain.{ChainIs};

use circuit::check;
use evaluate::{decode, evaluate, output_tokens};
use garble::{encode, garble};
use model::{Refusal, Wanted};

// Which call the chain stopped at, and the refusal.
#[derive(Clone, Copy)]
pub enum Stopped {
    Garble(Refusal),
    Encode(Refusal),
    Evaluate(Refusal),
    Outputs(Refusal),
    Decode(Refusal),
}

// The chain, for every argument. Its contract is demand 3. Encode gets the first 16n bytes of the zero tokens and the one tokens, as garble
// wrote them; evaluate encode's bytes, 16 for each input, and garble's material; the outputs' tokens are taken from evaluate's, 16 bytes for
// each wire; and decode gets the material and the tokens of the m outputs. Check cannot refuse what garble accepted.
// The seven buffers are seven parameters, since the theorem `ChainIs` names each of them, as it is lent and as it is left.
// So are the circuit, the seed and what is wanted. The lists are cut at 16 bytes a token, as `ChainIs` says of what is
// handed on.
pub fn chain(
    circuit: &[u8],
    seed: &[u8],
    wanted: Wanted,
    values: &[u8],
    material: &mut [u8],
    zeros: &mut [u8],
    ones: &mut [u8],
    tokens: &mut [u8],
    wires: &mut [u8],
    outputs: &mut [u8],
    bits: &mut [u8],
) -> Result<(), Stopped>
    ensures { ChainIs circuit.now seed.now wanted values.now material.old zeros.old ones.old tokens.old wires.old outputs.old bits.old result material.new zeros.new ones.new tokens.new wires.new outputs.new bits.new }
{
    let made = garble(circuit, seed, wanted, material, zeros, ones).map_err(Stopped::Garble)?;
    let z = check(circuit).map_err(Stopped::Garble)?;
    let file = &material[..made.length];
    let inputs = 16 * z.n;
    encode(circuit, values, &zeros[..inputs], &ones[..inputs], tokens).map_err(Stopped::Encode)?;
    evaluate(circuit, &tokens[..inputs], file, wires).map_err(Stopped::Evaluate)?;
    output_tokens(circuit, &wires[..16 * (z.n + z.q)], outputs).map_err(Stopped::Outputs)?;
    decode(circuit, &outputs[..16 * z.m], file, bits).map_err(Stopped::Decode)
}
