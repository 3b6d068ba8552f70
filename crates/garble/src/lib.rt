// The garbler's side (01, Operations): garble, encode and pick.
// The seed, what is wanted, and the material, zeros and ones are parameters of their own, since `GarbleIs` and
// `EncodeIs` name each buffer as it is lent and as it is left. Tokens stand in them at 16i, as the files have them:
// with no heap, no list of blocks.
#![tactic(auto)]

ghost use Rattle.std.specs.Prelude.{◌≡◌};
ghost use Rattle.model.specs.Refusals.{pick_verdict};
ghost use Rattle.model.specs.Operations.{answer_of, ran_of, GarbleIs, EncodeIs};
ghost use Rattle.garble.specs.Pick.{PartIs};

use crate::arguments::{Rooms, encode_arguments, garble_arguments};
use crate::clash::garble_or_wipe;
use crate::inputs::encode_inputs;
use circuit::check;
use model::{Garbled, Refusal, Truth, Wanted, Wire};

pub mod arguments;
pub mod clash;
pub mod fresh;
pub mod gate;
pub mod inputs;
pub mod last;
pub mod plan;
pub mod records;
pub mod schedule;
pub mod seed;
pub mod walk;
pub mod whole;

// The material, the zero tokens of all wires and the one tokens of the inputs; or the first of refusals 1 to 7, 25, 26, 8,
// 13, 14, 19, 30. Of these 30 alone changes the buffers: zeros are where the bytes were. Answers the material's length and the encryptions made.
pub fn garble(
    circuit: &[u8],
    seed: &[u8],
    wanted: Wanted,
    material: &mut [u8],
    zeros: &mut [u8],
    ones: &mut [u8],
) -> Result<Garbled, Refusal>
    ensures { GarbleIs circuit.now seed.now wanted material.old zeros.old ones.old (answer_of result) material.new zeros.new ones.new }
{
    let z = check(circuit)?;
    let rooms = Rooms {
        material: material.len(),
        zeros: zeros.len(),
        ones: ones.len(),
    };
    garble_arguments(z, seed, wanted, rooms)?;
    garble_or_wipe(circuit, seed, wanted, z, material, zeros, ones)
}

// The inputs' tokens for their values; or the first of refusals 1 to 7, 25, 26, 9, 10, 11, 19.
pub fn encode(
    circuit: &[u8],
    values: &[u8],
    zeros: &[u8],
    ones: &[u8],
    tokens: &mut [u8],
) -> Result<(), Refusal>
    ensures { EncodeIs circuit.now values.now zeros.now ones.now tokens.old (ran_of result) tokens.new }
{
    let z = check(circuit)?;
    encode_arguments(z, values, zeros, ones, tokens.len())?;
    encode_inputs(z.n, values, zeros, ones, tokens);
    Ok(())
}

// The refusals of pick, in order: 10, 11, 20.
// A bit is any byte here and in `pick`, since 10 refuses it (`pick_verdict`).
#[tactic(auto, using(model::proofs::Conditions::conditions), unfolding(model::specs::Refusals::pick_verdict))]
pub fn pick_check(zeros: &[u8], ones: &[u8], wire: Wire, bit: u8) -> Result<(), Refusal>
    ensures { ran_of result ≡ pick_verdict zeros.now ones.now wire.0 bit }
{
    let len = zeros.len();
    let w = wire.0 as usize;
    if 1 < bit {
        return Err(Refusal::Value(0));
    }
    if len != ones.len() || len % 16 != 0 {
        return Err(Refusal::TokensLength(len));
    }
    if w < 1 || len < 16 * w {
        return Err(Refusal::PickWire(wire));
    }
    Ok(())
}

// The token of a wire for a bit: a part of the one list or the other, or an empty part where `pick_check` refuses.
// Empty and no `None`: so `PartIs` has it, and pick cannot fail.
pub fn pick<'a>(zeros: &'a [u8], ones: &'a [u8], wire: Wire, bit: u8) -> &'a [u8]
    ensures { PartIs zeros.entry ones.entry wire.0 bit result }
{
    if pick_check(zeros, ones, wire, bit).is_err() {
        return &zeros[..0];
    }
    let at = 16 * (wire.0 as usize - 1);
    let end = at + 16;
    let value = Truth { bit };
    if value.bit == 0 {
        &zeros[at..end]
    } else {
        &ones[at..end]
    }
}
