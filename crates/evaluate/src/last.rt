// Decoding (01, Operations): each output's bit is its token's colour ⊕ the material's byte for that output; or as its hash says (02, job 12).
// Tokens stand at 16i in a lent buffer, as the files have them (no heap); each buffer is a parameter, since `DecodeIs`
// names them so. The loop over the outputs stands here and in hashes.rt: all but its first line is another, so one for
// both is no plainer.
ghost use Rattle.std.specs.Prelude.{◌≡◌, ◌-◌, length};
ghost use Rattle.model.specs.Bytes.{over};
ghost use Rattle.model.specs.Ending.{colours};
ghost use Rattle.model.specs.Operations.{ran_of};
ghost use Rattle.evaluate.specs.Last.{bits_of, LastStart, BitsStart, MarkedBits};

use crate::hashes::decode_hashes;
use block::{decoded, load};
use material::ending::{is_hashed, last_bytes};
use model::{Colour, Refusal};

// The bits of m outputs, from their tokens and the last m bytes of the material.
#[tactic(auto, using(crate::proofs::LastLaws::decode_turns))]
fn decode_outputs(m: usize, tokens: &[u8], material: &[u8], bits: &mut [u8])
    requires { LastStart m tokens.now material.now bits.old }
    ensures { bits.new ≡ over (bits_of colours tokens.now material.now (length material.now - m) m) bits.old }
{
    let first = material.len() - m;
    for i in 0..m {
        let x = load(tokens, 16 * i);
        let zero = Colour {
            bit: material[first + i],
        };
        bits[i] = decoded(x.colour(), zero).bit;
    }
}

// The bits of m outputs by the material's mark, or refusal 29.
// One branch: the mark is known only when decode is called, and a trait of two would be chosen by the same branch.
#[tactic(auto, using(crate::proofs::KnownLaws::marked_cases))]
pub fn decode_bits(m: usize, tokens: &[u8], material: &[u8], bits: &mut [u8]) -> Result<(), Refusal>
    requires { BitsStart m tokens.now material.now bits.old }
    ensures { MarkedBits m tokens.now material.now bits.old (ran_of result) bits.new }
{
    if is_hashed(material) {
        let first = material.len() - last_bytes(true, m);
        return decode_hashes(m, tokens, material, first, bits);
    }
    decode_outputs(m, tokens, material, bits);
    Ok(())
}
