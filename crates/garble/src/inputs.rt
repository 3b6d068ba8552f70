// Encoding (01, Operations): for each input its token for its value.
// Zeros and ones are two lent lists, and tokens stand in them at 16i: so `EncodeIs` has them, and no heap holds a list
// of blocks.
ghost use Rattle.std.specs.Prelude.{◌≡◌, [], ◌∷◌, get_or};
ghost use Rattle.model.specs.Bytes.{over};
ghost use Rattle.model.specs.Aes.{block};
ghost use Rattle.model.specs.Material.{join_blocks};
ghost use Rattle.model.specs.Evaluation.{cut, encode};
ghost use Rattle.garble.specs.Written.{TokenRoom, input_token, EncodeStart};

use block::{Block, load, store};
use model::Truth;
use scheme::times;

// The token of input i, from 0: that of the zero list for value 0, and that of the one list for value 1. Both are read, and the value chooses by a
// mask: no branch and no address goes by it.
fn input_token(value: Truth, zeros: &[u8], ones: &[u8], i: usize) -> Block
    requires { TokenRoom zeros.now ones.now i }
    ensures { result.bytes ≡ input_token value.bit zeros.now ones.now i }
{
    let at = 16 * i;
    let x = load(zeros, at);
    let y = load(ones, at);
    x.xor(times::<Truth>(x.xor(y), value))
}

// The tokens of all inputs.
#[tactic(auto, using(crate::proofs::EncodeLaws::encode_turns))]
pub fn encode_inputs(n: usize, values: &[u8], zeros: &[u8], ones: &[u8], tokens: &mut [u8])
    requires { EncodeStart n values.now zeros.now ones.now tokens.old }
    ensures { tokens.new ≡ over (join_blocks (encode values.now (cut n zeros.now) (cut n ones.now))) tokens.old }
{
    for i in 0..n {
        let value = Truth { bit: values[i] };
        store(tokens, 16 * i, input_token(value, zeros, ones, i));
    }
}
