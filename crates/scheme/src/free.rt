// Free gates (01, Tokens): the value is pu ⊕ qv ⊕ c, where p, q and c are truth values.
ghost use Rattle.std.specs.Prelude.{◌≡◌};
ghost use Rattle.model.specs.Aes.{◌⊕◌, times};
ghost use Rattle.model.specs.Tokens.{free_zero};

use crate::cipher::times;
use block::Block;
use model::{Truth, XorGate};

// The gate's zero token: p times Xa ⊕ q times Xb ⊕ c times R.
#[tactic(auto, unfolding(model::specs::Tokens::free_zero))]
pub fn free_zero(kind: XorGate, r: Block, xa: Block, xb: Block) -> Block
    ensures { result.bytes ≡ free_zero kind.p.bit kind.q.bit kind.c.bit r.bytes xa.bytes xb.bytes }
{
    times::<Truth>(xa, kind.p).xor(times::<Truth>(xb, kind.q).xor(times::<Truth>(r, kind.c)))
}

// Its token, from those held: x on the operand that it takes, or on the first of both; b on the second, which counts if it takes both.
pub fn free_token(x: Block, both: Truth, b: Block) -> Block
    ensures { result.bytes ≡ x.bytes ⊕ times both.bit b.bytes }
{
    x.xor(times::<Truth>(b, both))
}
