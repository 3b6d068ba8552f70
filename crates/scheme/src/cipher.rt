// What schemes 1 and 2 seal tokens with, the dual-key cipher; and a bit times a block.
ghost use Rattle.std.specs.Prelude.{ℕ, ◌≡◌, ◌≤◌};
ghost use Rattle.model.specs.Aes.{◌⊕◌, times, block};
ghost use Rattle.model.specs.Gax.{dual_key};
ghost use Rattle.scheme.specs.Garbled.{Masked};

use aes::FixedKey;
use block::{Block, Halves};
use model::{Colour, Truth};
use planes::{Four, encrypt_four};

// What a block is multiplied by: a truth value or a colour. Whoever multiplies says which, as `times::<Truth>`.
pub trait Bit {
    ghost bit_of: { Self → ℕ };

    fn bit(self) -> u8
        ensures { (result ≡ bit_of self) × (result ≤ 1) };
}

impl Bit for Truth {
    ghost bit_of = { λ t. t.bit };

    fn bit(self) -> u8 {
        self.bit
    }
}

impl Bit for Colour {
    ghost bit_of = { λ c. c.bit };

    fn bit(self) -> u8 {
        self.bit
    }
}

// "A bit times a block is the block or zero" (01, Scheme 3): by a mask, since a colour is as good as random and a branch on it costs more.
pub fn times<B: Bit>(b: Block, bit: B) -> Block
    ensures { result.bytes ≡ times (B.bit_of bit) b.bytes }
{
    let x = Halves::from(b);
    let mask = (bit.bit() as u64) * 0xFFFFFFFFFFFFFFFF;
    Block::from(Halves {
        high: x.high & mask,
        low: x.low & mask,
    })
}

// "K = 2A ⊕ 4B ⊕ T" (01, Scheme 1), from 2A and 4B.
#[tactic(auto, using(crate::proofs::PieceLaws::key_is))]
pub fn key_block(a: Block, b: Block, tweak: u64) -> Block
    ensures { result.bytes ≡ a.bytes ⊕ b.bytes ⊕ block tweak }
{
    a.xor(b.xor(Block::of_number(tweak)))
}

// "E(A,B,T,Z) = π(K) ⊕ K ⊕ Z" (01, Scheme 1): one call of π.
#[tactic(auto, unfolding(model::specs::Gax::dual_key, model::specs::Gax::key_block))]
pub fn dual_key(key: &FixedKey, a: Block, b: Block, tweak: u64, z: Block) -> Block
    ensures { result.bytes ≡ dual_key a.bytes b.bytes tweak z.bytes }
{
    let k = key_block(a.doubled(), b.quadrupled(), tweak);
    key.permute(k).xor(k.xor(z))
}

// What H answers to two that are asked together, and the encryptions made for them.
// Not a `Pair` of aes and a number: it would be `h.pair.x` at each use.
#[derive(Clone, Copy)]
pub struct Answers {
    pub x: Block,
    pub y: Block,
    pub calls: usize,
}

// AES of four blocks at once, each with the block itself exclusive-ored in, under the schedules that k has in planes. It is what garbling
// makes the masks of schemes 1 and 2 and both hashes of half-gates with: no look-up and no branch by a token.
// Of four named blocks, as `Four` of planes says: each has a use of its own.
pub fn masked_four(k: &[u64; 88], x: Four) -> Four
    ensures { Masked k.now x result }
{
    let p = encrypt_four(k, x);
    Four {
        a: p.a.xor(x.a),
        b: p.b.xor(x.b),
        c: p.c.xor(x.c),
        d: p.d.xor(x.d),
    }
}
