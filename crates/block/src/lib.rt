// Blocks, doubling and colours (01, AES and doubling; Tokens), and blocks in lent buffers.
#![tactic(auto)]

mod halves; // a block as a number in two words

ghost use Rattle.std.specs.Prelude.{◌≡◌, cond, ◌+◌, ◌*◌, ◌≤◌, length, take, drop};
ghost use Rattle.model.specs.Bytes.{put, equal_bytes};
ghost use Rattle.model.specs.Aes.{◌⊕◌, block, double, quadruple};
ghost use Rattle.model.specs.Hashes.{sigma};
ghost use Rattle.model.specs.Tokens.{colour, coloured, decoded};

pub use halves::Halves;
use model::{Colour, Truth};

// "A block is 16 bytes."
#[derive(Clone, Copy)]
pub struct Block {
    pub bytes: [u8; 16],
}

impl Block {
    // "A number used as a block is its 16-byte big-endian form." By this name, and not as a `From<u64>`, which would not
    // say which form is meant.
    #[tactic(auto, using(crate::proofs::Words::small), unfolding(crate::specs::Halves::block_of))]
    pub fn of_number(k: u64) -> Block
        ensures { result.bytes ≡ block k }
    {
        Block::from(Halves { high: 0, low: k })
    }

    // ⊕, "exclusive or".
    pub fn xor(self, other: Block) -> Block
        ensures { result.bytes ≡ self.bytes ⊕ other.bytes }
    {
        Block::from(Halves::from(self).xor(Halves::from(other)))
    }

    // 0 where the two are the same, and 1 where they differ. No branch goes by them, as it would in a derived `==`, which
    // ends at the first byte that differs: tokens are compared in constant time.
    #[tactic(auto, using(crate::proofs::DifferLaws::differ_cases))]
    pub fn differs(self, other: Block) -> u8
        ensures { result ≡ cond (equal_bytes self.bytes other.bytes) 0 1 }
    {
        let d = Halves::from(self).xor(Halves::from(other));
        let x = d.high | d.low;
        let y = x / 4294967296 + x % 4294967296;
        ((y + 8589934591) / 8589934592) as u8
    }

    // The colour of a token is "the lowest bit of its last byte" (01, Tokens).
    #[tactic(auto, unfolding(model::specs::Tokens::colour))]
    pub fn colour(self) -> Colour
        ensures { result.bit ≡ colour self.bytes }
    {
        Colour {
            bit: self.bytes[15] % 2,
        }
    }

    // The block "with its colour set to 1" (01, Tokens).
    pub fn coloured(self) -> Block
        ensures { result.bytes ≡ coloured self.bytes }
    {
        let mut x = self.bytes;
        x[15] |= 1;
        Block { bytes: x }
    }

    // 2A.
    pub fn doubled(self) -> Block
        ensures { result.bytes ≡ double self.bytes }
    {
        Block::from(Halves::from(self).doubled())
    }

    // "4A is twice doubled."
    #[tactic(auto, unfolding(model::specs::Aes::quadruple))]
    pub fn quadrupled(self) -> Block
        ensures { result.bytes ≡ quadruple self.bytes }
    {
        Block::from(Halves::from(self).doubled().doubled())
    }

    // σ of the halves (02, job 7).
    pub fn sigma(self) -> Block
        ensures { result.bytes ≡ sigma self.bytes }
    {
        Block::from(Halves::from(self).sigma())
    }
}

// The truth value that a token of the colour held carries on a wire whose zero token has the colour zero: R has colour 1, so the two
// differ where it is 1. The one place where colours become a truth value, for garbling and for decoding.
pub fn decoded(held: Colour, zero: Colour) -> Truth
    ensures { result.bit ≡ decoded held.bit zero.bit }
{
    Truth {
        bit: held.bit ^ zero.bit,
    }
}

// The block at an index of a buffer. By a loop: tried, `copy_from_slice` makes π of a block 4 % slower, since the
// compiler then keeps the block in memory; and with `array::from_fn` the proof did not close.
// Here and in `store` the place stands beside the buffer: see crates/buffer.
pub fn load(s: &[u8], at: usize) -> Block
    requires { at + 16 ≤ length s.now }
    ensures { result.bytes ≡ take 16 (drop at s.now) }
{
    let mut x = [0u8; 16];
    for i in 0..16 {
        x[i] = s[at + i];
    }
    Block { bytes: x }
}

// Writes a block at an index of a buffer.
#[tactic(auto, unfolding(model::specs::Bytes::put, model::specs::Bytes::over))]
pub fn store(s: &mut [u8], at: usize, b: Block)
    requires { at + 16 ≤ length s.old }
    ensures { s.new ≡ put s.old at b.bytes }
{
    s[at..at + 16].copy_from_slice(&b.bytes);
}
