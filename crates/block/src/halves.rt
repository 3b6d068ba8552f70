// A block as one 128-bit number, in two words (01, AES and doubling). Exclusive or, doubling and masks are then a few instructions
// each, where byte by byte they are many.
// The methods of `Block` have the same names and call these: callers' contracts speak of a block's bytes, and what is
// worked on twice stays in words (`quadrupled`). The exclusive or is a method of each type that has one (`Words` and
// `Planes` too): no function is generic over them, so that a trait would be a text more.
ghost use Rattle.std.specs.Prelude.{◌≡◌, ◌*◌};
ghost use Rattle.model.specs.Bytes.{number};
ghost use Rattle.model.specs.Aes.{◌⊕◌, block, double};
ghost use Rattle.model.specs.Hashes.{sigma};
ghost use Rattle.block.specs.Halves.{block_of};

use crate::Block;

// The number's high and low half.
#[derive(Clone, Copy)]
pub struct Halves {
    pub high: u64,
    pub low: u64,
}

// The number that a block is.
impl From<Block> for Halves {
    ghost from_gives = { λ x h. block_of h ≡ x.bytes };

    fn from(x: Block) -> Halves {
        let s = x.bytes;
        let high = u64::from_be_bytes([s[0], s[1], s[2], s[3], s[4], s[5], s[6], s[7]]);
        let low = u64::from_be_bytes([s[8], s[9], s[10], s[11], s[12], s[13], s[14], s[15]]);
        Halves { high, low }
    }
}

// The block that the number is. Each word is swapped, which is one instruction, and then taken apart from the lowest
// byte, as the machine has it: tried, `to_be_bytes` is slower, since the compiler stores what it gives byte by byte.
impl From<Halves> for Block {
    ghost from_gives = { λ h x. x.bytes ≡ block_of h };

    fn from(h: Halves) -> Block {
        let a = h.high.swap_bytes().to_le_bytes();
        let b = h.low.swap_bytes().to_le_bytes();
        Block {
            bytes: [
                a[0], a[1], a[2], a[3], a[4], a[5], a[6], a[7], b[0], b[1], b[2], b[3], b[4], b[5],
                b[6], b[7],
            ],
        }
    }
}

impl Halves {
    // ⊕, "exclusive or".
    #[tactic(auto, using(crate::proofs::Words::halves_xor), unfolding(crate::specs::Halves::block_of))]
    pub fn xor(self, other: Halves) -> Halves
        ensures { block_of result ≡ block_of self ⊕ block_of other }
    {
        Halves {
            high: self.high ^ other.high,
            low: self.low ^ other.low,
        }
    }

    // "shifted left by one bit as one 128-bit number"; the bit shifted out is lost.
    #[tactic(auto, using(crate::proofs::Words::shifted_halves), unfolding(crate::specs::Halves::block_of))]
    pub fn shifted(self) -> Halves
        ensures { block_of result ≡ block (number (block_of self) * 2) }
    {
        Halves {
            high: (self.high << 1) | (self.low >> 63),
            low: self.low << 1,
        }
    }

    // 2A: the shifted number, "with hex 87 exclusive-ored into the last byte exactly if the bit shifted out was 1".
    #[tactic(auto, using(crate::proofs::Words::doubled_halves), unfolding(crate::specs::Halves::block_of))]
    pub fn doubled(self) -> Halves
        ensures { block_of result ≡ double (block_of self) }
    {
        let out = self.high >> 63;
        let x = self.shifted();
        Halves {
            high: x.high,
            low: x.low ^ (out * 0x87),
        }
    }

    // σ: "of left and right 8-byte halves .. (left ⊕ right, left)" (02, job 7).
    #[tactic(auto, using(crate::proofs::Words::sigma_halves), unfolding(crate::specs::Halves::block_of))]
    pub fn sigma(self) -> Halves
        ensures { block_of result ≡ sigma (block_of self) }
    {
        Halves {
            high: self.high ^ self.low,
            low: self.high,
        }
    }
}
