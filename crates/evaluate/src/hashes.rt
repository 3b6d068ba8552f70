// Decoding of material that ends in hashes (02, job 12): each output's token is hashed, in planes, and compared with both hashes that are stored for it.
// Nothing branches by a token or a hash, but for one branch: whether all tokens are known.
ghost use Rattle.std.specs.Prelude.{◌≡◌, ◌<◌, ◌≤◌, ◌+◌, ◌*◌, length};
ghost use Rattle.model.specs.Bytes.{over};
ghost use Rattle.model.specs.Ending.{hashes};
ghost use Rattle.model.specs.Refusals.{fine, first_of};
ghost use Rattle.model.specs.Operations.{ran_of};
ghost use Rattle.evaluate.specs.Last.{DifferingIs, known_verdict, bits_of, HashedStart, BitsAre};

use block::load;
use model::Refusal;
use planes::FixedPlanes;
use scheme::hash_output;

// Whether the hash of an output's token differs from that stored for value 0, and from that for value 1: 0 where it agrees, else 1.
// Masks, and no truth values to branch by: no time may depend on a token or a hash.
#[derive(Clone, Copy)]
pub struct Differing {
    pub zero: u8,
    pub one: u8,
}

// The tokens of m outputs, and the hashes stored for them in the material, from an index on; and π's key in planes, to
// hash with.
// An index beside the material, and m beside the tokens: `DifferingIs` and `known_verdict` count from there in the
// whole material.
#[derive(Clone, Copy)]
struct Stored<'a> {
    fixed: &'a FixedPlanes,
    m: usize,
    tokens: &'a [u8],
    material: &'a [u8],
    first: usize,
    ghost few: { m ≤ 65535 },
    ghost all_tokens: { 16 * m ≤ length tokens.now },
    ghost inside: { first + 32 * m ≤ length material.now },
}

impl<'a> Stored<'a> {
    // Output i, from 0.
    fn compare(&self, i: usize) -> Differing
        requires { i < self.now.m }
        ensures { DifferingIs self.now.tokens.now self.now.material.now self.now.first i result }
    {
        let here = self.first + 32 * i;
        let x = load(self.tokens, 16 * i);
        let h = hash_output(self.fixed, x, x, i + 1);
        let zero = h.x.differs(load(self.material, here));
        let one = h.x.differs(load(self.material, here + 16));
        Differing { zero, one }
    }

    // 0 where the token of each output agrees with one of its hashes: all together.
    // Masks, put together by `|`, as in `Differing`: constant time.
    fn unknown_together(&self) -> u8
        ensures { result ≡ 0 → fine ≡ first_of (known_verdict hashes self.now.tokens.now self.now.material.now self.now.first) self.now.m }
    {
        let mut all: u8 = 0;
        for i in 0..self.m {
            let d = self.compare(i);
            all |= d.zero & d.one;
        }
        all
    }

    // Refusal 29: where not all are known, the search leaves at the first token that is not.
    fn search_unknown(&self) -> Result<(), Refusal>
        ensures { ran_of result ≡ first_of (known_verdict hashes self.now.tokens.now self.now.material.now self.now.first) self.now.m }
    {
        if self.unknown_together() == 0 {
            return Ok(());
        }
        for i in 0..self.m {
            let d = self.compare(i);
            if d.zero & d.one != 0 {
                return Err(Refusal::OutputToken(i + 1));
            }
        }
        Ok(())
    }

    // The bits: 0 where the first hash agrees, else 1.
    fn write_bits(&self, bits: &mut [u8])
        requires { self.now.m ≤ length bits.old }
        ensures { bits.new ≡ over (bits_of hashes self.now.tokens.now self.now.material.now self.now.first self.now.m) bits.old }
    {
        for i in 0..self.m {
            bits[i] = self.compare(i).zero;
        }
    }
}

// The bits of m outputs, or refusal 29.
// Each buffer is a parameter, since `DecodeIs` names them so, and `BitsAre` counts from an index of the whole
// material.
pub fn decode_hashes(
    m: usize,
    tokens: &[u8],
    material: &[u8],
    first: usize,
    bits: &mut [u8],
) -> Result<(), Refusal>
    requires { HashedStart m first tokens.now material.now bits.old }
    ensures { BitsAre hashes first m tokens.now material.now bits.old (ran_of result) bits.new }
{
    let fixed = FixedPlanes::new();
    let stored = Stored {
        fixed: &fixed,
        m,
        tokens,
        material,
        first,
    };
    stored.search_unknown()?;
    stored.write_bits(bits);
    Ok(())
}
