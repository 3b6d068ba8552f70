// The hashes of half-gates: that of scheme 3 (01), under π's key, and that of scheme 4 (02, job 7), which is re-keyed with each tweak. Garbling
// hashes four tokens at once, in planes, and evaluating two, by the tables. An encryption each; key expansions are not counted.
// Each token stands beside its tweak: a struct of the two would be made for one call and taken apart there. The forms
// of the two hashes share `hash_block` and `masked_four`; what is left of each is its rule, written for each of the
// four lanes. `hash_gate` and `hash_held` each ask for the scheme byte once: asked in each half-gate it was tried and
// is slower (bench/NOTES.md). It stays a byte: see `garble_gate`.
ghost use Rattle.std.specs.Prelude.{◌≡◌, ◌≤◌};
ghost use Rattle.model.specs.Hashes.{hash_block, hash, rekeyed_hash, hash_of};
ghost use Rattle.model.specs.Ending.{output_tweak};
ghost use Rattle.model.specs.HalfGates.{generator_tweak, evaluator_tweak};
ghost use Rattle.scheme.specs.Garbled.{AnswersAre, HashedFour, HashesAre};

use crate::Garbler;
use crate::cipher::{Answers, masked_four};
use aes::{FixedKey, SBox, TTables, encrypt_each_under};
use block::Block;
use model::Wire;
use planes::{FixedPlanes, Four, slice_pair};

// "2x ⊕ i" (01, Scheme 3).
#[tactic(auto, unfolding(model::specs::Hashes::hash_block))]
fn hash_block(x: Block, i: u64) -> Block
    ensures { result.bytes ≡ hash_block x.bytes i }
{
    x.doubled().xor(Block::of_number(i))
}

// "H(x,i) = π(2x ⊕ i) ⊕ 2x ⊕ i" (01, Scheme 3), of two tokens.
pub fn hash_pair(key: &FixedKey, x: Block, i: u64, y: Block, j: u64) -> Answers
    ensures { AnswersAre (hash x.bytes i) (hash y.bytes j) result }
{
    let k = hash_block(x, i);
    let l = hash_block(y, j);
    let p = key.permute_pair(k, l);
    let x = p.x.xor(k);
    let y = p.y.xor(l);
    Answers { x, y, calls: 2 }
}

// "H(x,i) = AES under key i of σ(x), ⊕ σ(x)" (02, job 7), of two tokens.
fn rekeyed_each(tables: &TTables, x: Block, i: u64, y: Block, j: u64) -> Answers
    ensures { AnswersAre (rekeyed_hash x.bytes i) (rekeyed_hash y.bytes j) result }
{
    let k = x.sigma();
    let l = y.sigma();
    let p = encrypt_each_under(tables, Block::of_number(i), k, Block::of_number(j), l);
    let x = p.x.xor(k);
    let y = p.y.xor(l);
    Answers { x, y, calls: 2 }
}

// Scheme 3's hash of two tokens under i and of two under j: four encryptions at once.
fn fixed_four(fixed: &FixedPlanes, a: Block, x: Block, i: u64, b: Block, y: Block, j: u64) -> Four
    ensures { HashedFour hash a.bytes x.bytes i b.bytes y.bytes j result }
{
    masked_four(
        &fixed.words,
        Four {
            a: hash_block(a, i),
            b: hash_block(x, i),
            c: hash_block(b, j),
            d: hash_block(y, j),
        },
    )
}

// Scheme 3's hash of two tokens of an output, by its number from 1: "t = 2 times (65,536+k)" (02, job 12). In planes, as at a gate: nothing is
// looked up by a token, and two of the four lanes are thrown away.
pub fn hash_output(fixed: &FixedPlanes, x: Block, y: Block, number: usize) -> Answers
    requires { number ≤ 65536 }
    ensures { AnswersAre (hash x.bytes (output_tweak number)) (hash y.bytes (output_tweak number)) result }
{
    let i = 2 * (65536 + number as u64);
    let u = hash_block(x, i);
    let v = hash_block(y, i);
    let h = masked_four(
        &fixed.words,
        Four {
            a: u,
            b: v,
            c: u,
            d: v,
        },
    );
    let x = h.a;
    let y = h.b;
    Answers { x, y, calls: 2 }
}

// Scheme 4's. The two keys are tweaks, which are public: the S-box is looked up for them, and for nothing else.
fn rekeyed_four(s_box: &SBox, a: Block, x: Block, i: u64, b: Block, y: Block, j: u64) -> Four
    ensures { HashedFour rekeyed_hash a.bytes x.bytes i b.bytes y.bytes j result }
{
    let k = slice_pair(s_box, Block::of_number(i), Block::of_number(j));
    masked_four(
        &k,
        Four {
            a: a.sigma(),
            b: x.sigma(),
            c: b.sigma(),
            d: y.sigma(),
        },
    )
}

// H of the scheme byte, 3 or 4, for a gate that is garbled: of A and A⊕R under j=2g, of B and B⊕R under k=2g+1.
pub fn hash_gate(garbler: &Garbler, scheme: u8, r: Block, a: Block, b: Block, g: Wire) -> Four
    ensures { HashesAre (hash_of scheme) r.bytes a.bytes b.bytes g.0 result }
{
    let i = 2 * (g.0 as u64);
    let j = i + 1;
    let x = a.xor(r);
    let y = b.xor(r);
    if scheme == 4 {
        return rekeyed_four(&garbler.s_box, a, x, i, b, y, j);
    }
    fixed_four(&garbler.fixed, a, x, i, b, y, j)
}

// The same for a gate that is evaluated: of A under j=2g, of B under k=2g+1.
pub fn hash_held(key: &FixedKey, scheme: u8, a: Block, b: Block, g: Wire) -> Answers
    ensures { AnswersAre (hash_of scheme a.bytes (generator_tweak g.0)) (hash_of scheme b.bytes (evaluator_tweak g.0)) result }
{
    let j = 2 * (g.0 as u64);
    let k = j + 1;
    if scheme != 4 {
        return hash_pair(key, a, j, b, k);
    }
    rekeyed_each(&key.tables, a, j, b, k)
}
