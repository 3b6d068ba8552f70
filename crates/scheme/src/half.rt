// Half-gates (01, Scheme 3; 02, job 7), over the hash of the scheme byte. A charged gate is two half-gates: the generator's, whose row is
// G, and the evaluator's, whose row is E.
// The scheme byte is asked in crate::hash alone, where its contract is of any byte (`hash_of`).
ghost use Rattle.std.specs.Prelude.{◌≡◌, ◌-◌};
ghost use Rattle.model.specs.Aes.{◌⊕◌, times};
ghost use Rattle.model.specs.Circuit.{charged, kind_of};
ghost use Rattle.model.specs.Tokens.{colour};
ghost use Rattle.model.specs.Hashes.{hash_of};
ghost use Rattle.model.specs.HalfGates.{joined, half};
ghost use Rattle.model.specs.Calls.{hashings, hashings_held};
ghost use Rattle.scheme.specs.Garbled.{site, GarbledIs, OpenedIs};

use crate::cipher::times;
use crate::hash::{hash_gate, hash_held};
use crate::{GarbledGate, Garbler, OpenedGate, Site};
use aes::FixedKey;
use block::Block;
use model::{AndGate, Colour, Truth, Wire};

// 1-u, the other truth value.
fn complement(u: Truth) -> Truth
    ensures { result.bit ≡ 1 - u.bit }
{
    Truth { bit: 1 - u.bit }
}

// x ⊕ (1-u)R. α, β and γ are 1 less u, v and the pair's own value: so this makes A of Xa and B of Xb, and adds γR to X of the gate.
#[tactic(auto, using(crate::proofs::PieceLaws::offset_is))]
fn offset_unless(x: Block, r: Block, u: Truth) -> Block
    ensures { result.bytes ≡ x.bytes ⊕ times (1 - u.bit) r.bytes }
{
    x.xor(times::<Truth>(r, complement(u)))
}

// The row of a half-gate: H(x,i) ⊕ H(x⊕R,i) ⊕ z, from the two hashes.
#[tactic(auto, using(crate::proofs::PieceLaws::half_row_is))]
fn half_row(x: Block, y: Block, z: Block) -> Block
    ensures { result.bytes ≡ x.bytes ⊕ y.bytes ⊕ z.bytes }
{
    x.xor(y.xor(z))
}

// H(A,j) ⊕ sG ⊕ H(B,k) ⊕ t(E⊕A), from the rows G and E, the tokens A and B of colours s and t, and their hashes.
#[tactic(auto, using(crate::proofs::PieceLaws::join_is))]
fn join(ha: Block, hb: Block, g: Block, e: Block, a: Block, b: Block) -> Block
    ensures { result.bytes ≡ ha.bytes ⊕ times (colour a.bytes) g.bytes ⊕ hb.bytes ⊕ times (colour b.bytes) (e.bytes ⊕ a.bytes) }
{
    let s = a.colour();
    let t = b.colour();
    ha.xor(times::<Colour>(g, s).xor(hb.xor(times::<Colour>(e.xor(a), t))))
}

// The rows G and E, by four encryptions.
pub fn garble_half(garbler: &Garbler, scheme: u8, s: Site, kind: AndGate) -> GarbledGate
    requires { kind_of s.code ≡ charged kind.u.bit kind.v.bit kind.own.bit }
    ensures { GarbledIs (half (hash_of scheme)) (hashings (site s)) (site s) result }
{
    let r = s.r;
    let a = offset_unless(s.xa, r, kind.u);
    let b = offset_unless(s.xb, r, kind.v);
    let h = hash_gate(garbler, scheme, r, a, b, s.g);
    let row_g = half_row(h.a, h.b, times::<Colour>(r, b.colour()));
    let row_e = half_row(h.c, h.d, a);
    let x = join(h.a, h.c, row_g, row_e, a, b);
    let zero = offset_unless(x, r, kind.own);
    let none = Block::of_number(0);
    GarbledGate {
        zero,
        rows: [row_g, row_e, none, none],
        calls: 4,
    }
}

// The gate's token, from the rows G and E and the tokens held on its operands: two encryptions.
#[tactic(auto, unfolding(model::specs::HalfGates::joined, model::specs::Calls::hashings_held))]
pub fn open_half(
    key: &FixedKey,
    scheme: u8,
    g: Wire,
    rg: Block,
    re: Block,
    a: Block,
    b: Block,
) -> OpenedGate
    ensures { OpenedIs (joined (hash_of scheme) g.0 rg.bytes re.bytes a.bytes b.bytes) (hashings_held g.0 a.bytes b.bytes) result }
{
    let h = hash_held(key, scheme, a, b, g);
    let token = join(h.x, h.y, rg, re, a, b);
    let calls = h.calls;
    OpenedGate { token, calls }
}
