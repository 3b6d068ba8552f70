// GaX and GaXR (01, Scheme 1 and Scheme 2). Rows go by the colours c and d of the operands' tokens, values by the truth values that
// these tokens carry.
ghost use Rattle.std.specs.Prelude.{◌≡◌, ◌+◌, ◌*◌, ◌≤◌};
ghost use Rattle.model.specs.Aes.{◌⊕◌, block, double, quadruple};
ghost use Rattle.model.specs.Tokens.{colour};
ghost use Rattle.model.specs.Gax.{dual_key, carried, token_of, value_at, sealed, row_at, gax};
ghost use Rattle.model.specs.Gaxr.{reduced_zero, gaxr};
ghost use Rattle.model.specs.Calls.{sealings, sealing_held};
ghost use Rattle.scheme.specs.Garbled.{site, MasksAre, GarbledIs, OpenedIs};

use crate::cipher::{dual_key, key_block, masked_four, times};
use crate::{GarbledGate, OpenedGate, Site};
use aes::FixedKey;
use block::{Block, decoded};
use circuit::code::code_value;
use model::{Colour, Truth, Wire};
use planes::{FixedPlanes, Four};

// The two colours.
const ZERO: Colour = Colour { bit: 0 };

const ONE: Colour = Colour { bit: 1 };

// The colours of a token on each operand, which make the number of a row, 2c+d.
#[derive(Clone, Copy)]
pub struct Colours {
    pub c: Colour,
    pub d: Colour,
}

// Those of the four rows.
const ROW_0: Colours = Colours { c: ZERO, d: ZERO };

const ROW_1: Colours = Colours { c: ZERO, d: ONE };

const ROW_2: Colours = Colours { c: ONE, d: ZERO };

const ROW_3: Colours = Colours { c: ONE, d: ONE };

impl Colours {
    // Those of the tokens held: the row that they open.
    pub fn held(a: Block, b: Block) -> Colours
        ensures { (result.c.bit ≡ colour a.bytes) × (result.d.bit ≡ colour b.bytes) }
    {
        Colours {
            c: a.colour(),
            d: b.colour(),
        }
    }

    // The row's number.
    pub fn row(self) -> usize
        ensures { (result ≡ 2 * self.c.bit + self.d.bit) × (result ≤ 3) }
    {
        2 * (self.c.bit as usize) + (self.d.bit as usize)
    }

    // The tweak 4g+2c+d.
    pub fn tweak(self, g: Wire) -> u64
        ensures { result ≡ 4 * g.0 + 2 * self.c.bit + self.d.bit }
    {
        4 * (g.0 as u64) + 2 * (self.c.bit as u64) + (self.d.bit as u64)
    }
}

// The truth value that the token of colour c carries on a wire of zero token x.
#[tactic(auto, unfolding(model::specs::Gax::carried))]
fn carried(x: Block, c: Colour) -> Truth
    ensures { result.bit ≡ carried x.bytes c.bit }
{
    decoded(c, x.colour())
}

// The token of colour c on a wire of zero token x.
#[tactic(auto, unfolding(model::specs::Gax::token_of))]
fn token_of(r: Block, x: Block, c: Colour) -> Block
    ensures { result.bytes ≡ token_of r.bytes x.bytes c.bit }
{
    let v = carried(x, c);
    x.xor(times::<Truth>(r, v))
}

// The gate's value for the truth values that the operands' tokens of these colours carry.
#[tactic(auto, using(crate::proofs::PieceLaws::value_is), unfolding(crate::specs::Garbled::site))]
fn value_at(s: Site, at: Colours) -> Truth
    ensures { result.bit ≡ value_at (site s) at.c.bit at.d.bit }
{
    code_value(s.code, carried(s.xa, at.c), carried(s.xb, at.d))
}

// Four times the token of colour d on the second operand.
// Two functions, here and below, of one line each: the first operand's tokens are doubled, the second's quadrupled.
#[tactic(auto, using(crate::proofs::PieceLaws::four_times))]
fn quadrupled(s: Site, d: Colour) -> Block
    ensures { result.bytes ≡ quadruple (token_of s.r.bytes s.xb.bytes d.bit) }
{
    token_of(s.r, s.xb, d).quadrupled()
}

// Twice the token of colour c on the first operand.
#[tactic(auto, using(crate::proofs::PieceLaws::two_times))]
fn doubled(s: Site, c: Colour) -> Block
    ensures { result.bytes ≡ double (token_of s.r.bytes s.xa.bytes c.bit) }
{
    token_of(s.r, s.xa, c).doubled()
}

// K of a row, from twice the first operand's token and four times the second's.
#[tactic(auto, using(crate::proofs::PieceLaws::row_key_is))]
fn row_key(g: Wire, a: Block, b: Block, at: Colours) -> Block
    ensures { result.bytes ≡ a.bytes ⊕ b.bytes ⊕ block (4 * g.0 + 2 * at.c.bit + at.d.bit) }
{
    key_block(a, b, at.tweak(g))
}

// E of block 0 for each of the four rows: four calls of π at once. E of z is this ⊕ z.
fn masks(fixed: &FixedPlanes, s: Site) -> Four
    ensures { MasksAre (site s) result }
{
    let x = doubled(s, ZERO);
    let y = doubled(s, ONE);
    let u = quadrupled(s, ZERO);
    let v = quadrupled(s, ONE);
    let a = row_key(s.g, x, u, ROW_0);
    let b = row_key(s.g, x, v, ROW_1);
    let c = row_key(s.g, y, u, ROW_2);
    let d = row_key(s.g, y, v, ROW_3);
    masked_four(&fixed.words, Four { a, b, c, d })
}

// A row: the gate's token for its value, sealed by the mask of the row's colours. x is the gate's zero token.
fn row(s: Site, x: Block, at: Colours, mask: Block) -> Block
    requires { mask.bytes ≡ sealed dual_key (site s) at.c.bit at.d.bit (block 0) }
    ensures { result.bytes ≡ row_at dual_key (site s) x.bytes at.c.bit at.d.bit }
{
    let v = value_at(s, at);
    mask.xor(x.xor(times::<Truth>(s.r, v)))
}

// Scheme 1: the zero token is AES under the seed of block g, and there are four rows, of one call of π each.
// Scheme 1's and scheme 2's rows are written out, by the colours' names: which rows, and whose zero token, is all that
// differs, and nothing else is left to share than `masks` and `row`.
pub fn garble_gax(fixed: &FixedPlanes, s: Site) -> GarbledGate
    ensures { GarbledIs (gax dual_key) (sealings (site s)) (site s) result }
{
    let m = masks(fixed, s);
    let rows = [
        row(s, s.fresh, ROW_0, m.a),
        row(s, s.fresh, ROW_1, m.b),
        row(s, s.fresh, ROW_2, m.c),
        row(s, s.fresh, ROW_3, m.d),
    ];
    GarbledGate {
        zero: s.fresh,
        rows,
        calls: 4,
    }
}

// Scheme 2's zero token: the gate's token for the value at colours 0,0 is E(A,B,4g,block 0), the mask.
#[tactic(auto, unfolding(model::specs::Gaxr::reduced_zero, crate::specs::Garbled::site))]
fn reduced_zero(s: Site, mask: Block) -> Block
    requires { mask.bytes ≡ sealed dual_key (site s) 0 0 (block 0) }
    ensures { result.bytes ≡ reduced_zero dual_key (site s) }
{
    let v = value_at(s, ROW_0);
    mask.xor(times::<Truth>(s.r, v))
}

// Scheme 2: row 0, of colours 0,0, gives the zero token and is not stored; rows 1 to 3 are. Four calls of π.
pub fn garble_gaxr(fixed: &FixedPlanes, s: Site) -> GarbledGate
    ensures { GarbledIs (gaxr dual_key) (sealings (site s)) (site s) result }
{
    let m = masks(fixed, s);
    let zero = reduced_zero(s, m.a);
    let rows = [
        row(s, zero, ROW_1, m.b),
        row(s, zero, ROW_2, m.c),
        row(s, zero, ROW_3, m.d),
        Block::of_number(0),
    ];
    GarbledGate {
        zero,
        rows,
        calls: 4,
    }
}

// The gate's token, from a row and the tokens held on its operands: one call of π.
#[tactic(auto, using(crate::proofs::PieceLaws::opened_is), unfolding(model::specs::Calls::sealing_held))]
pub fn open_row(key: &FixedKey, g: Wire, a: Block, b: Block, row: Block) -> OpenedGate
    ensures { OpenedIs (dual_key a.bytes b.bytes (4 * g.0 + 2 * colour a.bytes + colour b.bytes) row.bytes) (sealing_held g.0 a.bytes b.bytes) result }
{
    let token = dual_key(key, a, b, Colours::held(a, b).tweak(g), row);
    OpenedGate { token, calls: 1 }
}
