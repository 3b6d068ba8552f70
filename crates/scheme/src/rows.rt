// One charged gate, opened: its token, from its rows in the material and the tokens held on its operands (01, Scheme 1 to Scheme 3;
// 02, job 7).
// Rows are loaded from the lent material at a place, as in crates/buffer; that they lie in it is asked of material,
// scheme and place together. The scheme is a byte (see `garble_gate`), asked once in `open_charged` and, of schemes 1
// and 2, in `held_row`, which differ by whether row 0 is stored.
ghost use Rattle.std.specs.Prelude.{◌≡◌, ◌∷◌, get_or, drop};
ghost use Rattle.model.specs.Aes.{block};
ghost use Rattle.model.specs.Garbling.{scheme_of};
ghost use Rattle.model.specs.Evaluation.{cut};
ghost use Rattle.model.specs.Calls.{opened_calls};
ghost use Rattle.scheme.specs.Garbled.{OpenedIs};
ghost use Rattle.scheme.specs.Rows.{RowRoom, RecordRoom, HeldRoom, HeldRow};

use crate::OpenedGate;
use crate::gax::{Colours, open_row};
use crate::half::open_half;
use aes::FixedKey;
use block::{Block, load};
use model::Wire;

// Row i of scheme 2, whose rows 1 to 3 start at an index: row 0 is not stored, and block 0 is taken for it.
#[tactic(auto, using(crate::proofs::RowLaws::row_cases))]
fn reduced_row(material: &[u8], first: usize, i: usize) -> Block
    requires { RowRoom first i material.now }
    ensures { result.bytes ≡ get_or (block 0 ∷ cut 3 (drop first material.now)) i (block 0) }
{
    if i == 0 {
        Block::of_number(0)
    } else {
        load(material, first + 16 * (i - 1))
    }
}

// Row i of schemes 1 and 2, whose rows start at an index.
#[tactic(auto, using(crate::proofs::RowLaws::held_cases))]
fn held_row(scheme: u8, material: &[u8], first: usize, i: usize) -> Block
    requires { HeldRoom scheme first i material.now }
    ensures { HeldRow scheme first i material.now result.bytes }
{
    if scheme == 1 {
        return load(material, first + 16 * i);
    }
    reduced_row(material, first, i)
}

// The token of charged gate g, whose record stands at an index, and the encryptions made. Schemes 1 and 2 load the one row that the
// colours point at. The gate's wire and the two tokens held stay three arguments: a struct of them would be made here and taken
// apart again in each of the three calls below, which is no plainer.
pub fn open_charged(
    key: &FixedKey,
    scheme: u8,
    g: Wire,
    a: Block,
    b: Block,
    material: &[u8],
    at: usize,
) -> OpenedGate
    requires { RecordRoom scheme at material.now }
    ensures { OpenedIs ((scheme_of scheme).opened g.0 (cut (scheme_of scheme).stored (drop 4 (drop at material.now))) a.bytes b.bytes) (opened_calls scheme g.0 a.bytes b.bytes) result }
{
    let first = at + 4;
    if 3 <= scheme {
        let rg = load(material, first);
        let re = load(material, first + 16);
        return open_half(key, scheme, g, rg, re, a, b);
    }
    let row = held_row(scheme, material, first, Colours::held(a, b).row());
    open_row(key, g, a, b, row)
}
