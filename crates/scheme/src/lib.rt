// One gate, garbled and opened, by each of the four schemes (01, Tokens and Scheme 1 to Scheme 3; 02, job 7).
// Garbling is lent a `Garbler`; opening, aes's `FixedKey`: the T-tables and the schedule of π's key.
#![tactic(auto)]

mod cipher; // the dual-key cipher, and a bit times a block
mod free; // free gates
mod gax; // schemes 1 and 2
mod hash; // the hashes of half-gates
mod half; // schemes 3 and 4
mod rows; // a charged gate, opened with its rows in the material

ghost use Rattle.std.specs.Prelude.{◌≡◌};
ghost use Rattle.model.specs.Circuit.{charged, kind_of};
ghost use Rattle.model.specs.Garbling.{Known, scheme_of};
ghost use Rattle.model.specs.Calls.{garbled_calls};
ghost use Rattle.scheme.specs.Garbled.{site, GarbledIs};

use aes::SBox;
use block::Block;
pub use cipher::{Answers, Bit, dual_key, times};
pub use free::{free_token, free_zero};
pub use gax::{garble_gax, garble_gaxr, open_row};
pub use half::{garble_half, open_half};
pub use hash::{hash_output, hash_pair};
use model::{AndGate, Wire};
use planes::FixedPlanes;
pub use rows::open_charged;

// What garbling is lent: the schedule of π's key in planes, and the S-box, which is looked up for public keys alone. An operation makes
// them once. It goes beside a `Plan`, which is of one seed: this is of none.
#[derive(Clone, Copy)]
pub struct Garbler {
    pub fixed: FixedPlanes,
    pub s_box: SBox,
}

impl Garbler {
    pub fn new() -> Garbler {
        Garbler {
            fixed: FixedPlanes::new(),
            s_box: SBox::new(),
        }
    }
}

// What garbling knows at a charged gate.
// Its fields are those of the model's own `Site`, the code as any byte among them; a `GateIn` of garble has the four of
// them that are read at the gate.
#[derive(Clone, Copy)]
pub struct Site {
    pub r: Block, // the seed's offset
    pub fresh: Block, // AES under the seed of block g
    pub g: Wire, // the gate's wire
    pub code: u8, // its code
    pub xa: Block, // the zero tokens of its operands
    pub xb: Block,
}

// A charged gate, garbled: its zero token, its rows in the material's order, and the encryptions made for them. A row that the scheme
// does not store is block 0.
// Four places of a fixed size, as there is no heap; whoever writes the material knows by the scheme how many count, and
// `GarbledIs` is of these alone.
#[derive(Clone, Copy)]
pub struct GarbledGate {
    pub zero: Block,
    pub rows: [Block; 4],
    pub calls: usize,
}

// A charged gate, opened: its token, and the encryptions made for it.
// A gate garbled, one opened and two hashes (`Answers`) have their calls beside them, each with fields of its own name:
// one generic type of a value and its calls would be `h.value.x` in all that uses it. That the calls are right is of
// what was asked (`GarbledIs`, `OpenedIs`, `AnswersAre`), so it is no invariant.
#[derive(Clone, Copy)]
pub struct OpenedGate {
    pub token: Block,
    pub calls: usize,
}

// A charged gate, garbled by the scheme of a scheme byte; its kind is that of its code. The byte stays one: what `garble_half` and
// `open_half` promise, they promise for any byte, and an enum of the four schemes would be narrower.
pub fn garble_gate(garbler: &Garbler, scheme: u8, s: Site, kind: AndGate) -> GarbledGate
    requires known { Known scheme }
    requires code_value { kind_of s.code ≡ charged kind.u.bit kind.v.bit kind.own.bit }
    ensures { GarbledIs (scheme_of scheme) (garbled_calls scheme (site s)) (site s) result }
{
    match scheme {
        1 => garble_gax(&garbler.fixed, s),
        2 => garble_gaxr(&garbler.fixed, s),
        _ => garble_half(garbler, scheme, s, kind),
    }
}
