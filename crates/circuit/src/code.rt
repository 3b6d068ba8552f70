// What a code means: its kind, and its value for two truth values.
// A code is a byte, of which any may come in a file or in a list, and the model's `kind_of` is of any. What is asked
// beside the match are bits of one number that the compiler makes of it (`spread` to `code_bit`): a jump by the code, a
// loop over the codes and other places of the bits were tried and are slower (bench/NOTES.md, "Codes and branches"). So
// two questions have two forms, `code_charge` and `used_charge`, `matched_kind` and `code_kind`. No `From` makes a kind
// of a code, since both types are of other crates.
ghost use Rattle.std.specs.Prelude.{◌≡◌, false, ◌+◌, ◌*◌, ◌≤◌};
ghost use Rattle.model.specs.Circuit.{charged, free, value, kind_of, charge};
ghost use Rattle.model.specs.Refusals.{is_refused};
ghost use Rattle.circuit.specs.Answers.{meaning, TakesIs, apart, bits_apart, bits_from, kind_bit};

use model::{AndGate, Kind, Truth, XorGate};

// A charged kind: the pair (u, v) has a value of its own.
// Here and in `free_kind` the three are plain bits, as the arms of `matched_kind` list them: with a `Truth` for each
// the fourteen arms would be three times as long. Two functions, as the two kinds name their fields.
fn charged_kind(u: u8, v: u8, own: u8) -> Kind
    requires { (u ≤ 1) × (v ≤ 1) × (own ≤ 1) }
    ensures { meaning result ≡ charged u v own }
{
    Kind::Charged(AndGate {
        u: Truth { bit: u },
        v: Truth { bit: v },
        own: Truth { bit: own },
    })
}

// A free kind: the value is pu ⊕ qv ⊕ c.
fn free_kind(p: u8, q: u8, c: u8) -> Kind
    requires { (p ≤ 1) × (q ≤ 1) × (c ≤ 1) }
    ensures { meaning result ≡ free p q c }
{
    Kind::Free(XorGate {
        p: Truth { bit: p },
        q: Truth { bit: q },
        c: Truth { bit: c },
    })
}

// The match over the code number, one arm for each code that is not refused (01, Circuit; 02, job 2). It is the one place that knows
// the codes: whatever else is asked of a code comes from here.
#[tactic(auto, using(crate::proofs::CodeLaws::arm, crate::proofs::CodeLaws::code_other), unfolding(model::specs::Circuit::kinds, model::specs::Circuit::kind_of))]
pub fn matched_kind(code: u8) -> Kind
    ensures { meaning result ≡ kind_of code }
{
    match code {
        1 => charged_kind(0, 0, 1),
        2 => charged_kind(0, 1, 1),
        3 => free_kind(1, 0, 1),
        4 => charged_kind(1, 0, 1),
        5 => free_kind(0, 1, 1),
        6 => free_kind(1, 1, 0),
        7 => charged_kind(1, 1, 0),
        8 => charged_kind(1, 1, 1),
        9 => free_kind(1, 1, 1),
        10 => free_kind(0, 1, 0),
        11 => charged_kind(1, 0, 0),
        12 => free_kind(1, 0, 0),
        13 => charged_kind(0, 1, 0),
        14 => charged_kind(0, 0, 0),
        _ => Kind::Refused,
    }
}

// What a code adds to p, for any code: a number, as the model's `charge` is. A `match`, as `Kind` is no Option.
pub fn code_charge(code: u8) -> usize
    ensures { result ≡ charge (kind_of code) }
{
    match matched_kind(code) {
        Kind::Charged(_) => 1,
        _ => 0,
    }
}

// Whether a code is refused.
fn code_refused(code: u8) -> bool
    ensures { result ≡ is_refused (kind_of code) }
{
    matches!(matched_kind(code), Kind::Refused)
}

// Four bits in one number, sixteen places apart.
fn spread(w: u64, x: Truth, y: Truth, z: Truth) -> u64
    requires { w ≤ 1 }
    ensures { result ≡ apart w x.bit y.bit z.bit }
{
    w + 0x10000 * (x.bit as u64) + 0x100000000 * (y.bit as u64) + 0x1000000000000 * (z.bit as u64)
}

// What a kind has, so: whether it is charged; and of a charged one its pair and the value there, of a free one p, q and c.
// The one place where all three cases of `Kind` are asked for what they have.
fn kind_bits(k: Kind) -> u64
    ensures { result ≡ bits_apart (meaning k) }
{
    match k {
        Kind::Charged(g) => spread(1, g.u, g.v, g.own),
        Kind::Free(g) => spread(0, g.p, g.q, g.c),
        Kind::Refused => 0,
    }
}

// The same of the kind of a code.
fn code_bits(code: u8) -> u64
    ensures { (result ≡ bits_apart (kind_of code)) × (result ≤ 0x1000100010001) }
{
    kind_bits(matched_kind(code))
}

// The same of four codes from this one on, in one number: a place for each.
fn four_bits(code: u8) -> u64
    requires { code ≤ 12 }
    ensures { (result ≡ bits_from 4 code) × (result ≤ 0xF000F000F000F) }
{
    let a = code_bits(code);
    let b = code_bits(code + 1);
    let c = code_bits(code + 2);
    let d = code_bits(code + 3);
    a + 2 * b + 4 * c + 8 * d
}

// The same of all sixteen. The compiler works this out, since the codes stand here as numbers: what is left of it and of the match
// is a number.
fn all_bits() -> u64
    ensures { result ≡ bits_from 16 0 }
{
    let a = four_bits(0);
    let b = four_bits(4);
    let c = four_bits(8);
    let d = four_bits(12);
    a + 16 * b + 256 * c + 4096 * d
}

// One of the four bits of a code, from 0.
fn code_bit(i: u8, code: u8) -> u8
    requires { (i ≤ 3) × (code ≤ 15) }
    ensures { (result ≡ kind_bit i (kind_of code)) × (result ≤ 1) }
{
    ((all_bits() >> (16 * (i as u32) + (code as u32))) % 2) as u8
}

// What a code that is not refused adds to p, for the walk over an accepted circuit: the number that is added.
pub fn used_charge(code: u8) -> usize
    requires { is_refused (kind_of code) ≡ false }
    ensures { result ≡ charge (kind_of code) }
{
    code_bit(0, code) as usize
}

// Which operands a free gate takes: whether a, and whether b with it. One that does not take a takes b.
// Two bits and not an enum of three cases: whoever evaluates makes a choice of the one and a mask of the other; two
// masks were tried and are slower (bench/NOTES.md, "Free gates").
#[derive(Clone, Copy)]
pub struct Takes {
    pub a: Truth,
    pub both: Truth,
}

// Those of a free code, by p and q.
#[tactic(auto, using(crate::proofs::CodeLaws::code_known))]
pub fn code_takes(code: u8) -> Takes
    requires { (is_refused (kind_of code) ≡ false) × (charge (kind_of code) ≡ 0) }
    ensures { TakesIs (kind_of code) result.a.bit result.both.bit }
{
    let p = code_bit(1, code);
    let q = code_bit(2, code);
    Takes {
        a: Truth { bit: p },
        both: Truth { bit: p * q },
    }
}

// The kind of a code, for the operations. It is what the match gives, and no jump by the code: codes come in any order, and a jump for
// each would be mispredicted at nearly every gate.
#[tactic(auto, using(crate::proofs::CodeLaws::kind_cases))]
pub fn code_kind(code: u8) -> Kind
    ensures { meaning result ≡ kind_of code }
{
    if code_refused(code) {
        return Kind::Refused;
    }
    let x = Truth {
        bit: code_bit(1, code),
    };
    let y = Truth {
        bit: code_bit(2, code),
    };
    let z = Truth {
        bit: code_bit(3, code),
    };
    if code_bit(0, code) == 1 {
        return Kind::Charged(AndGate { u: x, v: y, own: z });
    }
    Kind::Free(XorGate { p: x, q: y, c: z })
}

// Bit 2u+v of the code (01, Circuit).
#[tactic(auto, unfolding(model::specs::Circuit::value))]
pub fn code_value(code: u8, u: Truth, v: Truth) -> Truth
    ensures { result.bit ≡ value code u.bit v.bit }
{
    Truth {
        bit: (code >> (2 * u.bit + v.bit)) % 2,
    }
}
