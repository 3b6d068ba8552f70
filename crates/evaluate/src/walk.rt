// The walk over the gates (01, Operations, evaluate): the tokens of all wires, in the buffer that they are read from.
// Whatever enciphers is lent a `FixedKey`: the T-tables, and the schedule of π's key.
// The scheme byte goes down as it is: the model's `scheme_of` is a function of the byte. Tokens stand at 16i in the
// lent buffer, as the files have them (no heap). What is so of the wires before a gate (`Operands`) is a clause, since
// they are written from gate to gate; so is the room for a record (`RecordRoom`), whose place moves on. A circuit, n
// and q stay apart: `WalkStart` names the bytes alone.
ghost use Rattle.std.specs.Prelude.{◌≡◌, cond, eqb, ◌+◌, ◌*◌, ◌≤◌};
ghost use Rattle.model.specs.Circuit.{kind_of, charge};
ghost use Rattle.model.specs.Scheme.{record_length};
ghost use Rattle.model.specs.Garbling.{scheme_of};
ghost use Rattle.scheme.specs.Rows.{RecordRoom};
ghost use Rattle.evaluate.specs.Walk.{Operands, FreeTokenIs, TokenStart, TokenIs, OpenedTo, WalkStart, WalkedIs, WiresStart, WiresAre};

use aes::FixedKey;
use block::{load, store};
use buffer::copy_front;
use circuit::code::{Takes, code_takes, used_charge};
use circuit::gates::gate_at;
use material::record_length;
use material::records::Cursor;
use model::{Gate, Wire};
use scheme::{free_token, open_charged};

// The operand that a free gate takes, or the first of both. Codes come in any order, and the compiler makes no branch of this choice.
// A bit is compared as the contract has it: `==` of two `Truth`s would have to make the second one.
fn first_taken(g: Gate, takes: Takes) -> Wire
    ensures { result ≡ cond (eqb takes.a.bit 1) g.a g.b }
{
    if takes.a.bit == 1 { g.a } else { g.b }
}

// Gate k, from 0, of a circuit of n inputs is g, and is free: its token, which needs no material, is written after those of the wires
// before it, from the operands that the gate takes. π is not called.
pub fn write_free(n: usize, k: usize, g: Gate, wires: &mut [u8])
    requires operands { Operands n k g wires.old }
    requires code_value { charge (kind_of g.code) ≡ 0 }
    ensures { FreeTokenIs n k g wires.old wires.new }
{
    let place = 16 * (n + k);
    let takes = code_takes(g.code);
    let first = first_taken(g, takes);
    let x = load(wires, 16 * (first.0 as usize - 1));
    let b = load(wires, 16 * (g.b.0 as usize - 1));
    store(wires, place, free_token(x, takes.both, b));
}

// The same of a charged gate, whose row record stands here. Answers the encryptions made. Its arguments come one by one:
// tried, as a method of `Opening` it makes evaluate 6 % slower, since the struct then stays in memory. The gate's wire
// is made by `as`: it fits 16 bits by the contract, and `try_from` would answer an error that cannot be. The key comes
// fifth: tried in seven orders, with it first evaluate by schemes 3 and 4 takes 0.4 to 0.7 % more instructions, and
// with it last 1 to 2 %.
pub fn write_charged(
    scheme: u8,
    n: usize,
    k: usize,
    g: Gate,
    key: &FixedKey,
    material: &[u8],
    here: Cursor,
    wires: &mut [u8],
) -> usize
    requires operands { Operands n k g wires.old }
    requires record_room { RecordRoom scheme here.at material.now }
    requires code_value { charge (kind_of g.code) ≡ 1 }
    ensures { TokenIs scheme n k g material.now here.at wires.old (here.at + record_length (scheme_of scheme)) result wires.new }
{
    let place = 16 * (n + k);
    let own = Wire((n + k + 1) as u16);
    let a = load(wires, 16 * (g.a.0 as usize - 1));
    let b = load(wires, 16 * (g.b.0 as usize - 1));
    let made = open_charged(key, scheme, own, a, b, material, here.at);
    store(wires, place, made.token);
    made.calls
}

// Between two gates: where the next row record stands, and the encryptions made so far.
// By value, and no `&mut`: the clauses then have one name for what was and one for what is, and no `.old` and `.new`
// of each.
#[derive(Clone, Copy)]
pub struct SoFar {
    pub here: Cursor,
    pub calls: usize,
}

impl SoFar {
    // Before the first gate.
    pub fn start() -> SoFar
        ensures { (result.here.at ≡ 9) × (result.calls ≡ 0) }
    {
        SoFar {
            here: Cursor::first(),
            calls: 0,
        }
    }
}

// What no gate changes: what π is computed with, the material and its scheme byte, and the number of inputs.
#[derive(Clone, Copy)]
pub struct Opening<'a> {
    pub key: &'a FixedKey,
    pub scheme: u8,
    pub material: &'a [u8],
    pub n: usize,
}

impl<'a> Opening<'a> {
    // The token of gate k, which is g, and what is so far after it: a charged gate adds the encryptions made for it. It
    // stands in the loop of each caller, and only a charged gate is a call: a free one is soon done.
    #[inline(always)]
    pub fn write_token(&self, k: usize, g: Gate, s: SoFar, wires: &mut [u8]) -> SoFar
        requires token_start { TokenStart self.now.scheme self.now.n k g self.now.material.now s.here.at wires.old }
        requires few_calls { s.calls ≤ 2 * k }
        ensures { OpenedTo self.now.scheme self.now.n k g self.now.material.now s.here.at s.calls wires.old result.here.at result.calls wires.new }
    {
        // The charge is a number, as in the model (`charge`): a match over the kinds would be a jump by the code
        // (circuit, code.rt).
        if used_charge(g.code) == 0 {
            write_free(self.n, k, g, wires);
            return s;
        }
        let made = write_charged(
            self.scheme,
            self.n,
            k,
            g,
            self.key,
            self.material,
            s.here,
            wires,
        );
        let here = s.here.past(record_length(self.scheme));
        let calls = s.calls + made;
        SoFar { here, calls }
    }
}

// The tokens of the gates, written after the inputs' tokens, which stand at the front of the buffer. Answers the encryptions made,
// added up gate by gate.
pub fn write_tokens(
    key: &FixedKey,
    circuit: &[u8],
    n: usize,
    q: usize,
    material: &[u8],
    wires: &mut [u8],
) -> usize
    requires walk_start { WalkStart circuit.now material.now n q wires.old }
    ensures { WalkedIs circuit.now material.now n wires.old result wires.new }
{
    let opening = Opening {
        key,
        scheme: material[2],
        material,
        n,
    };
    let mut s = SoFar::start();
    for k in 0..q {
        s = opening.write_token(k, gate_at(circuit, k), s, wires);
    }
    s.calls
}

// The tokens of all wires, from those of the inputs; answers the encryptions made. What π is computed with is made once,
// here, and lent down.
// Beside `evaluate_gates` of list.rt: what both have in common is the line that makes the key.
pub fn evaluate_wires(
    circuit: &[u8],
    n: usize,
    q: usize,
    tokens: &[u8],
    material: &[u8],
    wires: &mut [u8],
) -> usize
    requires { WiresStart circuit.now tokens.now material.now n q wires.old }
    ensures { WiresAre circuit.now tokens.now material.now wires.old result wires.new }
{
    let key = FixedKey::new();
    copy_front(tokens, wires);
    write_tokens(&key, circuit, n, q, material, wires)
}
