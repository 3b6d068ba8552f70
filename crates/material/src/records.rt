// The row records of a material, from one to the next: refusal 17 (01, Material; Turned down, by number).
ghost use Rattle.std.specs.Prelude.{◌≡◌, ◌+◌, ◌≤◌, ◌<◌, length};
ghost use Rattle.model.specs.Refusals.{row_record_at};
ghost use Rattle.material.specs.Answers.{Filed, AtGate, step_of, next_answer, row_answer, records_answer};

use crate::reader::{Standing, first_record, found_at, record_at};
use circuit::code::code_kind;
use circuit::gates::gate_at;
use model::{Kind, Refusal, Sizes, Wire};

// A place in a material: where a marked record starts.
// Beside `Reader`: evaluate goes on by bytes that it knows (`past`), without asking what stands there. Both are public
// and named in docs/DECISIONS.md.
#[derive(Clone, Copy)]
pub struct Cursor {
    pub at: usize,
}

impl Cursor {
    // The first record, past the header.
    pub fn first() -> Cursor
        ensures { result.at ≡ 9 }
    {
        Cursor { at: 9 }
    }

    // Past a row record of so many bytes. The place still fits a usize.
    pub fn past(self, bytes: usize) -> Cursor
        requires { self.at + bytes < 18446744073709551616 }
        ensures { result.at ≡ self.at + bytes }
    {
        Cursor {
            at: self.at + bytes,
        }
    }
}

// Whether a row record with the wire number that is due is at an index: what a reader finds there. Whether its rows lie within the
// material is not asked: whoever goes over a list of gate records looks before the material's length is known to be right.
#[tactic(auto, using(crate::proofs::RecordLaws::row_cases))]
pub fn is_row(material: &[u8], at: usize, due: Wire) -> bool
    requires { at + 4 ≤ length material.now }
    ensures { result ≡ row_record_at material.now at due.0 }
{
    match found_at(material, at) {
        Standing::Gate(own) | Standing::Cut(own) => own == due,
        Standing::Last | Standing::Nothing => false,
    }
}

// The record of a wire is due where the reader is. If it stands there, the reader goes past it; if anything else does, that is the
// fault. For any bytes and any place.
// A match, as it goes by the wire too: only a gate's record with the due one goes on.
#[tactic(auto, using(crate::proofs::RecordLaws::next_cases))]
fn next_record(material: &[u8], here: Cursor, due: Wire) -> Result<Cursor, Refusal>
    ensures { step_of result ≡ next_answer material.now here.at due.0 }
{
    let found = record_at(material, here.at);
    match found.standing {
        Standing::Gate(own) if own == due => Ok(Cursor { at: found.next }),
        _ => Err(Refusal::RowRecord(due)),
    }
}

// Gate k of a circuit at its turn: the record of a charged gate is due where the reader is. A free gate has none, and an accepted
// circuit has no refused one: nothing is read.
// An accepted circuit's wires are at most 65,535, so that `as u16` loses nothing. A `match`, as `Kind` is no Option.
fn pass_gate(
    circuit: &[u8],
    z: Sizes,
    material: &[u8],
    k: usize,
    here: Cursor,
) -> Result<Cursor, Refusal>
    requires { AtGate circuit.now z material.now k here.at }
    ensures { step_of result ≡ row_answer circuit.now material.now k }
{
    let g = gate_at(circuit, k);
    let due = Wire((z.n + k + 1) as u16);
    match code_kind(g.code) {
        Kind::Charged(_) => next_record(material, here, due),
        Kind::Free(_) | Kind::Refused => Ok(here),
    }
}

// Refusal 17: the gates are gone through in file order, and a reader goes from the first record on, past that of each charged gate.
// Without a fault it is then at the last record.
pub fn check_records(circuit: &[u8], z: Sizes, material: &[u8]) -> Result<Cursor, Refusal>
    requires { Filed circuit.now z material.now }
    ensures { step_of result ≡ records_answer circuit.now material.now }
{
    let mut here = Cursor {
        at: first_record(material),
    };
    for k in 0..z.q {
        here = pass_gate(circuit, z, material, k, here)?;
    }
    Ok(here)
}
