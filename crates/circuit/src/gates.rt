// The gates of a circuit: one gate's faults, and the search over the gate records (refusals 5 to 7).
// Records lie in the circuit at places by their number, as the file has them: each function takes the whole circuit, of
// which the contracts speak, and n, q or k as they need them. Of a circuit that is not accepted yet there are no
// `Sizes`. A gate's own wire is `n + k + 1`, at most 65,535 by the contract, so that `as u16` loses nothing; `try_from`
// would need an answer for a case that never is.
ghost use Rattle.std.specs.Prelude.{◌≡◌, ◌+◌, ◌*◌, ◌≤◌, ◌<◌, length};
ghost use Rattle.model.specs.Circuit.{gate_at};
ghost use Rattle.model.specs.Operations.{answer_of};
ghost use Rattle.circuit.specs.Answers.{gate_answer, record_answer, search_answer};

use crate::code::matched_kind;
use crate::marks::mark_at;
use buffer::read16;
use model::{Gate, Kind, Refusal, Wire};

// Gate record k, from 0.
pub fn gate_at(circuit: &[u8], k: usize) -> Gate
    requires { (8 + 7 * k + 7 ≤ length circuit.now) × (k < 65536) }
    ensures { result ≡ gate_at circuit.now k }
{
    let at = 8 + 7 * k;
    let a = Wire(read16(circuit, at + 2));
    let b = Wire(read16(circuit, at + 4));
    Gate {
        a,
        b,
        code: circuit[at + 6],
    }
}

// What a gate adds to p, or refusal 6 or 7, by its own wire. It is a number, as the model's `charge` is, to be added up.
// `Kind` has three cases, and each has an answer of its own: a `match` is the shortest.
#[tactic(auto, using(model::proofs::Conditions::conditions, crate::proofs::CodeLaws::charge_cases, crate::proofs::CodeLaws::refused_cases), unfolding(model::specs::Refusals::gate_verdict, model::specs::Circuit::operands_hold))]
pub fn read_gate(own: Wire, g: Gate) -> Result<usize, Refusal>
    ensures { answer_of result ≡ gate_answer own.0 g }
{
    if g.a.0 < 1 || g.b <= g.a || own <= g.b {
        return Err(Refusal::Operands(own));
    }
    match matched_kind(g.code) {
        Kind::Charged(_) => Ok(1),
        Kind::Free(_) => Ok(0),
        Kind::Refused => Err(Refusal::Code(own)),
    }
}

// The same of gate record k, in a circuit of n inputs; or refusal 5.
#[tactic(auto, using(model::proofs::Conditions::conditions, crate::proofs::GateLaws::record_gate), unfolding(model::specs::Refusals::record_verdict))]
pub fn read_record(circuit: &[u8], n: usize, k: usize) -> Result<usize, Refusal>
    requires { (8 + 7 * k + 7 ≤ length circuit.now) × (n + k < 65535) }
    ensures { answer_of result ≡ record_answer circuit.now n k }
{
    let own = Wire((n + k + 1) as u16);
    if !mark_at(circuit, 8 + 7 * k, 0x43, 0x47) {
        return Err(Refusal::GateMark(own));
    }
    read_gate(own, gate_at(circuit, k))
}

// The number of charged gates, or the first fault: the search goes over the gate records in file order and leaves at the first gate
// with one (01, Turned down, by number).
pub fn search_gates(circuit: &[u8], n: usize, q: usize) -> Result<usize, Refusal>
    requires { (8 + 7 * q ≤ length circuit.now) × (n + q ≤ 65535) }
    ensures { answer_of result ≡ search_answer circuit.now n q }
{
    let mut p: usize = 0;
    for k in 0..q {
        p += read_record(circuit, n, k)?;
    }
    Ok(p)
}
