// The header of a circuit: its mark, its counts, and refusals 1 to 4.
ghost use Rattle.std.specs.Prelude.{◌≡◌, ◌||◌, ◌≤◌, ◌<◌, length};
ghost use Rattle.model.specs.Circuit.{mark_at, named, most_outputs, sizes_hold, circuit_length};
ghost use Rattle.model.specs.Operations.{answer_of};
ghost use Rattle.circuit.specs.Answers.{header_answer};

use crate::marks::mark_at;
use buffer::read16;
use model::Refusal;

// A circuit's counts of inputs, outputs and gates.
// Not `Sizes`, whose p the gates tell: with a header in them it would be `z.header.n` at each use.
#[derive(Clone, Copy)]
pub struct Header {
    pub n: usize,
    pub m: usize,
    pub q: usize,
}

// Whether a circuit names its outputs: its mark is 43 49 (02, job 8).
// Here and below the answer is a bool, as the model's `named`, `most_outputs`, `sizes_hold` and `circuit_length` have a
// Bool for it: it says whether, and each of these has one `if` by it. That two bytes are there is asked of the lent
// circuit, where its length is known.
#[tactic(auto, unfolding(model::specs::Circuit::named))]
pub fn is_named(circuit: &[u8]) -> bool
    requires { 2 ≤ length circuit.now }
    ensures { result ≡ named circuit.now }
{
    mark_at(circuit, 0, 0x43, 0x49)
}

// Whether a circuit's mark is 43 48 or 43 49. A material has a `known_mark` of its own two: one function for both would be
// handed four bytes.
fn known_mark(circuit: &[u8]) -> bool
    requires { 2 ≤ length circuit.now }
    ensures { result ≡ (mark_at circuit.now 0 0x43 0x48 || named circuit.now) }
{
    mark_at(circuit, 0, 0x43, 0x48) || is_named(circuit)
}

// How many outputs there may be: q, or n+q where they are named.
#[tactic(auto, unfolding(model::specs::Circuit::most_outputs))]
fn most_outputs(named: bool, n: usize, q: usize) -> usize
    requires { (n < 65536) × (q < 65536) }
    ensures { result ≡ most_outputs named n q }
{
    if named { n + q } else { q }
}

// n from 2 to 4,096; m from 1 to q, or to n+q where outputs are named; q at least 1; n+q at most 65,535 (01, Circuit; 02, job 8).
#[tactic(auto, using(model::proofs::Conditions::conditions), unfolding(model::specs::Circuit::sizes_hold))]
pub fn sizes_hold(named: bool, n: usize, m: usize, q: usize) -> bool
    requires { (n < 65536) × (q < 65536) }
    ensures { result ≡ sizes_hold named n m q }
{
    2 <= n && n <= 4096 && 1 <= m && m <= most_outputs(named, n, q) && 1 <= q && n + q <= 65535
}

// The bytes of a circuit: 8+7q, and where outputs are named 4m more.
#[tactic(auto, unfolding(model::specs::Circuit::circuit_length))]
fn circuit_length(named: bool, m: usize, q: usize) -> usize
    requires { (m < 65536) × (q < 65536) }
    ensures { result ≡ circuit_length named m q }
{
    if named { 8 + 7 * q + 4 * m } else { 8 + 7 * q }
}

// The header, or the first of refusals 1 to 4.
#[tactic(auto, using(crate::proofs::HeaderLaws::header_cases, model::proofs::Conditions::conditions), unfolding(model::specs::Refusals::head_verdict))]
pub fn read_header(circuit: &[u8]) -> Result<Header, Refusal>
    ensures { answer_of result ≡ header_answer circuit.now }
{
    let len = circuit.len();
    if len < 8 {
        return Err(Refusal::CircuitShort(len));
    }
    if !known_mark(circuit) {
        return Err(Refusal::CircuitMark);
    }
    let named = is_named(circuit);
    let n = read16(circuit, 2) as usize;
    let m = read16(circuit, 4) as usize;
    let q = read16(circuit, 6) as usize;
    let hold = sizes_hold(named, n, m, q);
    let whole = circuit_length(named, m, q);
    if !hold {
        return Err(Refusal::Limits);
    }
    if len != whole {
        return Err(Refusal::CircuitLength(len));
    }
    Ok(Header { n, m, q })
}
