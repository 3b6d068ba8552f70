// Values: the search of a value list, the refusals of plain, and what the plain circuit carries on the wires of its gates (01, Circuit).
ghost use Rattle.std.specs.Prelude.{◌≡◌, take};
ghost use Rattle.model.specs.Bytes.{over};
ghost use Rattle.model.specs.Circuit.{circuit_of, plain_values};
ghost use Rattle.model.specs.Refusals.{fine, bits_verdict};
ghost use Rattle.model.specs.Operations.{ran_of};
ghost use Rattle.circuit.specs.Accepted.{Bounded};
ghost use Rattle.circuit.specs.Answers.{plain_arguments, PlainStart};

use crate::arguments::{check_room, check_values};
use crate::code::code_value;
use crate::gates::gate_at;
use model::{Refusal, Sizes, Truth};

// What all values together have beyond their lowest bits: 0 where each of them is a bit. Nothing branches by a single value: a value's own
// bit is a secret, and no time may depend on it.
// So what they have beyond is joined into one byte, by no branch, and its caller asks for 0 once. `equal_pairs` of
// garble and `unknown_together` of evaluate join likewise, but over what each looks at: one function for the three
// would be a fold, whose closure and invariant each would have to write again.
#[tactic(auto, using(crate::proofs::ValueLaws::gather_cases))]
fn beyond_bits(values: &[u8]) -> u8
    ensures { result ≡ 0 → fine ≡ bits_verdict values.now }
{
    let mut all: u8 = 0;
    for value in values {
        all |= value / 2;
    }
    all
}

// Refusal 10: where not all are bits, the search leaves at the first value that is neither 0 nor 1.
#[tactic(auto, using(crate::proofs::ValueLaws::values_cases))]
pub fn search_values(values: &[u8]) -> Result<(), Refusal>
    ensures { ran_of result ≡ bits_verdict values.now }
{
    if beyond_bits(values) == 0 {
        return Ok(());
    }
    for (i, value) in values.iter().enumerate() {
        if 1 < *value {
            return Err(Refusal::Value(i));
        }
    }
    Ok(())
}

// The refusals of plain once the circuit is accepted, in order: 9, 10, 19.
pub fn plain_arguments(z: Sizes, values: &[u8], room: usize) -> Result<(), Refusal>
    requires { Bounded z }
    ensures { ran_of result ≡ plain_arguments z values.now room }
{
    check_values(z.n, values)?;
    check_room(z.n + z.q, room)
}

// The gates' values, written after the inputs' values, which stand at the front of the buffer.
// n and q alone, as its contract has them (`PlainStart`): m and p say nothing here. The walks over tokens in garble and
// evaluate have the same `for` with another step and another contract: one walk that takes the step as a closure would
// need the sum of these contracts for a loop of few lines.
pub fn plain_gates(circuit: &[u8], n: usize, q: usize, wires: &mut [u8])
    requires { PlainStart circuit.now wires.old n q }
    ensures { wires.new ≡ over (plain_values (circuit_of circuit.now) (take n wires.old)) wires.old }
{
    for k in 0..q {
        let g = gate_at(circuit, k);
        let u = Truth {
            bit: wires[g.a.0 as usize - 1],
        };
        let v = Truth {
            bit: wires[g.b.0 as usize - 1],
        };
        wires[n + k] = code_value(g.code, u, v).bit;
    }
}
