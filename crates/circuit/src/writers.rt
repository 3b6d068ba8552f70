// The bytes of a circuit, written: its header and its gate records (01, Circuit).
// Sizes come as numbers, as whoever writes a circuit knows no p, and a place beside the buffer, as in crates/buffer.
// The material's header has other fields, so it is no twin of this one: what they share is `copy_front`.
ghost use Rattle.std.specs.Prelude.{◌≡◌, ◌∷◌, ◌++◌, ◌+◌, ◌≤◌, length};
ghost use Rattle.model.specs.Bytes.{two, over, put};
ghost use Rattle.model.specs.Circuit.{gate_bytes};

use buffer::{copy_front, copy_to, two};
use model::Wire;

// The header of a circuit whose outputs are its last wires: mark 43 48, and n, m, q of 2 bytes each.
pub fn write_circuit_header(circuit: &mut [u8], n: usize, m: usize, q: usize)
    requires { 8 ≤ length circuit.old }
    ensures { circuit.new ≡ over (0x43 ∷ 0x48 ∷ two n ++ two m ++ two q) circuit.old }
{
    let [n_high, n_low] = two(n);
    let [m_high, m_low] = two(m);
    let [q_high, q_low] = two(q);
    let head = [0x43, 0x48, n_high, n_low, m_high, m_low, q_high, q_low];
    copy_front(&head, circuit);
}

// A gate's record: mark 43 47, its operands of 2 bytes each, its code. Any byte is one, as `gate_bytes` is of any.
#[tactic(auto, unfolding(model::specs::Circuit::gate_bytes))]
pub fn write_gate(circuit: &mut [u8], at: usize, a: Wire, b: Wire, code: u8)
    requires { at + 7 ≤ length circuit.old }
    ensures { circuit.new ≡ put circuit.old at (gate_bytes (record { a = a; b = b; code = code })) }
{
    let [a_high, a_low] = two(a.0 as usize);
    let [b_high, b_low] = two(b.0 as usize);
    let record = [0x43, 0x47, a_high, a_low, b_high, b_low, code];
    copy_to(&record, circuit, at);
}
