// The circuit that compares two figures, by their width (02, job 1): inputs 1 to w are the price, lowest bit first, the next w the ceiling,
// and the one output is 1 exactly when price ≤ ceiling.
#![tactic(auto)]

ghost use Rattle.std.specs.Prelude.{◌≡◌, ◌-◌};
ghost use Rattle.model.specs.Bytes.{over, put};
ghost use Rattle.model.specs.Circuit.{record_bytes};
ghost use Rattle.model.specs.Operations.{ran_of, answer_of};
ghost use Rattle.comparator.specs.Comparator.{bit_gates, bits_to, comparator_bytes, width_verdict, ComparatorIs};
ghost use Rattle.comparator.specs.Parts.{BitStart, WriteStart};

use circuit::arguments::check_room;
use circuit::writers::{write_circuit_header, write_gate};
use model::{Refusal, Wire};

// 21: the width is outside 1 to 64.
#[tactic(auto, using(model::proofs::Conditions::conditions), unfolding(crate::specs::Comparator::width_verdict))]
fn check_width(width: usize) -> Result<(), Refusal>
    ensures { ran_of result ≡ width_verdict width }
{
    if width < 1 || 64 < width {
        return Err(Refusal::Width(width));
    }
    Ok(())
}

// The gates of one bit more, at a place: from its wires in the price and in the ceiling, and from the wire that says of the bits below it
// whether price ≤ ceiling.
// The place stands beside the buffer, as `put` of the contracts has it: see crates/buffer.
#[tactic(auto, using(crate::proofs::WriteLaws::bit_written))]
fn write_bit(circuit: &mut [u8], at: usize, price: u16, ceiling: u16, below: u16)
    requires { BitStart at below circuit.old }
    ensures { circuit.new ≡ put circuit.old at (record_bytes (bit_gates price ceiling below)) }
{
    let c = Wire(below);
    let t = Wire(below + 1);
    let u = Wire(below + 2);
    let v = Wire(below + 3);
    write_gate(circuit, at, Wire(price), c, 9);
    write_gate(circuit, at + 7, Wire(ceiling), c, 6);
    write_gate(circuit, at + 14, t, u, 8);
    write_gate(circuit, at + 21, c, v, 6);
}

// The gates of all bits above the lowest.
#[tactic(auto, using(crate::proofs::WriteLaws::bits_start, crate::proofs::WriteLaws::bits_turn), unfolding(crate::specs::Comparator::comparator_length))]
fn write_bits(circuit: &mut [u8], w: u16)
    requires { WriteStart w circuit.old }
    ensures { circuit.new ≡ put circuit.old 15 (record_bytes (bits_to w (w - 1))) }
{
    for k in 0..w - 1 {
        let at = 15 + 28 * (k as usize);
        write_bit(circuit, at, k + 2, w + k + 2, 2 * w + 1 + 4 * k);
    }
}

// The circuit for an allowed width: the header, the gate of the lowest bit, and the gates of the others.
#[tactic(auto, using(crate::proofs::WriteLaws::comparator_written), unfolding(crate::specs::Comparator::comparator_length))]
fn write_comparator(circuit: &mut [u8], w: u16)
    requires { WriteStart w circuit.old }
    ensures { circuit.new ≡ over (comparator_bytes w) circuit.old }
{
    let width = w as usize;
    write_circuit_header(circuit, 2 * width, 1, 4 * width - 3);
    write_gate(circuit, 8, Wire(1), Wire(w + 1), 11);
    write_bits(circuit, w);
}

// Writes the circuit for a width of 1 to 64 bits, and answers its length; or refusal 21, or 19.
// A width that was checked fits 16 bits, so that `as u16` loses nothing.
pub fn comparator(width: usize, circuit: &mut [u8]) -> Result<usize, Refusal>
    ensures { ComparatorIs width circuit.old (answer_of result) circuit.new }
{
    check_width(width)?;
    let needed = 28 * width - 13;
    check_room(needed, circuit.len())?;
    write_comparator(circuit, width as u16);
    Ok(needed)
}
