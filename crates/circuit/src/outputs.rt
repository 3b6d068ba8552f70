// The outputs: the search over the output records of a circuit that names them (refusals 25 and 26), and which wire each output is
// (01, Circuit; 02, job 8).
// Circuit and header stay two arguments, and the contracts say that they belong together (`HeaderIs`, `OutputStart`):
// they name the circuit's bytes, as crates/model says at `Sizes`. Records lie at places by their number, as the file
// has them. The mark is asked where the two forms of a circuit differ. A wire of one is at most 65,535, so that `as
// u16` loses nothing.
ghost use Rattle.std.specs.Prelude.{◌≡◌, ◌+◌, ◌*◌, ◌<◌, get_or};
ghost use Rattle.model.specs.Circuit.{circuit_of};
ghost use Rattle.model.specs.Refusals.{first_of, output_verdict, outputs_verdict};
ghost use Rattle.model.specs.Operations.{ran_of};
ghost use Rattle.circuit.specs.Outputs.{HeaderIs, NamedStart, RecordStart, OutputStart};

use crate::header::{Header, is_named};
use crate::marks::mark_at;
use buffer::read16;
use model::{Refusal, Sizes, Wire};

// Where output record k, from 0, stands: past the header of 8 bytes, q gate records of 7 and k output records of 4.
fn output_record(q: usize, k: usize) -> usize
    requires { (q < 65536) × (k < 65536) }
    ensures { result ≡ 8 + 7 * q + 4 * k }
{
    8 + 7 * q + 4 * k
}

// Refusals 25 and 26 of output record k, from 0. The place counts from 1.
fn read_output(circuit: &[u8], h: Header, k: usize) -> Result<(), Refusal>
    requires { RecordStart circuit.now h k }
    ensures { ran_of result ≡ output_verdict circuit.now k }
{
    let place = k + 1;
    let at = output_record(h.q, k);
    if !mark_at(circuit, at, 0x43, 0x4F) {
        return Err(Refusal::OutputMark(place));
    }
    let w = read16(circuit, at + 2) as usize;
    if w < 1 || h.n + h.q < w {
        return Err(Refusal::OutputWire(place));
    }
    Ok(())
}

// The search over the output records, in file order: it leaves at the first with a fault.
fn search_records(circuit: &[u8], h: Header) -> Result<(), Refusal>
    requires { NamedStart circuit.now h }
    ensures { ran_of result ≡ first_of (output_verdict circuit.now) h.m }
{
    for k in 0..h.m {
        read_output(circuit, h, k)?;
    }
    Ok(())
}

// Refusals 25 and 26, of a circuit whose header this is. One of mark 43 48 has no output records.
pub fn search_outputs(circuit: &[u8], h: Header) -> Result<(), Refusal>
    requires { HeaderIs circuit.now h }
    ensures { ran_of result ≡ outputs_verdict circuit.now }
{
    if !is_named(circuit) {
        return Ok(());
    }
    search_records(circuit, h)
}

// The wire of output i, from 0. A circuit of mark 43 49 has it in its output record; those of one of mark 43 48 are the last m wires,
// and the sizes tell them.
pub fn output_wire(circuit: &[u8], z: Sizes, i: usize) -> Wire
    requires { OutputStart circuit.now z i }
    ensures { result.0 ≡ get_or (circuit_of circuit.now).outputs i 0 }
{
    if is_named(circuit) {
        return Wire(read16(circuit, output_record(z.q, i) + 2));
    }
    Wire((z.n + z.q - z.m + 1 + i) as u16)
}
