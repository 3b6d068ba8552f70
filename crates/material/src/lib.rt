// The material file (01, Material): its lengths, its refusals 12 to 18, and the way from one of its records to the next.
// The scheme is a byte wherever a length comes of it: a reader asks the length of a record in any bytes, before
// anything is known of them, and the contracts are over `scheme_of` of any byte (`standing_at`). Sizes stay beside the
// circuit: see `Sizes` in crates/model.
#![tactic(auto)]

ghost use Rattle.std.specs.Prelude.{◌≡◌, ◌≤◌};
ghost use Rattle.model.specs.Circuit.{circuit_of};
ghost use Rattle.model.specs.Scheme.{record_length};
ghost use Rattle.model.specs.Garbling.{scheme_of};
ghost use Rattle.model.specs.Material.{last_start, material_length};
ghost use Rattle.model.specs.Refusals.{material_verdict};
ghost use Rattle.model.specs.Operations.{ran_of};
ghost use Rattle.circuit.specs.Accepted.{Accepted};

use crate::file::check_file;
use crate::last::check_last;
use crate::records::check_records;
use model::{Refusal, Sizes};

pub mod ending;
pub mod file;
pub mod last;
pub mod reader;
pub mod records;
pub mod writers;

// The rows of a charged gate, by the scheme byte.
pub fn rows_stored(scheme: u8) -> usize
    ensures { (result ≡ (scheme_of scheme).stored) × (result ≤ 4) }
{
    match scheme {
        1 => 4,
        2 => 3,
        _ => 2,
    }
}

// The bytes of a charged gate's record, by the scheme byte: mark and wire number, 4 bytes, and its rows.
pub fn record_length(scheme: u8) -> usize
    ensures { (result ≡ record_length (scheme_of scheme)) × (result ≤ 68) }
{
    4 + 16 * rows_stored(scheme)
}

// Where the last record starts: past the header and the records of p charged gates.
#[tactic(auto, using(crate::proofs::LengthLaws::start_cases))]
pub fn last_start(scheme: u8, p: usize) -> usize
    requires { p ≤ 65535 }
    ensures { (result ≡ last_start scheme p) × (result ≤ 4456389) }
{
    9 + p * record_length(scheme)
}

// The material's length, for p charged gates, where the last record has so many bytes after its mark.
pub fn material_length(scheme: u8, last: usize, p: usize) -> usize
    requires { (last ≤ 2097120) × (p ≤ 65535) }
    ensures { result ≡ material_length scheme last p }
{
    last_start(scheme, p) + 2 + last
}

// Whether a material is well-formed for an accepted circuit of these sizes, or the first of refusals 12 to 18.
pub fn check_material(circuit: &[u8], z: Sizes, material: &[u8]) -> Result<(), Refusal>
    requires { Accepted circuit.now z }
    ensures { ran_of result ≡ material_verdict (circuit_of circuit.now) material.now }
{
    check_file(material, z)?;
    let last = check_records(circuit, z, material)?;
    check_last(material, z.m, last.at)
}
