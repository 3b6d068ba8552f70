// The header and the length of a material: refusals 12 to 16 (01, Turned down, by number).
ghost use Rattle.std.specs.Prelude.{◌≡◌, ◌≤◌, length};
ghost use Rattle.model.specs.Material.{hashed, last_bytes, material_length};
ghost use Rattle.model.specs.Refusals.{same_sizes, file_verdict};
ghost use Rattle.model.specs.Operations.{ran_of};

use crate::ending::{is_hashed, known_mark, last_bytes};
use crate::material_length;
use buffer::read16;
use circuit::arguments::check_scheme;
use model::{Refusal, Sizes};

// Whether the header's n, m and q are these.
// One by one, as the model has it: they are read to be compared, and a struct of them would be made for that alone.
#[tactic(auto, using(model::proofs::Conditions::conditions), unfolding(model::specs::Refusals::same_sizes))]
fn same_sizes(material: &[u8], z: Sizes) -> bool
    requires { 9 ≤ length material.now }
    ensures { result ≡ same_sizes z material.now }
{
    read16(material, 3) as usize == z.n
        && read16(material, 5) as usize == z.m
        && read16(material, 7) as usize == z.q
}

// The length that is due, by the material's mark.
fn due_length(material: &[u8], scheme: u8, z: Sizes) -> usize
    requires { (z.m ≤ 65535) × (z.p ≤ 65535) }
    ensures { result ≡ material_length scheme (last_bytes (hashed material.now) z.m) z.p }
{
    let last = last_bytes(is_hashed(material), z.m);
    material_length(scheme, last, z.p)
}

// The first of refusals 12 to 16, of a material for a circuit of these sizes.
#[tactic(auto, using(model::proofs::Conditions::conditions), unfolding(model::specs::Refusals::file_verdict))]
pub fn check_file(material: &[u8], z: Sizes) -> Result<(), Refusal>
    requires { (z.m ≤ 65535) × (z.p ≤ 65535) }
    ensures { ran_of result ≡ file_verdict z material.now }
{
    let len = material.len();
    if len < 9 {
        return Err(Refusal::MaterialShort(len));
    }
    if !known_mark(material) {
        return Err(Refusal::MaterialMark);
    }
    let scheme = material[2];
    check_scheme(scheme)?;
    if !same_sizes(material, z) {
        return Err(Refusal::MaterialSizes);
    }
    if len != due_length(material, scheme, z) {
        return Err(Refusal::MaterialLength(len));
    }
    Ok(())
}
