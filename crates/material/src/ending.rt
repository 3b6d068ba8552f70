// What a material ends in, by its mark: colours (47 48; 01, Material) or hashes (47 4A; 02, job 12). Whatever differs between the two
// outside of garbling and decoding stands here; `hashed` is which of them it is.
// It is a bool, as the model's `ending_of` and `last_bytes` are functions of a Bool: each function here has one `if` by
// it. Marks are two bytes of the file, and garble takes any u16 for one, which it refuses by 13.
ghost use Rattle.std.specs.Prelude.{◌≡◌, ◌||◌, ◌+◌, ◌≤◌, length};
ghost use Rattle.model.specs.Circuit.{mark_at};
ghost use Rattle.model.specs.Tokens.{wants_hashes};
ghost use Rattle.model.specs.Ending.{colours, ending_of};
ghost use Rattle.model.specs.Material.{hashed, last_bytes};
ghost use Rattle.model.specs.Refusals.{first_of, mark_verdict, stored_verdict};
ghost use Rattle.model.specs.Operations.{ran_of};

use circuit::marks::mark_at;
use circuit::values::search_values;
use model::{Refusal, Wanted};

// Whether a material ends in hashes, for any bytes.
#[tactic(auto, using(crate::proofs::EndingLaws::hashed_cases))]
pub fn is_hashed(material: &[u8]) -> bool
    ensures { result ≡ hashed material.now }
{
    2 <= material.len() && mark_at(material, 0, 0x47, 0x4A)
}

// Whether it has one of the two marks.
#[tactic(auto, using(crate::proofs::EndingLaws::known_cases))]
pub fn known_mark(material: &[u8]) -> bool
    requires { 2 ≤ length material.now }
    ensures { result ≡ (mark_at material.now 0 0x47 0x48 || hashed material.now) }
{
    mark_at(material, 0, 0x47, 0x48) || is_hashed(material)
}

// 13 of the mark that garble is handed.
#[tactic(auto, using(crate::proofs::EndingLaws::mark_cases))]
pub fn check_mark(mark: u16) -> Result<(), Refusal>
    ensures { ran_of result ≡ mark_verdict mark }
{
    match mark {
        0x4748 | 0x474A => Ok(()),
        _ => Err(Refusal::MaterialMark),
    }
}

// Whether garble is to make one that ends in hashes.
pub fn wants_hashes(wanted: Wanted) -> bool
    ensures { result ≡ wants_hashes wanted }
{
    wanted.mark == 0x474A
}

// The second byte of the header's mark, after 47.
#[tactic(auto, using(crate::proofs::EndingLaws::ending_cases))]
pub fn header_mark(hashed: bool) -> u8
    ensures { result ≡ (ending_of hashed).header_mark }
{
    if hashed { 0x4A } else { 0x48 }
}

// And of the last record's.
#[tactic(auto, using(crate::proofs::EndingLaws::ending_cases))]
pub fn last_mark(hashed: bool) -> u8
    ensures { result ≡ (ending_of hashed).last_mark }
{
    if hashed { 0x41 } else { 0x44 }
}

// How many bytes the last record has after its mark, of m outputs.
#[tactic(auto, using(crate::proofs::EndingLaws::ending_cases))]
pub fn last_bytes(hashed: bool, m: usize) -> usize
    requires { m ≤ 65535 }
    ensures { (result ≡ last_bytes hashed m) × (result ≤ 2097120) }
{
    if hashed { 32 * m } else { m }
}

// Refusal 18 of the m bytes after the mark of a record that starts at an index: one of them exceeds 1.
fn check_colours(material: &[u8], m: usize, start: usize) -> Result<(), Refusal>
    requires { start + 2 + m ≤ length material.now }
    ensures { ran_of result ≡ first_of (stored_verdict colours material.now start) m }
{
    let colours = &material[start + 2..start + 2 + m];
    search_values(colours).map_err(|_| Refusal::LastRecord(start))
}

// Refusal 18 of what a record has after its mark: any hashes may stand there.
#[tactic(auto, using(crate::proofs::EndingLaws::stored_cases))]
pub fn check_stored(material: &[u8], m: usize, start: usize) -> Result<(), Refusal>
    requires { start + 2 + m ≤ length material.now }
    ensures { ran_of result ≡ first_of (stored_verdict (ending_of (hashed material.now)) material.now start) m }
{
    if is_hashed(material) {
        return Ok(());
    }
    check_colours(material, m, start)
}
