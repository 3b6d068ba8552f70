// The last record of a material: refusal 18 (01, Material; Turned down, by number).
// The record's start stands beside the lent material, as in crates/buffer; it is the place of the refusal too.
ghost use Rattle.std.specs.Prelude.{◌≡◌, ◌+◌, ◌≤◌, length};
ghost use Rattle.model.specs.Refusals.{last_verdict};
ghost use Rattle.model.specs.Operations.{ran_of};

use crate::ending::check_stored;
use crate::reader::{Standing, found_at};
use model::Refusal;

// Refusal 18 of the record that starts at an index: its mark is not the one that is due, or what it has of an output is wrong. Its start
// is the place either way. One of the four cases of `Standing` is due, and all others are one answer.
#[tactic(auto, using(crate::proofs::LastLaws::last_cases))]
pub fn check_last(material: &[u8], m: usize, start: usize) -> Result<(), Refusal>
    requires { start + 2 + m ≤ length material.now }
    ensures { ran_of result ≡ last_verdict material.now start m }
{
    match found_at(material, start) {
        Standing::Last => check_stored(material, m, start),
        _ => Err(Refusal::LastRecord(start)),
    }
}
