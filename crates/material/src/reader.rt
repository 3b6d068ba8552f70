// A reader over the lent material (01, Material): it goes from one marked record to the next and remembers how far it is.
// What it finds is worked out by functions of a slice and a place, `standing_at` and `past_at`, which its methods call. `first_record`,
// `found_at` and `record_at` make a reader, and hand back what it finds and where it is then.
// Places stand beside the lent material, as in crates/buffer. What stands at one is asked of a slice and a place (by a
// list's walk) and of a reader: `Reader`, `first_record`, `found_at` and `record_at` are public, and named in
// docs/ASSUMPTIONS.md.
ghost use Rattle.std.specs.Prelude.{◌≡◌, ◌+◌, ◌≤◌, length};
ghost use Rattle.material.specs.Reader.{gate_standing, last_standing, standing_at, past_at, found_record};

use crate::ending::{is_hashed, last_mark};
use crate::record_length;
use buffer::read16;
use circuit::marks::mark_at;
use model::Wire;

// The material, and where in it the reader is.
#[derive(Clone, Copy)]
pub struct Reader<'a> {
    pub material: &'a [u8],
    pub at: usize,
}

// What stands at a place of a material.
// `Nothing` is a case as in the model of the reader (`standing_at`): `past_at` and `is_row` match all cases at once,
// and an `Option` around three would have the same four.
#[derive(Clone, Copy)]
pub enum Standing {
    // A charged gate's record, with its wire number: all of its rows lie within the material.
    Gate(Wire),
    // The mark and the wire number of one, and the material ends before its rows do.
    Cut(Wire),
    // The mark of the last record.
    Last,
    // Neither.
    Nothing,
}

// What stands at a place, and the place past it.
#[derive(Clone, Copy)]
pub struct Record {
    pub standing: Standing,
    pub next: usize,
}

// A gate's record at a place where its mark stands.
#[tactic(auto, using(crate::proofs::ReaderLaws::gate_cases))]
fn gate_standing(material: &[u8], at: usize) -> Standing
    requires { at + 4 ≤ length material.now }
    ensures { result ≡ gate_standing material.now at }
{
    let own = Wire(read16(material, at + 2));
    if material.len() - at < record_length(material[2]) {
        Standing::Cut(own)
    } else {
        Standing::Gate(own)
    }
}

// The last record at a place where no gate's record stands: by the header's mark, which is asked here alone and not at each gate.
#[tactic(auto, using(crate::proofs::ReaderLaws::last_cases))]
fn last_standing(material: &[u8], at: usize) -> Standing
    requires { at + 2 ≤ length material.now }
    ensures { result ≡ last_standing material.now at }
{
    let mark = last_mark(is_hashed(material));
    if mark_at(material, at, 0x47, mark) {
        Standing::Last
    } else {
        Standing::Nothing
    }
}

// What stands at a place, for any bytes and any place.
#[tactic(auto, using(crate::proofs::ReaderLaws::standing_cases))]
pub fn standing_at(material: &[u8], at: usize) -> Standing
    ensures { result ≡ standing_at material.now at }
{
    let len = material.len();
    if len < at {
        return Standing::Nothing;
    }
    let left = len - at;
    if left < 2 {
        return Standing::Nothing;
    }
    if left < 4 {
        return last_standing(material, at);
    }
    if mark_at(material, at, 0x47, 0x54) {
        return gate_standing(material, at);
    }
    last_standing(material, at)
}

// The place past what stands at a place, for any bytes and any place.
#[tactic(auto, using(crate::proofs::ReaderLaws::past_cases))]
pub fn past_at(material: &[u8], at: usize) -> usize
    ensures { result ≡ past_at material.now at }
{
    match standing_at(material, at) {
        Standing::Gate(_) => at + record_length(material[2]),
        Standing::Last => material.len(),
        Standing::Cut(_) | Standing::Nothing => at,
    }
}

impl<'a> Reader<'a> {
    // At the first record, past the header.
    pub fn first(material: &'a [u8]) -> Reader<'a>
        ensures { (result.material ≡ material.entry) × (result.at ≡ 9) }
    {
        Reader { material, at: 9 }
    }

    // What stands where the reader is.
    pub fn standing(self) -> Standing
        ensures { result ≡ standing_at self.entry.material.now self.entry.at }
    {
        standing_at(self.material, self.at)
    }

    // The reader past it, over the same material.
    pub fn past(self) -> Reader<'a>
        ensures { (result.material ≡ self.entry.material) × (result.at ≡ past_at self.entry.material.now self.entry.at) }
    {
        let at = past_at(self.material, self.at);
        Reader {
            material: self.material,
            at,
        }
    }
}

// Where a reader of a material begins: at its first record.
pub fn first_record(material: &[u8]) -> usize
    ensures { result ≡ 9 }
{
    let here = Reader::first(material);
    here.at
}

// What a reader at a place of a material finds.
pub fn found_at(material: &[u8], at: usize) -> Standing
    ensures { result ≡ standing_at material.now at }
{
    let here = Reader { material, at };
    here.standing()
}

// The same, and how far the reader is when it has gone past.
pub fn record_at(material: &[u8], at: usize) -> Record
    ensures { result ≡ found_record material.now at }
{
    let here = Reader { material, at };
    let standing = here.standing();
    let there = here.past();
    Record {
        standing,
        next: there.at,
    }
}
