// Pick for a caller in C, who gets no slice: where the part lies.
// A list, a start and a length as numbers: so the C interface has it.
ghost use Rattle.std.specs.Prelude.{◌≡◌};
ghost use Rattle.model.specs.Operations.{answer_of};
ghost use Rattle.weighhare.specs.Pick.{PickIs, part_words};

use crate::answer::Words;
use model::{Refusal, Wire};

// A part: which list, 0 for the zero tokens and 1 for the one tokens; where in it the part starts; its length.
#[derive(Clone, Copy)]
pub struct Part {
    pub list: u8,
    pub start: usize,
    pub length: usize,
}

impl Words for Part {
    ghost words_of = { part_words };

    fn words(self) -> [u64; 4] {
        [self.list as u64, self.start as u64, self.length as u64, 0]
    }
}

// The part that pick hands back: a wire's token of 16 bytes, in the bit's list.
pub fn picked(zeros: &[u8], ones: &[u8], wire: u16, bit: u8) -> Result<Part, Refusal>
    ensures { PickIs zeros.now ones.now wire bit (answer_of result) }
{
    garble::pick_check(zeros, ones, Wire(wire), bit)?;
    Ok(Part {
        list: bit,
        start: 16 * (wire as usize - 1),
        length: 16,
    })
}
