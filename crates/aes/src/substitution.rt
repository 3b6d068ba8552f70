// SubWord, §5.2: what key expansion takes from the S-box, by whichever form of it is lent.
ghost use Rattle.std.specs.Prelude.{◌≡◌};
ghost use Rattle.model.specs.Aes.{sub_word};
ghost use Rattle.aes.specs.Tables.{word_of};

use crate::lookup::TTables;
use crate::packed::{pack, shifted_word, split};
use crate::sbox::SBox;

pub trait SubWord {
    // Each byte of a word through the S-box.
    fn sub_word(&self, x: [u8; 4]) -> [u8; 4]
        ensures { result ≡ sub_word x };

    // The same of a packed word.
    fn sub_packed(&self, x: u32) -> u32
        ensures { word_of result ≡ sub_word (word_of x) }
    {
        pack(self.sub_word(split(x)))
    }
}

impl SubWord for SBox {
    fn sub_word(&self, x: [u8; 4]) -> [u8; 4] {
        x.map(|b| self.sub(b))
    }
}

// The S-box's bytes are those that the last round takes from the tables.
impl SubWord for TTables {
    fn sub_word(&self, x: [u8; 4]) -> [u8; 4] {
        split(self.sub_packed(pack(x)))
    }

    fn sub_packed(&self, x: u32) -> u32 {
        shifted_word(self, x, x, x, x)
    }
}
