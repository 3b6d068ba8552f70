// Key expansion, §5.2, by the S-box's circuit.
ghost use Rattle.std.specs.Prelude.{◌≡◌};
ghost use Rattle.model.specs.Aes.{IsExpansion};

use crate::cipher::cipher_from;
use crate::packing::Four;
use aes::SubWord;
use block::Block;

// The S-box as its circuit, where words are substituted.
#[derive(Clone, Copy)]
pub struct SubGates;

// SubWord, by the last round alone, which is SubBytes and ShiftRows, with keys of 0, of which that of round 10 has hex 63. The word is every
// column of a block: ShiftRows does not change that.
// Round 10 stands for the last round alone: the rounds have one text, `cipher_from` (bench/NOTES.md, "One caller for
// the S-box's circuit"). The words of the keys are named by their places, 8r and on.
// The word's bytes are written out four times: by `Words` of aes they would become a number and bytes again.
impl SubWord for SubGates {
    fn sub_word(&self, x: [u8; 4]) -> [u8; 4] {
        let s = Block {
            bytes: [
                x[0], x[1], x[2], x[3], x[0], x[1], x[2], x[3], x[0], x[1], x[2], x[3], x[0], x[1],
                x[2], x[3],
            ],
        };
        let mut none = [0u64; 88];
        none[80] = 0xFFFFFFFFFFFFFFFF;
        none[81] = 0xFFFFFFFFFFFFFFFF;
        none[85] = 0xFFFFFFFFFFFFFFFF;
        none[86] = 0xFFFFFFFFFFFFFFFF;
        let y = cipher_from(
            &none,
            Four {
                a: s,
                b: s,
                c: s,
                d: s,
            },
            10,
        );
        let t = y.a.bytes;
        [t[0], t[1], t[2], t[3]]
    }
}

// KeyExpansion. What is looked up is Rcon alone, by the round's number.
pub fn expand_key(key: Block) -> [u8; 176]
    ensures { IsExpansion key.bytes result }
{
    aes::expand_key(&SubGates, key)
}
