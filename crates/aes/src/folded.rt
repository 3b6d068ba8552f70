// The state with its last two columns folded into one word. Where two blocks go through the rounds side by side, one of them is held
// like this between its turns: eight columns and what is made of them do not fit the registers, seven words do.
ghost use Rattle.std.specs.Prelude.{◌≡◌, ◌<◌};
ghost use Rattle.model.specs.Aes.{◌⊕◌, sub_bytes, shift_rows, mix_columns, add_round_key, aes_round};
ghost use Rattle.aes.specs.Tables.{state_of};
ghost use Rattle.aes.specs.Folded.{columns, Joined};

use crate::lookup::TTables;
use crate::packed::Words;
use block::Block;

// Four columns, the last two in one word, the third in its lower half.
#[derive(Clone, Copy)]
pub struct Folded {
    pub a: u32,
    pub b: u32,
    pub cd: u64,
}

// Two words as one.
// `joined` of planes makes the same of two words, with a contract in bytes: this one line shared would need a law
// between.
fn fold(low: u32, high: u32) -> u64
    ensures { Joined result low high }
{
    (low as u64) + (high as u64) * 0x100000000
}

// Columns, folded.
impl From<Words> for Folded {
    ghost from_gives = { λ s f. columns f ≡ s };

    fn from(s: Words) -> Folded {
        let cd = fold(s.c, s.d);
        Folded { a: s.a, b: s.b, cd }
    }
}

// The columns again.
impl From<Folded> for Words {
    ghost from_gives = { λ f s. s ≡ columns f };

    fn from(f: Folded) -> Words {
        Words {
            a: f.a,
            b: f.b,
            c: (f.cd % 0x100000000) as u32,
            d: (f.cd >> 32) as u32,
        }
    }
}

impl Folded {
    // A block after the first AddRoundKey.
    pub fn start(w: &[u8; 176], x: Block) -> Folded
        ensures { state_of (columns result) ≡ add_round_key w.now 0 x.bytes }
    {
        Folded::from(Words::start(w, x))
    }

    // A round but the last, by its key. Of the key the first two words come first and the last two last, folded: while they are
    // exclusive-ored in as one word, the compiler keeps the two columns together.
    pub fn keyed_round(self, tables: &TTables, k: Words) -> Folded
        ensures { state_of (columns result) ≡ mix_columns (shift_rows (sub_bytes (state_of (columns self)))) ⊕ state_of k }
    {
        let s = Words::from(self);
        let m = &tables.words;
        let mixed = Words::two(k.a, k.b)
            .spread(m, s.a)
            .spread(m, s.b)
            .spread(m, s.c)
            .spread(m, s.d);
        let made = fold(mixed.c, mixed.d);
        let key = fold(k.c, k.d);
        Folded {
            a: mixed.a,
            b: mixed.b,
            cd: made ^ key,
        }
    }

    // The same, round r under a schedule. Beside `Words::round`: tried, with the round's key taken in `encrypt_pair` and
    // neither of the two, a pair of blocks takes 9 % longer.
    pub fn round(self, tables: &TTables, w: &[u8; 176], r: usize) -> Folded
        requires { r < 11 }
        ensures { state_of (columns result) ≡ aes_round w.now r (state_of (columns self)) }
    {
        let k = Words::round_key(w, r);
        self.keyed_round(tables, k)
    }
}
