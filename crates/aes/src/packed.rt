// The state as packed words, and the steps of a round by the tables. A word is a column, row 0 its lowest byte. ShiftRows is then the
// choice of the word that a row is taken from, SubBytes and MixColumns are one look-up for each byte, and AddRoundKey is four words.
ghost use Rattle.std.specs.Prelude.{◌≡◌, [], ◌∷◌, ◌<◌};
ghost use Rattle.model.specs.Aes.{◌⊕◌, word, sub_word, sub_bytes, shift_rows, mix_columns, add_round_key, aes_round};
ghost use Rattle.aes.specs.Tables.{byte_of, word_of, state_of};
ghost use Rattle.aes.specs.Round.{IsRoundKey, Spread};

use crate::lookup::TTables;
use crate::schedule::word;
use block::Block;

// The four columns of a state.
// By name and not by number, as each stays in a register and has its own place in a round: in `spread` and `shifted`
// the names say which row goes to which column, and a loop over an array would have to work that out.
#[derive(Clone, Copy)]
pub struct Words {
    pub a: u32,
    pub b: u32,
    pub c: u32,
    pub d: u32,
}

// Four bytes as a word.
pub fn pack(x: [u8; 4]) -> u32
    ensures { word_of result ≡ x }
{
    u32::from_le_bytes(x)
}

// The bytes of a word.
pub fn split(x: u32) -> [u8; 4]
    ensures { result ≡ word_of x }
{
    x.to_le_bytes()
}

// Word i of a schedule.
fn key_word(w: &[u8; 176], i: usize) -> u32
    requires { i < 44 }
    ensures { word_of result ≡ word w.now i }
{
    pack(word(w, i))
}

// A column through SubBytes and ShiftRows alone. Table 2 has the S-box's own byte in row 0, table 3 in row 1, and so on around.
pub fn shifted_word(tables: &TTables, a: u32, b: u32, c: u32, d: u32) -> u32
    ensures { word_of result ≡ sub_word (byte_of a 0 ∷ byte_of b 1 ∷ byte_of c 2 ∷ byte_of d 3 ∷ []) }
{
    let p = (a % 256) as usize;
    let q = ((b >> 8) % 256) as usize;
    let r = ((c >> 16) % 256) as usize;
    let s = (d >> 24) as usize;
    let m = &tables.words;
    (m[512 + p] & 0xFF) ^ (m[768 + q] & 0xFF00) ^ (m[r] & 0xFF0000) ^ (m[256 + s] & 0xFF000000)
}

// A block's columns.
impl From<Block> for Words {
    ghost from_gives = { λ x k. state_of k ≡ x.bytes };

    fn from(x: Block) -> Words {
        let s = x.bytes;
        let a = pack([s[0], s[1], s[2], s[3]]);
        let b = pack([s[4], s[5], s[6], s[7]]);
        let c = pack([s[8], s[9], s[10], s[11]]);
        let d = pack([s[12], s[13], s[14], s[15]]);
        Words { a, b, c, d }
    }
}

// The block of these columns.
impl From<Words> for Block {
    ghost from_gives = { λ k x. x.bytes ≡ state_of k };

    fn from(k: Words) -> Block {
        let a = split(k.a);
        let b = split(k.b);
        let c = split(k.c);
        let d = split(k.d);
        Block {
            bytes: [
                a[0], a[1], a[2], a[3], b[0], b[1], b[2], b[3], c[0], c[1], c[2], c[3], d[0], d[1],
                d[2], d[3],
            ],
        }
    }
}

impl Words {
    // SubBytes and ShiftRows, §5.1.1 and §5.1.2.
    fn shifted(self, tables: &TTables) -> Words
        ensures { state_of result ≡ shift_rows (sub_bytes (state_of self)) }
    {
        let s = self;
        let a = shifted_word(tables, s.a, s.b, s.c, s.d);
        let b = shifted_word(tables, s.b, s.c, s.d, s.a);
        let c = shifted_word(tables, s.c, s.d, s.a, s.b);
        let d = shifted_word(tables, s.d, s.a, s.b, s.c);
        Words { a, b, c, d }
    }

    // Two columns, and nothing yet in the other two.
    pub fn two(a: u32, b: u32) -> Words
        ensures { result ≡ record { a = a; b = b; c = 0; d = 0 } }
    {
        Words { a, b, c: 0, d: 0 }
    }

    // The key of round r: four words of the schedule.
    pub fn round_key(w: &[u8; 176], r: usize) -> Words
        requires { r < 11 }
        ensures { IsRoundKey w.now r result }
    {
        let i = 4 * r;
        let a = key_word(w, i);
        let b = key_word(w, i + 1);
        let c = key_word(w, i + 2);
        let d = key_word(w, i + 3);
        Words { a, b, c, d }
    }

    // AddRoundKey, §5.1.4: a round's key is exclusive-ored in.
    pub fn add(self, k: Words) -> Words
        ensures { state_of result ≡ state_of self ⊕ state_of k }
    {
        Words {
            a: self.a ^ k.a,
            b: self.b ^ k.b,
            c: self.c ^ k.c,
            d: self.d ^ k.d,
        }
    }

    // What a column x of the state before gives to the four columns after SubBytes, ShiftRows and MixColumns, exclusive-ored in: its
    // row 0 goes to its own column, which is the first here, row 1 to the one before, and so on around. Then the next column comes
    // first: after four columns they stand in their order again. The order of the look-ups is the one that the compiler makes the most of.
    pub fn spread(self, tables: &[u32; 1024], x: u32) -> Words
        ensures { Spread tables.now self x result }
    {
        let c = self.c ^ tables[512 + ((x >> 16) % 256) as usize];
        let a = self.a ^ tables[(x % 256) as usize];
        let d = self.d ^ tables[256 + ((x >> 8) % 256) as usize];
        let b = self.b ^ tables[768 + ((x >> 24) % 256) as usize];
        Words {
            a: b,
            b: c,
            c: d,
            d: a,
        }
    }

    // A block after the first AddRoundKey.
    pub fn start(w: &[u8; 176], x: Block) -> Words
        ensures { state_of result ≡ add_round_key w.now 0 x.bytes }
    {
        let k = Words::round_key(w, 0);
        Words::from(x).add(k)
    }

    // A round but the last, by its key. The key comes first and each column is looked up at once and then done with: so the columns
    // before and after the round stay in registers.
    // `State` and `Folded` have rounds of the same names. No function is generic over the three, and nothing but the
    // names is alike: a trait of them would be a text more.
    pub fn keyed_round(self, tables: &TTables, k: Words) -> Words
        ensures { state_of result ≡ mix_columns (shift_rows (sub_bytes (state_of self))) ⊕ state_of k }
    {
        let m = &tables.words;
        k.spread(m, self.a)
            .spread(m, self.b)
            .spread(m, self.c)
            .spread(m, self.d)
    }

    // The same, round r under a schedule.
    pub fn round(self, tables: &TTables, w: &[u8; 176], r: usize) -> Words
        requires { r < 11 }
        ensures { state_of result ≡ aes_round w.now r (state_of self) }
    {
        let k = Words::round_key(w, r);
        self.keyed_round(tables, k)
    }

    // The last round, which has no MixColumns, by its key.
    pub fn keyed_last(self, tables: &TTables, k: Words) -> Block
        ensures { result.bytes ≡ shift_rows (sub_bytes (state_of self)) ⊕ state_of k }
    {
        Block::from(self.shifted(tables).add(k))
    }

    // The same under a schedule.
    pub fn last_round(self, tables: &TTables, w: &[u8; 176]) -> Block
        ensures { result.bytes ≡ add_round_key w.now 10 (shift_rows (sub_bytes (state_of self))) }
    {
        let k = Words::round_key(w, 10);
        self.keyed_last(tables, k)
    }
}
