// The state, and the steps of a round, §5.1: the state goes through them in turn, and each hands it back.
ghost use Rattle.std.specs.Prelude.{◌≡◌, [], ◌∷◌, ◌<◌};
ghost use Rattle.model.specs.Aes.{xtime, mix_byte, mix_word, sub_bytes, shift_rows, mix_columns, add_round_key, aes_round};

use crate::sbox::SBox;
use std::array;

// A block on its way through the rounds, §3.4: byte r + 4c is row r of column c.
// A type beside `Block`, though both are 16 bytes: `Block` is another crate's, and the steps are methods of this one.
#[derive(Clone, Copy)]
pub struct State {
    pub bytes: [u8; 16],
}

// The byte times x, §4.2: hex 1B is what is left of hex 11B in a byte.
fn times_x(b: u8) -> u8
    ensures { result ≡ xtime b }
{
    (b << 1) ^ ((b >> 7) * 0x1B)
}

// {02}a ⊕ {03}b ⊕ c ⊕ d, where {03}b is {02}b ⊕ b.
fn mix_byte(a: u8, b: u8, c: u8, d: u8) -> u8
    ensures { result ≡ mix_byte a b c d }
{
    times_x(a) ^ (times_x(b) ^ b) ^ c ^ d
}

// A column mixed: each byte with those below it, around.
fn mix_word(a: u8, b: u8, c: u8, d: u8) -> [u8; 4]
    ensures { result ≡ mix_word (a ∷ b ∷ c ∷ d ∷ []) }
{
    [
        mix_byte(a, b, c, d),
        mix_byte(b, c, d, a),
        mix_byte(c, d, a, b),
        mix_byte(d, a, b, c),
    ]
}

impl State {
    // SubBytes, §5.1.1: each byte through the S-box. By a loop: tried, `map` takes a block 2.5 times the instructions, since
    // the compiler then goes byte by byte in each round (bench/NOTES.md).
    pub fn sub_bytes(self, table: &SBox) -> State
        ensures { result.bytes ≡ sub_bytes self.bytes }
    {
        let s = self.bytes;
        let mut x = [0u8; 16];
        for i in 0..16 {
            x[i] = table.sub(s[i]);
        }
        State { bytes: x }
    }

    // ShiftRows, §5.1.2: row r is rotated left by r columns.
    pub fn shift_rows(self) -> State
        ensures { result.bytes ≡ shift_rows self.bytes }
    {
        let s = self.bytes;
        let bytes = array::from_fn(|i| {
            let r = i % 4;
            let c = i / 4;
            s[r + 4 * ((c + r) % 4)]
        });
        State { bytes }
    }

    // MixColumns, §5.1.3: each column by itself.
    // Written out for the four columns: an array made by an index would divide it by 4 to find the column.
    pub fn mix_columns(self) -> State
        ensures { result.bytes ≡ mix_columns self.bytes }
    {
        let s = self.bytes;
        let a = mix_word(s[0], s[1], s[2], s[3]);
        let b = mix_word(s[4], s[5], s[6], s[7]);
        let c = mix_word(s[8], s[9], s[10], s[11]);
        let d = mix_word(s[12], s[13], s[14], s[15]);
        State {
            bytes: [
                a[0], a[1], a[2], a[3], b[0], b[1], b[2], b[3], c[0], c[1], c[2], c[3], d[0], d[1],
                d[2], d[3],
            ],
        }
    }

    // AddRoundKey, §5.1.4: the key of round r is exclusive-ored in. By a loop: tried, with `array::from_fn` the proof did
    // not close.
    pub fn add_round_key(self, w: &[u8; 176], r: usize) -> State
        requires { r < 11 }
        ensures { result.bytes ≡ add_round_key w.now r self.bytes }
    {
        let s = self.bytes;
        let mut x = [0u8; 16];
        for i in 0..16 {
            x[i] = s[i] ^ w[16 * r + i];
        }
        State { bytes: x }
    }

    // A round but the last.
    pub fn round(self, table: &SBox, w: &[u8; 176], r: usize) -> State
        requires { r < 11 }
        ensures { result.bytes ≡ aes_round w.now r self.bytes }
    {
        self.sub_bytes(table)
            .shift_rows()
            .mix_columns()
            .add_round_key(w, r)
    }

    // The last round, which has no MixColumns.
    pub fn last_round(self, table: &SBox, w: &[u8; 176]) -> State
        ensures { result.bytes ≡ add_round_key w.now 10 (shift_rows (sub_bytes self.bytes)) }
    {
        self.sub_bytes(table).shift_rows().add_round_key(w, 10)
    }
}
