// Key expansion, §5.2: a schedule is 44 words, word i at byte 4i.
ghost use Rattle.std.specs.Prelude.{◌≡◌, ◌*◌, ◌<◌};
ghost use Rattle.model.specs.Bytes.{put};
ghost use Rattle.model.specs.Aes.{word, xor_word, rot_word, rcon, IsExpansion};

use crate::substitution::SubWord;
use block::Block;

// AES-128 (§5): the words of a key, Nk, and the rounds, Nr.
const NK: usize = 4;

const NR: usize = 10;

// {02}^k in GF(2^8), for k from 0 to 9.
const POWERS_OF_X: [u8; 10] = [0x01, 0x02, 0x04, 0x08, 0x10, 0x20, 0x40, 0x80, 0x1b, 0x36];

// Rcon[j]: {02}^(j - 1), and three bytes 0.
pub fn round_constant(j: usize) -> [u8; 4]
    requires j_nonzero { 0 < j }
    requires j_bound { j < 11 }
    ensures { result ≡ rcon j }
{
    [POWERS_OF_X[j - 1], 0, 0, 0]
}

// SubWord, RotWord, ⊕ and the words of a schedule are of four bytes here, as the standard prints them, and of one
// number in `rotated`, `next_key` and `Words`, where they are quick.
// Four bytes are written out: by an index each would be the same line in a closure.
pub fn xor_word(a: [u8; 4], b: [u8; 4]) -> [u8; 4]
    ensures { result ≡ xor_word a b }
{
    [a[0] ^ b[0], a[1] ^ b[1], a[2] ^ b[2], a[3] ^ b[3]]
}

pub fn rot_word(a: [u8; 4]) -> [u8; 4]
    ensures { result ≡ rot_word a }
{
    [a[1], a[2], a[3], a[0]]
}

pub fn word(w: &[u8; 176], i: usize) -> [u8; 4]
    requires { i < 44 }
    ensures { result ≡ word w.now i }
{
    let at = 4 * i;
    [w[at], w[at + 1], w[at + 2], w[at + 3]]
}

// The schedule with a word written.
#[tactic(auto, unfolding(model::specs::Bytes::put, model::specs::Bytes::over))]
pub fn put_word(w: [u8; 176], i: usize, x: [u8; 4]) -> [u8; 176]
    requires { i < 44 }
    ensures { result ≡ put w (4 * i) x }
{
    let mut v = w;
    v[4 * i..4 * i + 4].copy_from_slice(&x);
    v
}

// KeyExpansion: the schedule of a key, which is made once and lent to each encryption under it. The lines of §5.2's Algorithm 2 stand
// beside those that do what they say.
pub fn expand_key<S: SubWord>(table: &S, key: Block) -> [u8; 176]
    ensures { IsExpansion key.bytes result }
{
    let k = key.bytes;
    let mut w = [0u8; 176];
    for i in 0..=NK - 1 { // i ← 0, while i ≤ Nk - 1 do
        w = put_word(w, i, [k[4 * i], k[4 * i + 1], k[4 * i + 2], k[4 * i + 3]]); // w[i] ← key[4*i..4*i+3]
    } // i ← i + 1, end while
    for i in NK..=4 * NR + 3 { // while i ≤ 4 * Nr + 3 do
        let mut temp = word(&w, i - 1); // temp ← w[i-1]
        if i % NK == 0 { // if i mod Nk = 0 then
            temp = xor_word(table.sub_word(rot_word(temp)), round_constant(i / NK)); // temp ← SubWord(RotWord(temp)) ⊕ Rcon[i/Nk]
        } // else if Nk > 6 ..: AES-128 has Nk = 4; end if
        w = put_word(w, i, xor_word(word(&w, i - NK), temp)); // w[i] ← w[i-Nk] ⊕ temp
    } // i ← i + 1, end while
    w // return w
}
