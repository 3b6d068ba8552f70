// The cipher under keys that serve one gate each (02, job 7): key expansion, §5.2, goes on beside the rounds, the key of the next round made
// while a round is looked up. A schedule that is written first has to be waited for. The S-box's bytes are those that the last round
// takes from the tables, so that nothing more is lent.
ghost use Rattle.std.specs.Prelude.{◌≡◌, ◌<◌};
ghost use Rattle.model.specs.Aes.{xtime, rot_word, aes};
ghost use Rattle.aes.specs.Tables.{word_of};
ghost use Rattle.aes.specs.Round.{NextKey};

use crate::fast::Pair;
use crate::folded::Folded;
use crate::lookup::TTables;
use crate::packed::Words;
use crate::substitution::SubWord;
use block::Block;

// RotWord, §5.2: row 1 comes first.
pub fn rotated(x: u32) -> u32
    ensures { word_of result ≡ rot_word (word_of x) }
{
    x.rotate_right(8)
}

// The round constant of the next round: {02} times this one, §4.2.
// Of a word, as the key that it goes into is one: by `times_x`, which is of a byte, it would be converted both ways.
pub fn next_constant(rc: u32) -> u32
    requires { rc < 256 }
    ensures { result ≡ xtime rc }
{
    (rc << 1) ^ ((rc >> 7) * 0x11B)
}

// The key of the next round, from that of a round: the first word takes SubWord and RotWord of the last and the round constant, each of
// the others the one before it.
pub fn next_key<S: SubWord>(table: &S, k: Words, rc: u32) -> Words
    ensures { NextKey k rc result }
{
    let a = k.a ^ (table.sub_packed(rotated(k.d)) ^ rc);
    let b = k.b ^ a;
    let c = k.c ^ b;
    let d = k.d ^ c;
    Words { a, b, c, d }
}

// Two blocks encrypted under a key each, side by side as `encrypt_pair` does it.
// The constant goes along with the keys, each made of the one before, and is looked up nowhere. Each block stands beside its own key: a struct of the two would be made for this call alone. The loop is
// not `encrypt_pair`'s with a closure for the keys, which would hold both keys and the constant and change them at each
// turn; that keys are made a round ahead, and not just before it, was tried and is quicker (bench/NOTES.md).
pub fn encrypt_each_under(tables: &TTables, i: Block, x: Block, j: Block, y: Block) -> Pair
    ensures { (result.x.bytes ≡ aes i.bytes x.bytes) × (result.y.bytes ≡ aes j.bytes y.bytes) }
{
    let first = Words::from(i);
    let other = Words::from(j);
    let mut s = Words::from(x).add(first);
    let mut t = Folded::from(Words::from(y).add(other));
    let mut k = next_key(tables, first, 1); // the keys of round r
    let mut l = next_key(tables, other, 1);
    let mut rc: u32 = 2; // the round constant of the next
    for r in 1usize..10 {
        s = s.keyed_round(tables, k);
        t = t.keyed_round(tables, l);
        k = next_key(tables, k, rc);
        l = next_key(tables, l, rc);
        rc = next_constant(rc);
    }
    let p = s.keyed_last(tables, k);
    let q = Words::from(t).keyed_last(tables, l);
    Pair { x: p, y: q }
}
