// A schedule in planes: words 8r to 8r + 7 are the planes of the four blocks' keys of round r. From round 1 on they have hex 63 added to every
// byte, for SubBytes (§5.1.1), which leaves it out: MixColumns does not change it, as {02} ⊕ {03} ⊕ {01} ⊕ {01} = {01} (§5.1.3).
ghost use Rattle.std.specs.Prelude.{◌≡◌, ◌*◌, ◌<◌, length};
ghost use Rattle.model.specs.Bytes.{put};
ghost use Rattle.model.specs.Aes.{key_expansion};
ghost use Rattle.planes.specs.Lanes.{planes_of};
ghost use Rattle.planes.specs.Sliced.{by_pair, IsSliced, PairIn, KeyPut};

use crate::exchange::{Pairs, spread_pairs};
use crate::packing::Halves;
use crate::planes::Planes;
use crate::sbox::add_63;
use crate::turned::turned;
use aes::{SBox, Words, next_constant, next_key};
use block::Block;

// The planes of a round's key: x for blocks a and b, y for c and d.
fn key_planes(x: Halves, y: Halves, r: usize) -> Planes
    ensures { PairIn r x y result }
{
    let u = turned(x, r);
    let v = turned(y, r);
    spread_pairs(Pairs {
        a: u.first,
        b: u.second,
        c: v.first,
        d: v.second,
    })
}

// Planes written as those of round r. Word by word: tried, `copy_from_slice` from an array of them takes 14 % more
// instructions for a key, and garbling by scheme 4 takes 3 % more, since the compiler makes the array and then copies it.
fn put_planes(k: &mut [u64; 88], r: usize, x: Planes)
    requires r_bound { r < 11 }
    requires k_len { length k.old ≡ 88 }
    ensures { k.new ≡ put k.old (8 * r) (planes_of x) }
{
    let at = 8 * r;
    k[at] = x.p0;
    k[at + 1] = x.p1;
    k[at + 2] = x.p2;
    k[at + 3] = x.p3;
    k[at + 4] = x.p4;
    k[at + 5] = x.p5;
    k[at + 6] = x.p6;
    k[at + 7] = x.p7;
}

// A round's key written, with hex 63 from round 1 on.
// For one schedule and for two, with the round asked here: the loop over two with a text of its own was tried, and
// garble took 2 to 5 % longer by every scheme (bench/NOTES.md).
fn put_key(k: &mut [u64; 88], r: usize, x: Halves, y: Halves)
    requires r_bound { r < 11 }
    requires k_len { length k.old ≡ 88 }
    ensures { KeyPut r x y k.old k.new }
{
    let p = key_planes(x, y, r);
    if r == 0 {
        put_planes(k, r, p);
    } else {
        put_planes(k, r, add_63(p));
    }
}

// A schedule in planes, for all four blocks.
pub fn slice_one(w: &[u8; 176]) -> [u64; 88]
    ensures { IsSliced (λ b. w.now) result }
{
    let mut k = [0u64; 88];
    for r in 0..11 {
        let x = Halves::from(Words::round_key(w, r));
        put_key(&mut k, r, x, x);
    }
    k
}

// The schedules of two public keys in planes, the first for blocks a and b, the second for c and d. A key of each is made and put into planes before the next: so none is
// written and read again as bytes.
// Tried: two schedules of bytes put into planes, as `slice_one` does it with one, took 680 ns in place of 186
// (bench/NOTES.md). The round constant goes along, each made of the one before.
pub fn slice_pair(t: &SBox, i: Block, j: Block) -> [u64; 88]
    ensures { IsSliced (by_pair (key_expansion i.bytes) (key_expansion j.bytes)) result }
{
    let mut k = [0u64; 88];
    let mut x = Words::from(i); // the keys of round r
    let mut y = Words::from(j);
    let mut rc: u32 = 1; // the round constant of the next
    for r in 0usize..11 {
        put_key(&mut k, r, Halves::from(x), Halves::from(y));
        x = next_key(t, x, rc);
        y = next_key(t, y, rc);
        rc = next_constant(rc);
    }
    k
}
