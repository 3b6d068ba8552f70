// Blocks to planes and back. Word 2b + h has half h of block b, bytes 8h to 8h + 7, the first lowest; the words are then spread to planes.
ghost use Rattle.std.specs.Prelude.{◌≡◌, ◌++◌};
ghost use Rattle.planes.specs.Packing.{bytes_of8, Packed, Unpacked};

use crate::exchange::{gather, spread};
use crate::planes::Planes;
use block::Block;

// Four blocks. By name and not by number: planes, words and contracts name each, and an array would be taken apart at
// once by `pack`, and by what schemes do with the four answers.
#[derive(Clone, Copy)]
pub struct Four {
    pub a: Block,
    pub b: Block,
    pub c: Block,
    pub d: Block,
}

// The halves of a block.
// Not block's own, which are a number's: here the lowest byte comes first, and σ and doubling have no place.
#[derive(Clone, Copy)]
pub struct Halves {
    pub first: u64,
    pub second: u64,
}

impl From<Block> for Halves {
    ghost from_gives = { λ x h. bytes_of8 h.first ++ bytes_of8 h.second ≡ x.bytes };

    fn from(x: Block) -> Halves {
        let s = x.bytes;
        Halves {
            first: u64::from_le_bytes([s[0], s[1], s[2], s[3], s[4], s[5], s[6], s[7]]),
            second: u64::from_le_bytes([s[8], s[9], s[10], s[11], s[12], s[13], s[14], s[15]]),
        }
    }
}

// The block of two halves.
// Of two words of `Planes`: by a `From` a `Halves` would first be made at each of the four calls.
fn whole(x: u64, y: u64) -> Block
    ensures { result.bytes ≡ bytes_of8 x ++ bytes_of8 y }
{
    let s = x.to_le_bytes();
    let t = y.to_le_bytes();
    Block {
        bytes: [
            s[0], s[1], s[2], s[3], s[4], s[5], s[6], s[7], t[0], t[1], t[2], t[3], t[4], t[5],
            t[6], t[7],
        ],
    }
}

// Four blocks in planes.
pub fn pack(x: Four) -> Planes
    ensures { Packed x result }
{
    let a = Halves::from(x.a);
    let b = Halves::from(x.b);
    let c = Halves::from(x.c);
    let d = Halves::from(x.d);
    spread(Planes {
        p0: a.first,
        p1: a.second,
        p2: b.first,
        p3: b.second,
        p4: c.first,
        p5: c.second,
        p6: d.first,
        p7: d.second,
    })
}

// The four blocks again, after the ten rounds.
pub fn unpack(x: Planes) -> Four
    ensures { Unpacked x result }
{
    let w = gather(x);
    let a = whole(w.p0, w.p1);
    let b = whole(w.p2, w.p3);
    let c = whole(w.p4, w.p5);
    let d = whole(w.p6, w.p7);
    Four { a, b, c, d }
}
