// Planes rotated: 16 lanes are a row, and 4 a column.
ghost use Rattle.planes.specs.Rotations.{around, either, Moves, Moved};

use crate::planes::Planes;

// A word in which each lane has what stood n lanes on where the mask has a 1, and m lanes where it has a 0.
fn rotate_either_word(x: u64, n: u32, m: u32, mask: u64) -> u64
    ensures { Moves (either mask n m) x result }
{
    (x.rotate_right(n) & mask) | (x.rotate_right(m) & (mask ^ 0xFFFFFFFFFFFFFFFF))
}

// Each plane rotated. One function over the planes that takes a closure, for this and the next, would be no plainer: with its contract,
// of a fact for each plane, it is longer than what it saves.
pub fn rotate(x: Planes, n: u32) -> Planes
    ensures { Moved (around n) x result }
{
    Planes {
        p0: x.p0.rotate_right(n),
        p1: x.p1.rotate_right(n),
        p2: x.p2.rotate_right(n),
        p3: x.p3.rotate_right(n),
        p4: x.p4.rotate_right(n),
        p5: x.p5.rotate_right(n),
        p6: x.p6.rotate_right(n),
        p7: x.p7.rotate_right(n),
    }
}

// Each plane rotated, by the mask.
pub fn rotate_either(x: Planes, n: u32, m: u32, mask: u64) -> Planes
    ensures { Moved (either mask n m) x result }
{
    Planes {
        p0: rotate_either_word(x.p0, n, m, mask),
        p1: rotate_either_word(x.p1, n, m, mask),
        p2: rotate_either_word(x.p2, n, m, mask),
        p3: rotate_either_word(x.p3, n, m, mask),
        p4: rotate_either_word(x.p4, n, m, mask),
        p5: rotate_either_word(x.p5, n, m, mask),
        p6: rotate_either_word(x.p6, n, m, mask),
        p7: rotate_either_word(x.p7, n, m, mask),
    }
}
