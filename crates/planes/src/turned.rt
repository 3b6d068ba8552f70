// A round's key turned back: of the state that it is added to, ShiftRows (§5.1.2) was left out once for each round, so that it is undone as
// often in the key. Four times are none.
ghost use Rattle.std.specs.Prelude.{◌≡◌, ◌++◌, ◌%◌, take, drop};
ghost use Rattle.model.specs.Aes.{shift_rows};
ghost use Rattle.aes.specs.Tables.{word_of, state_of};
ghost use Rattle.planes.specs.Packing.{bytes_of8, of_halves, OfBytes, rows_from};
ghost use Rattle.planes.specs.Sliced.{turn_by};

use crate::packing::Halves;
use aes::Words;

// Two columns as half a block.
// Beside `fold` of aes, whose contract is of numbers and not of bytes: this one line shared would need a law between.
// Here and in `between` halves are put together and taken out by shifts and `as`, which std has no other name for.
fn joined(a: u32, b: u32) -> u64
    ensures { bytes_of8 result ≡ word_of a ++ word_of b }
{
    (a as u64) + ((b as u64) << 32)
}

// A key's columns as its halves.
impl From<Words> for Halves {
    ghost from_gives = { λ k h. of_halves h ≡ state_of k };

    fn from(k: Words) -> Halves {
        Halves {
            first: joined(k.a, k.b),
            second: joined(k.c, k.d),
        }
    }
}

// The second column of x and the first of y.
fn between(x: u64, y: u64) -> u64
    ensures { bytes_of8 result ≡ drop 4 (bytes_of8 x) ++ take 4 (bytes_of8 y) }
{
    joined((x >> 32) as u32, (y % 0x100000000) as u32)
}

// Two words with the bytes of some rows exchanged, for which the mask has bytes 255. Of a block's halves these rows are turned by two columns.
fn swap_rows(x: u64, y: u64, mask: u64) -> Halves
    requires { OfBytes mask }
    ensures { (bytes_of8 result.first ≡ rows_from mask (bytes_of8 x) (bytes_of8 y)) × (bytes_of8 result.second ≡ rows_from mask (bytes_of8 y) (bytes_of8 x)) }
{
    let t = (x ^ y) & mask;
    Halves {
        first: x ^ t,
        second: y ^ t,
    }
}

// Turned back once, row i by i columns: rows 1 and 3 are taken from the column before, then rows 2 and 3 from two columns on.
fn turned_once(k: Halves) -> Halves
    ensures { shift_rows (of_halves result) ≡ of_halves k }
{
    let x = swap_rows(k.first, between(k.second, k.first), 0xFF00FF00FF00FF00);
    let y = swap_rows(k.second, between(k.first, k.second), 0xFF00FF00FF00FF00);
    swap_rows(x.first, y.first, 0xFFFF0000FFFF0000)
}

// Turned back once or not at all.
// How often is the round's number: here its lowest binary digit is looked at, in `turned` the next one. A function for
// both digits would take the step too, a closure for one line each.
fn turned_odd(k: Halves, r: usize) -> Halves
    ensures { turn_by (r % 2) (of_halves result) ≡ of_halves k }
{
    if r % 2 == 0 {
        return k;
    }
    turned_once(k)
}

// Turned back r times: two of them turn rows 1 and 3 by two columns.
pub fn turned(k: Halves, r: usize) -> Halves
    ensures { turn_by (r % 4) (of_halves result) ≡ of_halves k }
{
    let h = turned_odd(k, r);
    if r % 4 < 2 {
        return h;
    }
    swap_rows(h.first, h.second, 0xFF00FF00FF00FF00)
}
