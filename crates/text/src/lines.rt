// The program's lines (01, Table of examples): each writes one to a buffer and answers the index past it. A number takes at most 20
// digits and the byte after it.
// A lent buffer and an index stand here, and no text that grows: there is no heap, and what these functions promise (`Wrote`) they promise
// of any buffer with room.
ghost use Rattle.std.specs.Prelude.{[], ◌∷◌, ◌++◌, ◌+◌, ◌≤◌, length};
ghost use Rattle.model.specs.Decimal.{decimal};
ghost use Rattle.model.specs.Refusals.{number_of, place_of};
ghost use Rattle.model.specs.Program.{sizes_line, lengths_line, refused_line, too_long_line};
ghost use Rattle.text.specs.Written.{Wrote};

use crate::decimal::{write_byte, write_decimal};
use buffer::copy_front;
use circuit::refusal::Turned;
use material::material_length;
use model::{Refusal, Sizes};

// A number, and the byte that ends it.
fn write_number(out: &mut [u8], at: usize, x: usize, end: u8) -> usize
    requires { at + 21 ≤ length out.old }
    ensures { Wrote 21 (decimal x ++ (end ∷ [])) out.old at result out.new }
{
    let past = write_decimal(out, at, x);
    write_byte(out, past, end)
}

// n m q p
// By calls, four here and three in `write_lengths`: a loop over the numbers would have to choose what ends each.
pub fn write_sizes(out: &mut [u8], z: Sizes) -> usize
    requires { 84 ≤ length out.old }
    ensures { Wrote 84 (sizes_line z) out.old 0 result out.new }
{
    let at_m = write_number(out, 0, z.n, b' ');
    let at_q = write_number(out, at_m, z.m, b' ');
    let at_p = write_number(out, at_q, z.q, b' ');
    write_number(out, at_p, z.p, b'\n')
}

// The material's lengths under schemes 1 to 3.
// m and p are asked to be small, since the sizes of the model are plain numbers and `material_length` asks a bound of
// them.
pub fn write_lengths(out: &mut [u8], at: usize, m: usize, p: usize) -> usize
    requires { (at + 63 ≤ length out.old) × (m ≤ 65535) × (p ≤ 65535) }
    ensures { Wrote 63 (lengths_line m p) out.old at result out.new }
{
    let second = write_number(out, at, material_length(1, m, p), b' ');
    let third = write_number(out, second, material_length(2, m, p), b' ');
    write_number(out, third, material_length(3, m, p), b'\n')
}

// The word refused, and the number and place of a refusal.
pub fn write_refusal(out: &mut [u8], f: Refusal) -> usize
    requires { 50 ≤ length out.old }
    ensures { Wrote 50 (refused_line (number_of f) (place_of f)) out.old 0 result out.new }
{
    copy_front(b"refused ", out);
    let t = Turned::from(f);
    let at_place = write_number(out, 8, t.number as usize, b' ');
    write_number(out, at_place, t.place, b'\n')
}

// For an input over 65,536 bytes.
#[tactic(auto, using(crate::proofs::WriteLaws::wrote_front), unfolding(model::specs::Program::too_long_line))]
pub fn write_too_long(out: &mut [u8]) -> usize
    requires { 9 ≤ length out.old }
    ensures { Wrote 9 too_long_line out.old 0 result out.new }
{
    copy_front(b"too long\n", out);
    9
}
