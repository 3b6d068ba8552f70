// Four blocks in planes, and the steps of a round, §5.1: the planes go through them in turn, and each hands them back. ShiftRows is
// left out (A. Adomnicai and T. Peyrin, "Fixslicing AES-like Ciphers", 2021): after k rounds row r stands turned by kr columns, which
// MixColumns and the round keys allow for; after four rounds it stands as before.
ghost use Rattle.std.specs.Prelude.{◌≡◌, ◌<◌};
ghost use Rattle.std.specs.Int.Bits.{bit_xor};
ghost use Rattle.model.specs.Aes.{s_box};
ghost use Rattle.planes.specs.Lanes.{Lanewise, Added};
ghost use Rattle.planes.specs.Rotations.{around, either};
ghost use Rattle.planes.specs.Mixing.{Mixed, MixedFrom, MixedAt};
ghost use Rattle.planes.specs.Sliced.{key_planes};

use crate::rotations::{rotate, rotate_either};
use crate::sbox::sub_gates;

// Eight words: plane i has bit i of every byte. Lane 16r + 4c + b, which is that bit of each word, has row r of column c of block b.
// An array would be no plainer: the S-box's circuit and `mix_byte` take each plane by its number, and do something else with each.
#[derive(Clone, Copy)]
pub struct Planes {
    pub p0: u64,
    pub p1: u64,
    pub p2: u64,
    pub p3: u64,
    pub p4: u64,
    pub p5: u64,
    pub p6: u64,
    pub p7: u64,
}

// {02}a ⊕ {03}b ⊕ c ⊕ d, as b ⊕ (c ⊕ d) ⊕ {02}(a ⊕ b): each bit of {02}x is the bit below it, and bits 0, 1, 3 and 4 have bit 7 added,
// since hex 1B is what is left of hex 11B in a byte, §4.2.
fn mix_byte(b: Planes, cd: Planes, ab: Planes) -> Planes
    ensures { Mixed b cd ab result }
{
    Planes {
        p0: b.p0 ^ cd.p0 ^ ab.p7,
        p1: b.p1 ^ cd.p1 ^ (ab.p0 ^ ab.p7),
        p2: b.p2 ^ cd.p2 ^ ab.p1,
        p3: b.p3 ^ cd.p3 ^ (ab.p2 ^ ab.p7),
        p4: b.p4 ^ cd.p4 ^ (ab.p3 ^ ab.p7),
        p5: b.p5 ^ cd.p5 ^ ab.p4,
        p6: b.p6 ^ cd.p6 ^ ab.p5,
        p7: b.p7 ^ cd.p7 ^ ab.p6,
    }
}

// The planes of the keys of round r, as a schedule has them.
#[tactic(auto, unfolding(crate::specs::Sliced::key_planes))]
fn key_planes(k: &[u64; 88], r: usize) -> Planes
    requires { r < 11 }
    ensures { result ≡ key_planes k.now r }
{
    let at = 8 * r;
    Planes {
        p0: k[at],
        p1: k[at + 1],
        p2: k[at + 2],
        p3: k[at + 3],
        p4: k[at + 4],
        p5: k[at + 5],
        p6: k[at + 6],
        p7: k[at + 7],
    }
}

impl Planes {
    // Two states, exclusive-ored.
    pub fn xor(self, other: Planes) -> Planes
        ensures { Added self other result }
    {
        Planes {
            p0: self.p0 ^ other.p0,
            p1: self.p1 ^ other.p1,
            p2: self.p2 ^ other.p2,
            p3: self.p3 ^ other.p3,
            p4: self.p4 ^ other.p4,
            p5: self.p5 ^ other.p5,
            p6: self.p6 ^ other.p6,
            p7: self.p7 ^ other.p7,
        }
    }

    // SubBytes, §5.1.1, each byte through the S-box, but for hex 63: the round's key has it.
    pub fn sub_bytes(self) -> Planes
        ensures { Lanewise (λ b. bit_xor (s_box b) 0x63) self result }
    {
        sub_gates(self)
    }

    // Columns mixed: `below` has in each lane the next row's byte, and the row after the next stands in the same column.
    // Two functions of two lines, here and below: one that takes the rotation as a closure would be longer by its
    // contract.
    fn mix_straight(self, below: Planes) -> Planes
        ensures { MixedFrom (around 32) self below result }
    {
        let sum = self.xor(below);
        mix_byte(below, rotate(sum, 32), sum)
    }

    // The same, where the row after the next stands two columns on.
    fn mix_across(self, below: Planes) -> Planes
        ensures { MixedFrom (either 0x00FF00FF00FF00FF 40 24) self below result }
    {
        let sum = self.xor(below);
        mix_byte(below, rotate_either(sum, 40, 24, 0x00FF00FF00FF00FF), sum)
    }

    // MixColumns, §5.1.3, of round r, which the last has not: the next row is r columns on, for the ShiftRows that were left out.
    // The last round is asked for here, and the amounts by r % 4, as `cipher_from` has one text for all rounds: with a
    // second caller of the S-box's circuit four blocks took 256 ns in place of 213 (bench/NOTES.md). By `if` and not by
    // a `match`: tried, with it enciphering takes 1 % more instructions.
    pub fn mix_columns(self, r: usize) -> Planes
        ensures { MixedAt r self result }
    {
        if r == 10 {
            return self;
        }
        let k = r % 4;
        if k == 0 {
            return self.mix_straight(rotate(self, 16));
        }
        if k == 1 {
            return self.mix_across(rotate_either(self, 20, 4, 0x0FFF0FFF0FFF0FFF));
        }
        if k == 2 {
            return self.mix_straight(rotate_either(self, 24, 8, 0x00FF00FF00FF00FF));
        }
        self.mix_across(rotate_either(self, 28, 12, 0x000F000F000F000F))
    }

    // AddRoundKey, §5.1.4: the key of round r is exclusive-ored in.
    pub fn add_round_key(self, k: &[u64; 88], r: usize) -> Planes
        requires { r < 11 }
        ensures { Added self (key_planes k.now r) result }
    {
        self.xor(key_planes(k, r))
    }
}
