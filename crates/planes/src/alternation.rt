// By how much bits change places, and the mask of those that do: one without the other says nothing.
ghost use Rattle.planes.specs.Alternation.{Alternates, Alternates-prop};

// The mask has s bits 1 and s bits 0 in turn, from the lowest on; s is a power of 2.
#[derive(Clone, Copy)]
pub struct Alternation {
    pub s: u32,
    pub mask: u64,
    ghost alternates: { Alternates s mask } by { Alternates-prop s mask },
}

// The six that there are. That each alternates is proved where it is passed (`masks` of proofs/Swaps.antt).
pub const BY_1: Alternation = Alternation {
    s: 1,
    mask: 0x5555555555555555,
};

pub const BY_2: Alternation = Alternation {
    s: 2,
    mask: 0x3333333333333333,
};

pub const BY_4: Alternation = Alternation {
    s: 4,
    mask: 0x0F0F0F0F0F0F0F0F,
};

pub const BY_8: Alternation = Alternation {
    s: 8,
    mask: 0x00FF00FF00FF00FF,
};

pub const BY_16: Alternation = Alternation {
    s: 16,
    mask: 0x0000FFFF0000FFFF,
};

pub const BY_32: Alternation = Alternation {
    s: 32,
    mask: 0x00000000FFFFFFFF,
};
