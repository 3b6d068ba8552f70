// The cipher, §5.1, of four blocks.
ghost use Rattle.std.specs.Prelude.{List, ℕ, ◌<◌};
ghost use Rattle.planes.specs.Sliced.{SlicedFrom, IsSliced};
ghost use Rattle.planes.specs.Four.{FourFrom, FourIs};

use crate::packing::{Four, pack, unpack};

// Four blocks through the first AddRoundKey and rounds r to 10, under the schedules that k has for them, whichever these are. A round
// stands here once, the last with the others, and whatever enciphers comes here: so the compiler puts the S-box's circuit into the loop.
pub fn cipher_from(k: &[u64; 88], x: Four, r: usize) -> Four
    requires r_nonzero { 0 < r }
    requires r_bound { r < 12 }
    ensures { (ws : ℕ → List ℕ) → SlicedFrom r ws k.now → FourFrom r ws x result }
{
    let mut s = pack(x).add_round_key(k, 0);
    for i in r..11 {
        s = s.sub_bytes().mix_columns(i).add_round_key(k, i);
    }
    unpack(s)
}

// Four blocks, encrypted under the schedules that k has for them.
pub fn encrypt_four(k: &[u64; 88], x: Four) -> Four
    ensures { (ws : ℕ → List ℕ) → IsSliced ws k.now → FourIs ws x result }
{
    cipher_from(k, x, 1)
}
