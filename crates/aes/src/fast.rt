// The cipher by the tables, of one block and of two. It is what the evaluator spends its time in.
ghost use Rattle.std.specs.Prelude.{◌≡◌};
ghost use Rattle.model.specs.Aes.{cipher, key_expansion, fixed_key, π};

use crate::fixed::fixed_schedule;
use crate::folded::Folded;
use crate::lookup::TTables;
use crate::packed::Words;
use block::Block;

// Two blocks.
#[derive(Clone, Copy)]
pub struct Pair {
    pub x: Block,
    pub y: Block,
}

// Two blocks encrypted under a schedule, side by side: a round of the one, then the same round of the other. Neither waits for the
// other, so the processor works on both at once; the second is held folded, so that both fit the registers.
// Tables and schedule are two arguments here and in the rounds: the schedule is any, where `FixedKey` has π's own.
pub fn encrypt_pair(tables: &TTables, w: &[u8; 176], x: Block, y: Block) -> Pair
    ensures { (result.x.bytes ≡ cipher w.now x.bytes) × (result.y.bytes ≡ cipher w.now y.bytes) }
{
    let mut s = Words::start(w, x);
    let mut t = Folded::start(w, y);
    for r in 1..10 {
        s = s.round(tables, w, r);
        t = t.round(tables, w, r);
    }
    let p = s.last_round(tables, w);
    let q = Words::from(t).last_round(tables, w);
    Pair { x: p, y: q }
}

// What π is computed with: the tables, and the schedule of its key. An operation that enciphers makes it once, and
// lends it to what it calls.
#[derive(Clone, Copy)]
pub struct FixedKey {
    pub tables: TTables,
    pub schedule: [u8; 176],
    ghost is_fixed: { schedule ≡ key_expansion fixed_key },
}

impl FixedKey {
    pub fn new() -> FixedKey {
        FixedKey {
            tables: TTables::new(),
            schedule: fixed_schedule(),
        }
    }

    // π by the tables. The rounds stand here once more, rather than in a call of a function for any schedule: that was
    // tried and is slower (bench/NOTES.md), since the evaluator's loop over a charged gate's row then does not hold them.
    pub fn permute(&self, b: Block) -> Block
        ensures { result.bytes ≡ π b.bytes }
    {
        let w = &self.schedule;
        let mut s = Words::start(w, b);
        for r in 1..10 {
            s = s.round(&self.tables, w, r);
        }
        s.last_round(&self.tables, w)
    }

    // π of two blocks.
    pub fn permute_pair(&self, x: Block, y: Block) -> Pair
        ensures { (result.x.bytes ≡ π x.bytes) × (result.y.bytes ≡ π y.bytes) }
    {
        encrypt_pair(&self.tables, &self.schedule, x, y)
    }
}
