// What comes from the seed: its blocks, and the tokens of the inputs (01, Tokens; 02, job 4). AES makes four blocks at once, so four are held,
// and the next is made when one is asked that is not among them.
ghost use Rattle.std.specs.Prelude.{◌≡◌, List, ℕ, get_or, IfSome};
ghost use Rattle.model.specs.Aes.{aes, key_expansion};
ghost use Rattle.model.specs.Tokens.{run_block};
ghost use Rattle.planes.specs.Sliced.{IsSliced};
ghost use Rattle.garble.specs.Held.{HeldIs, TakenIs};
ghost use Rattle.garble.specs.Written.{InputsRoom, InputsIs};

use crate::plan::Plan;
use crate::schedule::run_blocks;
use block::{Block, store};
use planes::Four;

// Four of the seed's blocks, and the wires that they are of.
// Wires and blocks stand apart, and a wire is compared four times: `Four`, which AES answers, has its blocks by name
// (planes, packing.rt). `HeldIs` is no invariant: with the seed in here too, `fresh_block` would ask that it is the
// plan's seed, a clause for a clause.
#[derive(Clone, Copy)]
pub struct Held {
    pub wires: [usize; 4],
    pub blocks: Four,
}

impl Held {
    // Those of four wires; ks has the seed's schedule in planes. It, the run and the wires come one by one, here and below:
    // a struct of the three would be made for each call.
    pub fn new(ks: &[u64; 88], run: u64, wires: [usize; 4]) -> Held
        ensures { ((seed : List ℕ) → IsSliced (λ b. key_expansion seed) ks.now → HeldIs seed run result) × (result.wires ≡ wires) }
    {
        Held {
            wires,
            blocks: run_blocks(ks, run, wires),
        }
    }

    // The block of a wire, if it is held.
    pub fn find(&self, wire: usize) -> Option<Block>
        ensures { (seed : List ℕ) (run : ℕ) → HeldIs seed run self.now → IfSome result (λ b. b.bytes ≡ aes seed (run_block run wire)) }
    {
        let [i, j, k, l] = self.wires;
        let x = self.blocks;
        if wire == i {
            Some(x.a)
        } else if wire == j {
            Some(x.b)
        } else if wire == k {
            Some(x.c)
        } else if wire == l {
            Some(x.d)
        } else {
            None
        }
    }

    // The block of the first of four wires, which is made with those of the others. They are held then.
    pub fn make(&mut self, ks: &[u64; 88], run: u64, wires: [usize; 4]) -> Block
        ensures { (seed : List ℕ) → IsSliced (λ b. key_expansion seed) ks.now → TakenIs seed run (get_or wires 0 0) self.new result.bytes }
    {
        *self = Held::new(ks, run, wires);
        self.blocks.a
    }

    // The same, which is made where it is not held.
    pub fn take(&mut self, ks: &[u64; 88], run: u64, wires: [usize; 4]) -> Block
        ensures { (seed : List ℕ) → IsSliced (λ b. key_expansion seed) ks.now → HeldIs seed run self.old → TakenIs seed run (get_or wires 0 0) self.new result.bytes }
    {
        if let Some(block) = self.find(wires[0]) {
            return block;
        }
        self.make(ks, run, wires)
    }
}

impl Plan {
    // The zero and the one tokens of the inputs, from wire 1 on.
    // Two lent lists, tokens at 16i: so `GarbleIs` has them, and no heap holds a list of blocks.
    #[tactic(auto, using(crate::proofs::InputLaws::wire_fits))]
    pub fn garble_inputs(&self, zeros: &mut [u8], ones: &mut [u8])
        requires { InputsRoom self.now.n zeros.old ones.old }
        ensures { InputsIs self.now zeros.old ones.old zeros.new ones.new }
    {
        let run = self.wanted.run;
        let mut held = Held::new(&self.seed.words, run, [0, 1, 2, 3]);
        for i in 0..self.n {
            let wire = i + 1;
            let zero = held.take(&self.seed.words, run, [wire, wire + 1, wire + 2, wire + 3]);
            store(zeros, 16 * i, zero);
            store(ones, 16 * i, zero.xor(self.r));
        }
    }
}
