// The seed's schedule, and AES under the seed (01, Tokens; 02, job 4).
ghost use Rattle.std.specs.Prelude.{◌≡◌, List, ℕ};
ghost use Rattle.model.specs.Aes.{key_expansion};
ghost use Rattle.model.specs.Tokens.{run_block};
ghost use Rattle.planes.specs.Sliced.{IsSliced, IsSliced-prop};
ghost use Rattle.garble.specs.Blocks.{RunBlocks};

use block::{Block, Halves};
use planes::{Four, encrypt_four, expand_key, slice_one};

// A seed, and its schedule in planes. `FixedPlanes` of planes has no key beside it, since its key is a constant.
#[derive(Clone, Copy)]
pub struct SeedPlanes {
    pub key: Block,
    pub words: [u64; 88],
    ghost is_seed: { IsSliced (λ b. key_expansion key.bytes) words } by { IsSliced-prop _ _ },
}

impl SeedPlanes {
    // The key is expanded by the S-box's circuit: nothing is looked up by a byte of it.
    pub fn new(key: Block) -> SeedPlanes
        ensures { result.key.bytes ≡ key.bytes }
    {
        SeedPlanes {
            key,
            words: slice_one(&expand_key(key)),
        }
    }
}

// AES of a run's blocks of four wires, under the seed whose schedule in planes this is.
// It takes the planes as they are, since what `Held` promises is of any that are some seed's.
pub fn run_blocks(ks: &[u64; 88], run: u64, wires: [usize; 4]) -> Four
    ensures { (seed : List ℕ) → IsSliced (λ b. key_expansion seed) ks.now → RunBlocks seed run wires result }
{
    // A step for each: `Four` has its blocks by name (planes, packing.rt).
    let [i, j, k, l] = wires;
    let a = run_block(run, i);
    let b = run_block(run, j);
    let c = run_block(run, k);
    let d = run_block(run, l);
    encrypt_four(ks, Four { a, b, c, d })
}

// The block that is enciphered under the seed: "the run number in the first 8 bytes and the wire number (0 for R) in the last 8".
#[tactic(auto, unfolding(model::specs::Tokens::run_block, block::specs::Halves::block_of))]
fn run_block(run: u64, i: usize) -> Block
    ensures { result.bytes ≡ run_block run i }
{
    Block::from(Halves {
        high: run,
        low: i as u64,
    })
}
