// What the walk over the gates goes by, made once for a garbling.
use crate::schedule::{SeedPlanes, run_blocks};
use block::Block;
use material::{record_length, rows_stored};
use model::Wanted;

// What is wanted and of which seed; the rows that the scheme stores, and the bytes of a charged gate's record; the inputs, and the offset R.
// A plan is made of anything wanted (`PlanIs`). That the byte is a scheme's (`Known`) and the plan the circuit's
// (`WalkOf`) are clauses, once in each function of the walk: `new` asks nothing and may not ask the one, and a type
// for the other would hold the circuit.
#[derive(Clone, Copy)]
pub struct Plan {
    pub wanted: Wanted,
    pub seed: SeedPlanes,
    pub stored: usize,
    pub stride: usize,
    pub n: usize,
    pub r: Block,
}

impl Plan {
    ghost use Rattle.garble.specs.Walk.{PlanIs};

    // The plan for a seed, for what is wanted of it and for a circuit of n inputs.
    pub fn new(seed: SeedPlanes, wanted: Wanted, n: usize) -> Plan
        ensures { PlanIs seed.key.bytes wanted n result }
    {
        let first = run_blocks(&seed.words, wanted.run, [0, 1, 2, 3]);
        Plan {
            wanted,
            seed,
            stored: rows_stored(wanted.scheme),
            stride: record_length(wanted.scheme),
            n,
            r: first.a.coloured(),
        }
    }
}
