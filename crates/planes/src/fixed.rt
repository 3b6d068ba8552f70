// The schedule of π's key in planes. An operation that garbles makes it once, and lends it to what it calls.
ghost use Rattle.model.specs.Aes.{key_expansion, fixed_key};
ghost use Rattle.planes.specs.Sliced.{IsSliced, IsSliced-prop};

use crate::sliced::slice_one;
use aes::fixed_schedule;

#[derive(Clone, Copy)]
pub struct FixedPlanes {
    pub words: [u64; 88],
    ghost is_fixed: { IsSliced (λ b. key_expansion fixed_key) words } by { IsSliced-prop _ _ },
}

impl FixedPlanes {
    pub fn new() -> FixedPlanes {
        FixedPlanes {
            words: slice_one(&fixed_schedule()),
        }
    }
}
