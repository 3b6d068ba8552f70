// Room for the cases: arrays on the stack, every byte the one given, since there is no heap. An operation's buffers are made where it
// is called.
ghost use Rattle.std.specs.Prelude.{◌≡◌, length};

// A file of cases, a large material, or the zero tokens of 65,535 wires.
pub const MOST: usize = 1048576;

// The fields of one case, or a circuit of 65,533 gates.
pub const HALF: usize = 524288;

// The tokens of 4,096 inputs and of some gates.
pub const MORE: usize = 131072;

// The tokens of 4,096 inputs.
pub const SOME: usize = 65536;

// An array of one byte over and over. Written where it is used, `[value; 1048576]` gets no proof: the check runs out of stack where a
// slice of it is taken.
pub fn room<const N: usize>(value: u8) -> [u8; N]
    ensures { N ≡ length result }
{
    [value; N]
}
