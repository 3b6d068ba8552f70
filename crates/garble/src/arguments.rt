// The refusals of garble and encode once the circuit is accepted, each in its order: nothing is written here.
// Any scheme byte and any mark may be wanted: 14 and 13 refuse them (`GarbleIs`), so both are numbers, and go down as
// they are: the model's `scheme_of` is a function of the byte. What is wanted, the sizes and the lists stay parameters
// of their own, as `GarbleIs` and `EncodeIs` have them. That the sizes are an accepted circuit's (`Bounded`) is no
// part of `Sizes`, since `sizes_of` of the model makes them of any bytes; a second type of sizes would be taken apart
// wherever they are used.
ghost use Rattle.std.specs.Prelude.{◌≡◌};
ghost use Rattle.model.specs.Operations.{ran_of};
ghost use Rattle.circuit.specs.Accepted.{Bounded};
ghost use Rattle.garble.specs.Answers.{length_for, rooms_verdict, garble_arguments, encode_arguments};

use circuit::arguments::{check_room, check_scheme, check_seed, check_tokens, check_values};
use material::ending::{check_mark, last_bytes, wants_hashes};
use material::material_length;
use model::{Refusal, Sizes, Wanted};

// The material's length.
pub fn file_length(z: Sizes, wanted: Wanted) -> usize
    requires { Bounded z }
    ensures { result ≡ length_for z wanted }
{
    let last = last_bytes(wants_hashes(wanted), z.m);
    material_length(wanted.scheme, last, z.p)
}

// The lengths of garble's three buffers.
#[derive(Clone, Copy)]
pub struct Rooms {
    pub material: usize,
    pub zeros: usize,
    pub ones: usize,
}

// 19 for the material, the zeros and the ones.
fn check_rooms(z: Sizes, wanted: Wanted, rooms: Rooms) -> Result<(), Refusal>
    requires { Bounded z }
    ensures { ran_of result ≡ rooms_verdict z wanted rooms.material rooms.zeros rooms.ones }
{
    check_room(file_length(z, wanted), rooms.material)?;
    check_room(16 * (z.n + z.q), rooms.zeros)?;
    check_room(16 * z.n, rooms.ones)
}

// Garble's: 8, 13, 14, 19.
pub fn garble_arguments(z: Sizes, seed: &[u8], wanted: Wanted, rooms: Rooms) -> Result<(), Refusal>
    requires { Bounded z }
    ensures { ran_of result ≡ garble_arguments z seed.now wanted rooms.material rooms.zeros rooms.ones }
{
    check_seed(seed)?;
    check_mark(wanted.mark)?;
    check_scheme(wanted.scheme)?;
    check_rooms(z, wanted, rooms)
}

// Encode's: 9, 10, 11 for the zeros and the ones, 19.
pub fn encode_arguments(
    z: Sizes,
    values: &[u8],
    zeros: &[u8],
    ones: &[u8],
    room: usize,
) -> Result<(), Refusal>
    requires { Bounded z }
    ensures { ran_of result ≡ encode_arguments z values.now zeros.now ones.now room }
{
    check_values(z.n, values)?;
    check_tokens(z.n, zeros)?;
    check_tokens(z.n, ones)?;
    check_room(16 * z.n, room)
}
