// AES-128 of four blocks at once, in planes: no look-up and no branch by data. FIPS 197, whose sections (§) are named.
// A schedule in planes is one array of 88 words, eight for each round, and a round is a number below 11 beside it: see
// crates/aes. No type holds of which schedules it is (`IsSliced`): one block's, two blocks' or four, and whoever
// enciphers takes any.
#![tactic(auto)]

mod planes; // the state in planes, and the steps of a round
mod sbox; // the S-box as a circuit
mod rotations; // planes rotated, which moves rows and columns
mod alternation; // by how much bits change places
mod exchange; // bits exchanged between words
mod packing; // blocks to planes and back
mod turned; // a key turned back for the ShiftRows that are left out
mod sliced; // a schedule in planes
mod fixed; // the schedule of π's key in planes
mod schedule; // key expansion
mod cipher; // the rounds

pub use cipher::encrypt_four;
pub use fixed::FixedPlanes;
pub use packing::{Four, pack, unpack};
pub use planes::Planes;
pub use schedule::{SubGates, expand_key};
pub use sliced::{slice_one, slice_pair};
