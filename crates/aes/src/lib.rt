// AES-128 encryption (01, AES and doubling): FIPS 197, whose sections (§) are named.
// A schedule is FIPS 197's array of 44 words, and the four T-tables are one array: a look-up is one load, at a place
// that is worked out. A round is a number below 11 and a word of a schedule one below 44, handed in beside the
// schedule: a type with that bound would be made at each turn of `for r in 1..10`, to be taken apart in the function
// that is called.
#![tactic(auto)]

mod sbox; // the S-box
mod steps; // the state, and the steps of a round
mod schedule; // key expansion
mod fixed; // the schedule of π's key
mod cipher; // the rounds
mod lookup; // SubBytes and MixColumns as tables
mod packed; // the steps of a round by the tables
mod folded; // the same with two columns in a word
mod fast; // the rounds by the tables, of one block and of two
mod substitution; // SubWord, by the S-box or by the tables
mod rekeyed; // the same with key expansion beside them

pub use cipher::{encrypt, encrypt_block, permute};
pub use fast::{FixedKey, Pair, encrypt_pair};
pub use fixed::fixed_schedule;
pub use lookup::TTables;
pub use packed::Words;
pub use rekeyed::{encrypt_each_under, next_constant, next_key, rotated};
pub use sbox::SBox;
pub use schedule::{expand_key, put_word, rot_word, round_constant, word, xor_word};
pub use steps::State;
pub use substitution::SubWord;
