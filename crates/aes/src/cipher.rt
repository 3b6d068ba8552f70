// The cipher, §5.1: "ten rounds, with one AddRoundKey before the first and no MixColumns in the last".
// By the standard's four steps, for readers and the test programs. `FixedKey::permute` and `encrypt_pair` have the
// rounds by tables once more: these go over states of other types, and π's in a call was tried and is slower
// (bench/NOTES.md).
ghost use Rattle.std.specs.Prelude.{◌≡◌};
ghost use Rattle.model.specs.Aes.{key_expansion, cipher, aes, fixed_key, π};

use crate::sbox::SBox;
use crate::schedule::expand_key;
use crate::steps::State;
use block::Block;

// A block encrypted under a schedule.
// The bytes go into a state and back by its field: a `From` for each way would be longer than both lines.
pub fn encrypt(table: &SBox, w: &[u8; 176], b: Block) -> Block
    ensures { result.bytes ≡ cipher w.now b.bytes }
{
    let x = b.bytes;
    let mut s = State { bytes: x }.add_round_key(w, 0);
    for r in 1..10 {
        s = s.round(table, w, r);
    }
    let y = s.last_round(table, w).bytes;
    Block { bytes: y }
}

// "π is AES-128 under the fixed key"; w is the fixed key's schedule.
pub fn permute(table: &SBox, w: &[u8; 176], b: Block) -> Block
    requires { w.now ≡ key_expansion fixed_key }
    ensures { result.bytes ≡ π b.bytes }
{
    encrypt(table, w, b)
}

// A block encrypted under a key.
pub fn encrypt_block(key: Block, b: Block) -> Block
    ensures { result.bytes ≡ aes key.bytes b.bytes }
{
    let table = SBox::new();
    let w = expand_key(&table, key);
    encrypt(&table, &w, b)
}
