// Whether the schedule of a key is the one due.
use crate::ciphers::block_of;
use aes::{SBox, expand_key, fixed_schedule};
use block::Block;
use cases::line::Case;

// Key, and its schedule of 44 words.
fn expands<F: Fn(Block) -> [u8; 176]>(case: Case, expanded: F) -> bool
    requires { F.IsAlwaysCallable expanded }
{
    let [key, schedule, ..] = case;
    expanded(block_of(key)).as_slice() == schedule
}

// By the S-box's table.
pub fn expansion(case: Case) -> bool {
    expands(case, |key| expand_key(&SBox::new(), key))
}

// By the S-box's circuit.
pub fn expansion_by_gates(case: Case) -> bool {
    expands(case, |key| planes::expand_key(key))
}

// Key, i of 2 bytes, and word i of its schedule.
pub fn expansion_word([key, index, due, ..]: Case) -> bool {
    let [high, low] = index else {
        return false;
    };
    let schedule = expand_key(&SBox::new(), block_of(key));
    let (words, _) = schedule.as_chunks::<4>();
    match words.get(usize::from(u16::from_be_bytes([*high, *low]))) {
        Some(word) => word.as_slice() == due,
        None => false,
    }
}

// π's key and its schedule, against the constant, whose first 16 bytes are the key.
pub fn fixed_expansion([key, schedule, ..]: Case) -> bool {
    let due = fixed_schedule();
    due.as_slice() == schedule && &due[..16] == key
}
