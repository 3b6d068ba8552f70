// Buffers of one byte over and over: what an operation finds in its buffers (room.rt), and leaves there when it refuses.
use crate::answer::accepted;

// Whether every byte of a buffer is the one given.
pub fn filled(buffer: &[u8], value: u8) -> bool {
    buffer.iter().all(|byte| *byte == value)
}

// Whether a buffer is as a case has it after the call: it holds the case's bytes, or after a refusal still nothing but the fill.
pub fn left(answer: &[u8], before: u8, after: &[u8], buffer: &[u8]) -> bool {
    if accepted(answer) {
        buffer == after
    } else {
        filled(buffer, before)
    }
}
