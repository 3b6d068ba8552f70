// Whether a case agrees with what no garbling is known to reach, refusal 30 (02, job 12): the search for an output whose
// two hashes are equal, and zeros at the front of a buffer.
use crate::buffers::changes;
use buffer::zero_front;
use cases::answer::{number, ran};
use cases::line::Case;
use garble::clash::search_clash;

// Bytes, where in them the hashes start and how many outputs there are (4 bytes each), and the answer: 00 or the
// refusal.
// Place and number come out of the case, since `search_clash` counts from a place in the whole material.
pub fn clash([bytes, asked, answer, ..]: Case) -> bool {
    let ([at, outputs], []) = asked.as_chunks::<4>() else {
        return false;
    };
    let at = number(at);
    let outputs = number(outputs);
    at + 32 * outputs <= bytes.len() && ran(search_clash(bytes, at, outputs), answer)
}

// The buffer before, how many of its first bytes become zero (4 bytes), and the buffer after.
// The length comes out of the case: `zero_front` takes it beside the buffer, which has more bytes.
pub fn zeroed([before, asked, after, ..]: Case) -> bool {
    let Some(len) = asked.as_array::<4>() else {
        return false;
    };
    let len = number(len);
    changes(before, after, |buffer| {
        if len <= buffer.len() {
            zero_front(buffer, len);
            true
        } else {
            false
        }
    })
}
