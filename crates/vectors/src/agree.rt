// Whether a case agrees with an operation that writes to no buffer: its arguments, and what must come of them, are the fields of its line.
use crate::ciphers::block_of;
use cases::answer::{checked, ran};
use cases::line::Case;
use model::Wire;

// A, 2A, 4A.
pub fn doubling([a, twice, four, ..]: Case) -> bool {
    let a = block_of(a);
    a.doubled().bytes.as_slice() == twice && a.quadrupled().bytes.as_slice() == four
}

// A, and σ of its halves.
pub fn sigma([a, halves, ..]: Case) -> bool {
    block_of(a).sigma().bytes.as_slice() == halves
}

// Circuit, and the answer: 00 and n, m, q, p of 4 bytes each, or the refusal.
pub fn check([circuit, answer, ..]: Case) -> bool {
    checked(circuit::check(circuit), answer)
}

// Zero list, one list, wire and bit (2 bytes and 1), the answer, and the part: the token, or no byte.
pub fn pick([zeros, ones, asked, answer, part, ..]: Case) -> bool {
    let [high, low, bit] = asked else {
        return false;
    };
    let wire = Wire(u16::from_be_bytes([*high, *low]));
    ran(garble::pick_check(zeros, ones, wire, *bit), answer)
        && garble::pick(zeros, ones, wire, *bit) == part
}
