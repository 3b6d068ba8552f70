// Whether a large garbling agrees. The case is 86 bytes: the circuit's rule (n, m, q and the period of 2 bytes each, the
// generator's start of 4), the seed, the scheme, the answer (00, the length and the calls), and the fingerprints of the
// material, the zero tokens and the one tokens. No such case is refused, and all are of run 0 and of mark 47 48.
use crate::fingerprint::fingerprint;
use crate::rule::{Rule, put_circuit};
use cases::answer::{garbled, number};
use cases::fill::filled;
use cases::line::read_case;
use cases::room::{MOST, SOME, room};
use model::Wanted;

// What the buffers hold before the call.
const BEFORE: u8 = 0xA5;

// The rule of a case.
fn rule_of(case: &[u8; 86]) -> Rule {
    Rule {
        n: u16::from_be_bytes([case[0], case[1]]),
        m: usize::from(u16::from_be_bytes([case[2], case[3]])),
        q: u16::from_be_bytes([case[4], case[5]]),
        period: usize::from(u16::from_be_bytes([case[6], case[7]])),
        start: u32::from_be_bytes([case[8], case[9], case[10], case[11]]),
    }
}

// Whether so many bytes at the front of a buffer have a fingerprint, and the others are as they were.
// The length comes out of the case, and what stands past it is compared too: so it is beside the buffer.
fn wrote(buffer: &[u8], len: usize, due: &[u8]) -> bool {
    match buffer.split_at_checked(len) {
        Some((made, rest)) => fingerprint(made).bytes.as_slice() == due && filled(rest, BEFORE),
        None => false,
    }
}

// Garble on the circuit that a case's rule made. The one tokens of 4,096 inputs fill the last buffer.
fn garble_made(case: &[u8; 86], circuit: &[u8]) -> bool {
    let mut material = room::<MOST>(BEFORE);
    let mut zeros = room::<MOST>(BEFORE);
    let mut ones = room::<SOME>(BEFORE);
    let wanted = Wanted {
        run: 0,
        scheme: case[28],
        mark: 0x4748,
    };
    let outcome = garble::garble(
        circuit,
        &case[12..28],
        wanted,
        &mut material,
        &mut zeros,
        &mut ones,
    );
    let rule = rule_of(case);
    let inputs = usize::from(rule.n);
    let wires = inputs + usize::from(rule.q);
    let length = number(&[case[30], case[31], case[32], case[33]]);
    garbled(outcome, &case[29..38])
        && wrote(&material, length, &case[38..54])
        && wrote(&zeros, 16 * wires, &case[54..70])
        && wrote(&ones, 16 * inputs, &case[70..])
}

// The case whose circuit is to be made in a buffer.
fn large_case(case: &[u8; 86], buffer: &mut [u8]) -> bool {
    let rule = rule_of(case);
    let end = 8 + 7 * usize::from(rule.q);
    if rule.n < 2 || buffer.len() < end {
        return false;
    }
    put_circuit(buffer, rule);
    garble_made(case, &buffer[..end])
}

// The case on the first line of a text, decoded to a buffer, where its circuit then takes its place. All that the line has is the case's.
pub fn large(text: &[u8], buffer: &mut [u8]) -> bool {
    let lacking = read_case(text, buffer).iter().try_fold(
        86_usize,
        |lacking, field| lacking.checked_sub(field.len()),
    );
    match buffer.first_chunk::<86>() {
        Some(case) if lacking == Some(0) => {
            let case = *case;
            large_case(&case, buffer)
        }
        _ => false,
    }
}
