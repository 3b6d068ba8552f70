// Numbers as a case has them, big-endian, of 4 bytes where nothing else is said; and the answer of an operation: 00 and its numbers,
// or the refusal's number, of 1 byte, and its place.
ghost use Rattle.std.specs.Prelude.{◌<◌, ◌≤◌};

use circuit::refusal::Turned;
use model::{Garbled, Refusal, Sizes};

// The number of 4 bytes.
pub fn number(bytes: &[u8; 4]) -> usize
    ensures { result < 4294967296 }
{
    u32::from_be_bytes(*bytes) as usize
}

// The length that a case gives a buffer, where `most` is the room there is; no case asks for more.
// One that did would get the room there is, and no refusal: the programs answer so on every input.
pub fn length_of(bytes: &[u8; 4], most: usize) -> usize
    ensures { result ≤ most }
{
    number(bytes).min(most)
}

// Whether an answer is this byte, and then these numbers.
fn holds(first: u8, numbers: &[usize], answer: &[u8]) -> bool {
    let Some(rest) = answer.strip_prefix(&[first]) else {
        return false;
    };
    let (words, left_over) = rest.as_chunks::<4>();
    left_over.is_empty() && words.iter().map(number).eq(numbers.iter().copied())
}

// Whether an answer is that refusal.
pub fn refused(refusal: Refusal, answer: &[u8]) -> bool {
    let turned = Turned::from(refusal);
    holds(turned.number, &[turned.place], answer)
}

// Whether an answer is that refusal by one of the chain's calls, whose place among them, 1 to 5, comes first.
// The call is a number, since it is that byte of the case.
pub fn refused_by(call: u8, refusal: Refusal, answer: &[u8]) -> bool {
    match answer.strip_prefix(&[call]) {
        Some(rest) => refused(refusal, rest),
        None => false,
    }
}

// Whether an answer is 00 and these numbers.
pub fn done(numbers: &[usize], answer: &[u8]) -> bool {
    holds(0, numbers, answer)
}

// Whether an answer is that of an operation whose outcome is these numbers, or a refusal.
fn answers<const N: usize>(outcome: Result<[usize; N], Refusal>, answer: &[u8]) -> bool {
    match outcome {
        Ok(numbers) => done(&numbers, answer),
        Err(refusal) => refused(refusal, answer),
    }
}

// Whether an answer is that of check: a circuit's sizes.
pub fn checked(outcome: Result<Sizes, Refusal>, answer: &[u8]) -> bool {
    answers(outcome.map(|z| [z.n, z.m, z.q, z.p]), answer)
}

// Whether an answer is that of an operation whose only results are bytes.
pub fn ran(outcome: Result<(), Refusal>, answer: &[u8]) -> bool {
    answers(outcome.map(|()| []), answer)
}

// Whether an answer is that of garble: a material's length, and encryptions.
pub fn garbled(outcome: Result<Garbled, Refusal>, answer: &[u8]) -> bool {
    answers(outcome.map(|made| [made.length, made.calls]), answer)
}

// Whether an answer is that of evaluate: encryptions.
pub fn evaluated(outcome: Result<usize, Refusal>, answer: &[u8]) -> bool {
    answers(outcome.map(|calls| [calls]), answer)
}

// Whether an answer is no refusal.
pub fn accepted(answer: &[u8]) -> bool {
    answer.first() == Some(&0)
}
