// Whether a case agrees with the chain of garble, encode, evaluate and decode. Before the call every byte of the seven lent
// buffers is the case's fill; after it those of the wires' tokens and of the outputs' bits must hold the case's bytes.
use cases::answer::{done, length_of, refused_by};
use cases::line::Case;
use cases::room::{SOME, room};
use cases::setting::read_setting;
use chain::Stopped;

// Whether an answer is that of the chain. Its calls are numbered in the cases, the outputs' tokens last.
fn chained(outcome: Result<(), Stopped>, answer: &[u8]) -> bool {
    match outcome {
        Ok(()) => done(&[], answer),
        Err(Stopped::Garble(refusal)) => refused_by(1, refusal, answer),
        Err(Stopped::Encode(refusal)) => refused_by(2, refusal, answer),
        Err(Stopped::Evaluate(refusal)) => refused_by(3, refusal, answer),
        Err(Stopped::Decode(refusal)) => refused_by(4, refusal, answer),
        Err(Stopped::Outputs(refusal)) => refused_by(5, refusal, answer),
    }
}

// Circuit, seed, values, setting (scheme, fill, the lengths of six buffers: 1 byte, 1 and 4 each; the run number: none,
// or 8; after it the length of the seventh, that of the outputs' tokens: none, or 4; after either the mark: none, or 2),
// the answer, and the buffers of the wires' tokens and of the bits.
pub fn chain(case: Case) -> bool {
    let [
        circuit,
        seed,
        values,
        setting,
        answer,
        after_wires,
        after_bits,
    ] = case;
    let Some(setting) = read_setting(setting, 6) else {
        return false;
    };
    let [a, b, c, d, e, f] = setting.lengths else {
        return false;
    };
    // Without a length of its own there is room for all of the outputs' tokens.
    let g = match setting.more {
        [] => SOME,
        [one, two, three, four] => length_of(&[*one, *two, *three, *four], SOME),
        _ => return false,
    };
    let mut material = room::<SOME>(setting.fill);
    let mut zeros = room::<SOME>(setting.fill);
    let mut ones = room::<SOME>(setting.fill);
    let mut tokens = room::<SOME>(setting.fill);
    let mut wires = room::<SOME>(setting.fill);
    let mut outputs = room::<SOME>(setting.fill);
    let mut bits = room::<SOME>(setting.fill);
    let wires = &mut wires[..length_of(e, SOME)];
    let bits = &mut bits[..length_of(f, SOME)];
    let outcome = chain::chain(
        circuit,
        seed,
        setting.wanted,
        values,
        &mut material[..length_of(a, SOME)],
        &mut zeros[..length_of(b, SOME)],
        &mut ones[..length_of(c, SOME)],
        &mut tokens[..length_of(d, SOME)],
        wires,
        &mut outputs[..g],
        bits,
    );
    chained(outcome, answer) && &*wires == after_wires && &*bits == after_bits
}
