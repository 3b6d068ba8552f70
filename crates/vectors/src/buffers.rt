// Whether an operation leaves in a buffer what a case has there.
use cases::answer::{evaluated, length_of, ran};
use cases::fill::left;
use cases::line::Case;
use cases::room::{MORE, room};

// An operation on a buffer that holds `before`: whether it agrees by itself, and the buffer then holds `after`.
pub fn changes<F: FnOnce(&mut [u8]) -> bool>(before: &[u8], after: &[u8], agrees: F) -> bool
    requires { F.IsAlwaysCallable agrees }
{
    let mut buffer = room::<MORE>(0);
    let Some(buffer) = buffer.get_mut(..before.len()) else {
        return false;
    };
    buffer.copy_from_slice(before);
    agrees(buffer) && &*buffer == after
}

// An operation on a buffer whose fill and length the setting has (1 byte and 4): whether it agrees by itself, and the buffer then holds
// the case's bytes, or after a refusal still nothing but the fill.
fn writes<F: FnOnce(&mut [u8]) -> bool>(
    setting: &[u8],
    answer: &[u8],
    after: &[u8],
    agrees: F,
) -> bool
    requires { F.IsAlwaysCallable agrees }
{
    let [fill, a, b, c, d] = setting else {
        return false;
    };
    let len = length_of(&[*a, *b, *c, *d], MORE);
    let mut buffer = room::<MORE>(*fill);
    let buffer = &mut buffer[..len];
    agrees(buffer) && left(answer, *fill, after, buffer)
}

// Circuit, the values of the inputs, the buffer before, the answer, and the buffer after.
pub fn plain([circuit, values, before, answer, after, ..]: Case) -> bool {
    changes(before, after, |wires| {
        ran(circuit::plain(circuit, values, wires), answer)
    })
}

// Circuit, the tokens of all wires, the buffer before, the answer, and the buffer after.
pub fn output_tokens([circuit, wires, before, answer, after, ..]: Case) -> bool {
    changes(before, after, |tokens| {
        ran(evaluate::output_tokens(circuit, wires, tokens), answer)
    })
}

// Circuit, values, zero list, one list, setting, the answer, and the buffer.
pub fn encode([circuit, values, zeros, ones, setting, answer, after]: Case) -> bool {
    writes(setting, answer, after, |tokens| {
        ran(garble::encode(circuit, values, zeros, ones, tokens), answer)
    })
}

// Circuit, tokens, material, setting, the answer, and the buffer.
pub fn evaluate([circuit, tokens, material, setting, answer, after, ..]: Case) -> bool {
    writes(setting, answer, after, |wires| {
        evaluated(evaluate::evaluate(circuit, tokens, material, wires), answer)
    })
}

// The same of decode.
pub fn decode([circuit, tokens, material, setting, answer, after, ..]: Case) -> bool {
    writes(setting, answer, after, |bits| {
        ran(evaluate::decode(circuit, tokens, material, bits), answer)
    })
}

// The answer, the fill (1 byte), what a buffer must hold where nothing is refused, and what it holds: whether cases of
// encode, evaluate, decode and garble would agree with it. After a refusal it must hold the fill, and their lines leave
// it out.
pub fn fill([answer, before, after, buffer, ..]: Case) -> bool {
    match before {
        [fill] => left(answer, *fill, after, buffer),
        _ => false,
    }
}
