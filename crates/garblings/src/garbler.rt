// Whether a case agrees with garble. Before the call every byte of the lent buffers is the case's fill; after it they must hold the
// case's bytes, or after a refusal still nothing but the fill.
use cases::answer::{garbled, length_of};
use cases::fill::left;
use cases::line::Case;
use cases::room::{SOME, room};
use cases::setting::read_setting;

// Circuit, seed, setting (scheme, fill, the lengths of three buffers: 1 byte, 1 and 4 each; the run number: none, or 8;
// after it the mark: none, or 2), the answer, and the buffers.
pub fn garble(case: Case) -> bool {
    let [
        circuit,
        seed,
        setting,
        answer,
        after_material,
        after_zeros,
        after_ones,
    ] = case;
    let Some(setting) = read_setting(setting, 3) else {
        return false;
    };
    let ([a, b, c], []) = (setting.lengths, setting.more) else {
        return false;
    };
    let fill = setting.fill;
    let mut material = room::<SOME>(fill);
    let mut zeros = room::<SOME>(fill);
    let mut ones = room::<SOME>(fill);
    let material = &mut material[..length_of(a, SOME)];
    let zeros = &mut zeros[..length_of(b, SOME)];
    let ones = &mut ones[..length_of(c, SOME)];
    let outcome = garble::garble(circuit, seed, setting.wanted, material, zeros, ones);
    garbled(outcome, answer)
        && left(answer, fill, after_material, material)
        && left(answer, fill, after_zeros, zeros)
        && left(answer, fill, after_ones, ones)
}
