// The setting of a garbling in a case: the scheme, the fill, the lengths of the buffers; after them, where it has 8
// bytes more, the run number (02, job 4); and at its very end, where two bytes are left over, the material's mark (02,
// job 12). A setting without a run number is of run 0, as the cases of 01 are, and one without a mark of 47 48.
use model::Wanted;

// A setting taken apart.
#[derive(Clone, Copy)]
pub struct Setting<'a> {
    // What garble is asked for.
    pub wanted: Wanted,
    // What every byte of the lent buffers is before the call.
    pub fill: u8,
    // The lengths of the buffers, of 4 bytes each.
    pub lengths: &'a [[u8; 4]],
    // What stands between the run number and the mark: the chain has the length of one buffer more there, or nothing.
    pub more: &'a [u8],
}

// The run number at the front of what follows the lengths, which may be nothing at all; and what comes after it.
fn run_number(bytes: &[u8]) -> Option<(u64, &[u8])> {
    if bytes.is_empty() {
        return Some((0, bytes));
    }
    let (run, rest) = bytes.split_first_chunk::<8>()?;
    Some((u64::from_be_bytes(*run), rest))
}

// The mark at the end of what follows the run number: all else there is numbers of 4 bytes.
fn mark(bytes: &[u8]) -> (&[u8], u16) {
    match bytes {
        [more @ .., high, low] if more.len() % 4 == 0 => (more, u16::from_be_bytes([*high, *low])),
        _ => (bytes, 0x4748),
    }
}

// A setting with so many lengths; none where there are too few bytes for them, or for the run number.
pub fn read_setting(setting: &[u8], lengths: usize) -> Option<Setting<'_>> {
    let [scheme, fill, rest @ ..] = setting else {
        return None;
    };
    let (words, _) = rest.as_chunks::<4>();
    if words.len() < lengths {
        return None;
    }
    let (run, rest) = run_number(&rest[4 * lengths..])?;
    let (more, mark) = mark(rest);
    let wanted = Wanted {
        run,
        scheme: *scheme,
        mark,
    };
    Some(Setting {
        wanted,
        fill: *fill,
        lengths: &words[..lengths],
        more,
    })
}
