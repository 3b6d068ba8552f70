// Lines of hexadecimal fields, one space between two fields; "--" stands for no byte.
ghost use Rattle.std.specs.Prelude.{◌<◌, length};

use crate::room::{HALF, room};

// The fields of a case. Those that its line lacks are empty.
pub type Case<'a> = [&'a [u8]; 7];

// How many cases there were, and how many agreed.
#[derive(Clone, Copy)]
pub struct Tally {
    pub cases: usize,
    pub agreed: usize,
}

// A hexadecimal digit's value; 0 for any other byte.
// No `None` and no `to_digit`, which takes capitals too: the programs read every other byte as 0, whatever the file.
fn digit(c: u8) -> u8
    ensures { result < 16 }
{
    match c {
        b'0'..=b'9' => c - b'0',
        b'a'..=b'f' => c - b'a' + 10,
        _ => 0,
    }
}

// The field at the front of a text, or after the space there, decoded to the front of a buffer, as far as there is room: the text after
// it, its bytes, and the rest of the buffer. The length is counted, since a `-` writes nothing: a `zip` would go on in both.
fn read_field<'t, 'b>(text: &'t [u8], buffer: &'b mut [u8]) -> (&'t [u8], &'b [u8], &'b mut [u8]) {
    let text = text.strip_prefix(b" ").unwrap_or(text);
    let (pairs, _) = text.as_chunks::<2>();
    let end = pairs
        .iter()
        .position(|[high, _]| *high <= b' ')
        .unwrap_or(pairs.len());
    let mut len = 0;
    for [high, low] in &pairs[..end] {
        if *high != b'-' && len < buffer.len() {
            buffer[len] = digit(*high) * 16 + digit(*low);
            len += 1;
        }
    }
    let (field, rest) = buffer.split_at_mut(len);
    (&text[2 * end..], field, rest)
}

// The fields of the first line of a text, one after the other in a buffer.
pub fn read_case<'a>(text: &[u8], buffer: &'a mut [u8]) -> Case<'a> {
    let mut case: Case<'a> = [&[]; 7];
    let mut text = text;
    let mut buffer = buffer;
    for field in case.iter_mut() {
        let (after, bytes, rest) = read_field(text, buffer);
        *field = bytes;
        text = after;
        buffer = rest;
    }
    case
}

// What comes after the first line of a text.
fn after_line(text: &[u8]) -> &[u8]
    ensures { 0 < length text.now → length result.now < length text.now }
{
    match text.iter().position(|c| *c == b'\n') {
        Some(at) => &text[at + 1..],
        None => &[],
    }
}

// All cases of a text, a line each. What tells whether one agrees is given the text from its line on, and a buffer for its fields. The
// buffers of the cases are on the stack only here, and not while a file is read.
#[inline(never)]
pub fn agreements<F: Fn(&[u8], &mut [u8]) -> bool>(text: &[u8], agrees: F) -> Tally
    requires { F.IsAlwaysCallable agrees }
{
    let mut buffer = room::<HALF>(0);
    // Not split at the ends of lines: a field with half a byte before its line's end goes on past it.
    let mut rest = text;
    let mut cases = 0;
    let mut agreed = 0;
    while !rest.is_empty() {
        agreed += usize::from(agrees(rest, &mut buffer));
        cases += 1;
        rest = after_line(rest);
    }
    Tally { cases, agreed }
}
