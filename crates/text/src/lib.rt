// What the program prints (01, Table of examples), written to a buffer: decimal numbers, lines, and the whole text of an input.
// A buffer with a length, and no heap for a `String`; no `Display` either, which could not promise the text
// (decimal.rt).
#![tactic(auto)]

ghost use Rattle.std.specs.Prelude.{◌≡◌, ◌≤◌, length, take};
ghost use Rattle.model.specs.Program.{program_text};
ghost use Rattle.text.specs.Written.{Wrote, TextIs};

use crate::lines::{write_lengths, write_refusal, write_sizes, write_too_long};
use circuit::check;

pub mod decimal;
pub mod lines;

// A text: the first `len` bytes of the array. There is room for seven numbers of at most 20 digits, with a byte after each. It has no heap
// to grow in, so no `String` stands here.
#[derive(Clone, Copy)]
pub struct Text {
    pub bytes: [u8; 147],
    pub len: usize,
    ghost fits: { len ≤ 147 },
}

impl Text {
    // The text's bytes alone.
    pub fn as_bytes(&self) -> &[u8]
        ensures { result.now ≡ take self.now.len self.now.bytes }
    {
        &self.bytes[..self.len]
    }
}

// Writes what the program prints of an input to the front of a buffer, and answers its length.
fn write_text(input: &[u8], out: &mut [u8]) -> usize
    requires { 147 ≤ length out.old }
    ensures { Wrote 147 (program_text input.now) out.old 0 result out.new }
{
    if 65536 < input.len() {
        return write_too_long(out);
    }
    match check(input) {
        Err(f) => write_refusal(out, f),
        Ok(z) => {
            let at = write_sizes(out, z);
            write_lengths(out, at, z.m, z.p)
        }
    }
}

// What the program prints of an input, which may be any bytes.
#[tactic(auto, using(crate::proofs::TextLaws::text_is))]
pub fn program_text(input: &[u8]) -> Text
    ensures { TextIs input.now result.bytes result.len }
{
    let mut bytes = [0u8; 147];
    let len = write_text(input, &mut bytes);
    Text { bytes, len }
}
