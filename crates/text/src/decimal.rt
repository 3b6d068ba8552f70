// A number in decimal, without leading zeros: the one place that writes numbers as text. std's Display would write one too, but promises its
// text only where it answers `Ok`, and nothing says that it does: `program_text` has no error to answer.
ghost use Rattle.std.specs.Prelude.{[], ◌∷◌, ◌+◌, ◌<◌, ◌≤◌, length};
ghost use Rattle.model.specs.Decimal.{decimal};
ghost use Rattle.text.specs.Written.{Wrote};

// Writes a byte to an index of a buffer, and answers the index past it.
#[tactic(auto, using(crate::proofs::WriteLaws::byte_written))]
pub(crate) fn write_byte(out: &mut [u8], at: usize, byte: u8) -> usize
    requires { at < length out.old }
    ensures { Wrote 1 (byte ∷ []) out.old at result out.new }
{
    out[at] = byte;
    at + 1
}

// Writes a number to an index of a buffer, and answers the index past it: what it has of tens, and then its last digit. A number of 64 bits
// has at most 20 digits.
pub fn write_decimal(out: &mut [u8], at: usize, x: usize) -> usize
    requires { at + length (decimal x) ≤ length out.old }
    ensures { Wrote 20 (decimal x) out.old at result out.new }
{
    let digit = b'0' + (x % 10) as u8;
    if x < 10 {
        return write_byte(out, at, digit);
    }
    let last = write_decimal(out, at, x / 10);
    write_byte(out, last, digit)
}
