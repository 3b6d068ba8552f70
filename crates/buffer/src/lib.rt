// Bytes in lent buffers: big-endian numbers, and copies.
// A place stands beside its buffer, here and in the crates above, with `at + k ≤ length` in the contract: buffers are
// lent, as there is no heap, and many records lie in one. A slice is made where a function needs one part of a buffer
// alone.
#![tactic(auto)]

ghost use Rattle.std.specs.Prelude.{◌≡◌, ◌+◌, ◌<◌, ◌≤◌, length, replicate};
ghost use Rattle.model.specs.Bytes.{be16, two, over, put};

// The number of the two bytes at an index (01, The product's edges: numbers in files are big-endian).
#[tactic(auto, unfolding(model::specs::Bytes::be16))]
pub fn read16(s: &[u8], at: usize) -> u16
    requires { at + 1 < length s.now }
    ensures { result ≡ be16 s.now at }
{
    u16::from_be_bytes([s[at], s[at + 1]])
}

// The low 2 bytes of a number, the higher first.
pub fn two(value: usize) -> [u8; 2]
    ensures { result ≡ two value }
{
    ((value % 65536) as u16).to_be_bytes()
}

// Copies bytes to the front of a buffer.
// Beside `copy_to`, as the model has `over` beside `put`, and contracts of callers name both. By a loop: where the number
// of bytes is not known, `copy_from_slice` becomes a call of `memmove`, which the archive would then ask of who links it.
#[tactic(auto, using(model::proofs::Buffers::copy_start, model::proofs::Buffers::copy_end))]
pub fn copy_front(src: &[u8], dst: &mut [u8])
    requires { length src.now ≤ length dst.old }
    ensures { dst.new ≡ over src.now dst.old }
{
    for j in 0..src.len() {
        dst[j] = src[j];
    }
}

// Copies bytes to an index of a buffer.
#[tactic(auto, unfolding(model::specs::Bytes::put, model::specs::Bytes::over))]
pub fn copy_to(src: &[u8], dst: &mut [u8], at: usize)
    requires { at + length src.now ≤ length dst.old }
    ensures { dst.new ≡ put dst.old at src.now }
{
    dst[at..at + src.len()].copy_from_slice(src);
}

// Zeros at the front of a buffer, as many as are named.
// A number beside the buffer: the contract says of the bytes behind them that they stay, which one of a slice would
// not.
#[tactic(auto, unfolding(model::specs::Bytes::over))]
pub fn zero_front(out: &mut [u8], len: usize)
    requires { len ≤ length out.old }
    ensures { out.new ≡ over (replicate len 0) out.old }
{
    out[..len].fill(0);
}
