// Circuits made by a rule, for cases too large to be written out. Gate i, counted from 0, has operands by a generator of
// numbers, and a code by its place: every `period` gates, from the first on, one is charged, the eight codes in turn; the
// others are free, code 6 where i/2 is even and 9 where it is odd.
ghost use Rattle.std.specs.Prelude.{◌+◌, ◌*◌, ◌<◌, ◌≤◌, length};

// Inputs, outputs, gates, the period (0 where no gate is charged), and where the generator starts.
// 0 and no `Option`: the case has these two bytes, and `code` would take it apart where it now compares. No `Sizes` of
// the model beside the rest: a rule has no p.
#[derive(Clone, Copy)]
pub struct Rule {
    pub n: u16,
    pub m: usize,
    pub q: u16,
    pub period: usize,
    pub start: u32,
}

// The codes of charged gates.
const CHARGED: [u8; 8] = [1, 2, 4, 7, 8, 11, 13, 14];

// The next number of the generator.
fn next(x: u32) -> u32 {
    (u64::from(x) * 48271 % 2147483647) as u32
}

// The code of gate i.
// The rule's three ways: a table of functions would still be chosen from by these tests.
fn code(i: usize, period: usize) -> u8 {
    if period != 0 && i % period == 0 {
        CHARGED[i / period % 8]
    } else if i / 2 % 2 == 0 {
        6
    } else {
        9
    }
}

// The bytes of gate i, for which the generator gave x and then y: a is 1 to own-2, and b is a+1 to own-1, where own is its wire.
// By value, for a loop over parts of 7 bytes: `write_gate` of circuit takes the whole buffer and a place in it, which
// would have to be counted.
fn gate(r: Rule, i: u16, x: u32, y: u32) -> [u8; 7]
    requires { 2 ≤ r.n }
{
    let own = u32::from(r.n) + 1 + u32::from(i);
    let a = 1 + x % (own - 2);
    let b = a + 1 + y % (own - 1 - a);
    let [_, _, a_high, a_low] = a.to_be_bytes();
    let [_, _, b_high, b_low] = b.to_be_bytes();
    [
        b'C',
        b'G',
        a_high,
        a_low,
        b_high,
        b_low,
        code(usize::from(i), r.period),
    ]
}

// Writes the circuit. In bytes of its own: were they those of `write_circuit_header` and `write_gate` of circuit, a mistake
// that these share with the reader of the same crate, by which `garble` takes the circuit, would not show.
pub fn put_circuit(s: &mut [u8], r: Rule)
    requires { (2 ≤ r.n) × (8 + 7 * r.q ≤ length s.old) }
{
    let [n_high, n_low] = r.n.to_be_bytes();
    let [_, _, _, _, _, _, m_high, m_low] = r.m.to_be_bytes();
    let [q_high, q_low] = r.q.to_be_bytes();
    s[..8].copy_from_slice(&[b'C', b'H', n_high, n_low, m_high, m_low, q_high, q_low]);
    let mut z = r.start;
    for (i, record) in (0..r.q).zip(s[8..].chunks_exact_mut(7)) {
        let x = next(z);
        z = next(x);
        record.copy_from_slice(&gate(r, i, x, z));
    }
}
