// The marked bytes of a material, written: its header, the head of a row record and of the last record (01, Material).
// Marks, scheme and sizes are the bytes and numbers that the file gets, and a place stands beside the buffer, as in
// crates/buffer. Three functions, as the three records have other fields.
ghost use Rattle.std.specs.Prelude.{◌≡◌, [], ◌∷◌, ◌++◌, ◌+◌, ◌≤◌, length};
ghost use Rattle.model.specs.Bytes.{two, over, put};

use buffer::{copy_front, copy_to, two};
use model::Wire;

// The header: mark 47 48, or 47 4A, the scheme byte, and n, m, q of 2 bytes each.
pub fn write_header(material: &mut [u8], second: u8, scheme: u8, n: usize, m: usize, q: usize)
    requires { 9 ≤ length material.old }
    ensures { material.new ≡ over (0x47 ∷ second ∷ scheme ∷ two n ++ two m ++ two q) material.old }
{
    let [n_high, n_low] = two(n);
    let [m_high, m_low] = two(m);
    let [q_high, q_low] = two(q);
    let head = [
        0x47, second, scheme, n_high, n_low, m_high, m_low, q_high, q_low,
    ];
    copy_front(&head, material);
}

// The head of a charged gate's record: mark 47 54 and the gate's own wire number. Its rows come after it.
pub fn write_record_head(material: &mut [u8], at: usize, own: Wire)
    requires { at + 4 ≤ length material.old }
    ensures { material.new ≡ put material.old at (0x47 ∷ 0x54 ∷ two own.0) }
{
    let [high, low] = two(own.0 as usize);
    copy_to(&[0x47, 0x54, high, low], material, at);
}

// The head of the last record: mark 47 44 or 47 41. A byte or two hashes for each output come after it.
pub fn write_last_head(material: &mut [u8], at: usize, second: u8)
    requires { at + 2 ≤ length material.old }
    ensures { material.new ≡ put material.old at (0x47 ∷ second ∷ []) }
{
    copy_to(&[0x47, second], material, at);
}
