// A fingerprint of bytes: a chain over their blocks of 16 bytes, the last padded with zeros. From block 0 on, each block is
// exclusive-ored in, and π taken.
use aes::{SBox, fixed_schedule, permute};
use block::Block;

// The first 16 bytes, padded with zeros where there are fewer.
fn padded(bytes: &[u8]) -> Block {
    let mut block = [0u8; 16];
    let len = bytes.len().min(16);
    block[..len].copy_from_slice(&bytes[..len]);
    Block { bytes: block }
}

// The chain.
pub fn fingerprint(bytes: &[u8]) -> Block {
    let table = SBox::new();
    let schedule = fixed_schedule();
    let mut chain = Block::of_number(0);
    for part in bytes.chunks(16) {
        chain = permute(&table, &schedule, chain.xor(padded(part)));
    }
    chain
}
