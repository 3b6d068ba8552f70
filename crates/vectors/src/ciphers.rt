// Whether a block enciphered under a key is the one due, by each form in which what enciphers stands. Where a form has more blocks or
// keys than one, the others are the key and the plaintext, exchanged, so that it matters which of them is whose.
use aes::{Pair, SBox, TTables, encrypt, encrypt_each_under, encrypt_pair, expand_key};
use block::Block;
use cases::file::run_by;
use cases::line::Case;
use planes::{Four, encrypt_four, slice_one, slice_pair};
use std::fs::Files;
use std::io;
use std::io::Print;

// The 16 bytes of a field; a field of another length is taken for 16 zeros.
// No `Option`, so that the program does on every line what it did. `padded` of garblings, which fills up with zeros,
// is no twin.
pub fn block_of(field: &[u8]) -> Block {
    match field.as_array::<16>() {
        Some(bytes) => Block { bytes: *bytes },
        None => Block { bytes: [0; 16] },
    }
}

// Whether a block is the one due.
fn is(block: Block, due: &[u8]) -> bool {
    block.bytes.as_slice() == due
}

// The cases of a file, a key, a plaintext and a ciphertext each, by one form.
fn run_form<R: Files + Print, F: Fn(Block, Block, &[u8]) -> bool>(
    rt: &R,
    name: &str,
    by: &str,
    agrees: F,
) -> io::Result<()>
    requires { (f : F) (key : _) (plaintext : _) (ciphertext : _) → F.pre f key plaintext ciphertext }
{
    run_by(
        rt,
        name,
        by,
        |[key, plaintext, ciphertext, ..]|
            requires { (f : F) (key : _) (plaintext : _) (ciphertext : _) → F.pre f key plaintext ciphertext }
        { agrees(block_of(key), block_of(plaintext), ciphertext) },
    )
}

// Two blocks by the tables, under one key.
fn pair(key: Block, x: Block, y: Block) -> Pair {
    encrypt_pair(&TTables::new(), &expand_key(&SBox::new(), key), x, y)
}

// Two blocks, each under a key of its own, which is expanded beside it.
fn each(i: Block, x: Block, j: Block, y: Block) -> Pair {
    encrypt_each_under(&TTables::new(), i, x, j, y)
}

// Four blocks in planes, where one schedule serves all four: x as the first and the third, then as the second and the fourth.
fn in_planes(key: Block, x: Block, due: &[u8]) -> bool {
    let schedule = slice_one(&planes::expand_key(key));
    let p = encrypt_four(
        &schedule,
        Four {
            a: x,
            b: key,
            c: x,
            d: key,
        },
    );
    let q = encrypt_four(
        &schedule,
        Four {
            a: key,
            b: x,
            c: key,
            d: x,
        },
    );
    is(p.a, due) && is(q.b, due) && is(p.c, due) && is(q.d, due)
}

// Four blocks in planes under two keys: x twice under i, and y twice under j.
fn by_two_keys(i: Block, x: Block, j: Block, y: Block) -> Four {
    encrypt_four(
        &slice_pair(&SBox::new(), i, j),
        Four {
            a: x,
            b: x,
            c: y,
            d: y,
        },
    )
}

// By the steps of a round, and by the tables. A call for each form, which hands over what runs it (main.rt has why).
fn run_tables<R: Files + Print>(rt: &R, name: &str) -> io::Result<()> {
    run_form(rt, name, " by encrypt", |key, x, due| {
        let table = SBox::new();
        is(encrypt(&table, &expand_key(&table, key), x), due)
    })?;
    run_form(rt, name, " by encrypt_pair, first block", |key, x, due| {
        is(pair(key, x, key).x, due)
    })?;
    run_form(rt, name, " by encrypt_pair, second block", |key, x, due| {
        is(pair(key, key, x).y, due)
    })?;
    run_form(
        rt,
        name,
        " by encrypt_each_under, first block",
        |key, x, due| { is(each(key, x, x, key).x, due) },
    )?;
    run_form(
        rt,
        name,
        " by encrypt_each_under, second block",
        |key, x, due| { is(each(x, key, key, x).y, due) },
    )
}

// In planes.
fn run_planes<R: Files + Print>(rt: &R, name: &str) -> io::Result<()> {
    run_form(rt, name, " by encrypt_four, each block", in_planes)?;
    run_form(
        rt,
        name,
        " by encrypt_four, two keys, first",
        |key, x, due| {
            let p = by_two_keys(key, x, x, key);
            is(p.a, due) && is(p.b, due)
        },
    )?;
    run_form(
        rt,
        name,
        " by encrypt_four, two keys, second",
        |key, x, due| {
            let p = by_two_keys(x, key, key, x);
            is(p.c, due) && is(p.d, due)
        },
    )
}

// Keys, plaintexts and ciphertexts. What enciphers stands in more than one form, and each gets all of them.
pub fn run_encryptions<R: Files + Print>(rt: &R, name: &str) -> io::Result<()> {
    run_tables(rt, name)?;
    run_planes(rt, name)
}
