// Eight words of bytes become planes, and back, by exchanges of bits between two words. On the way the words are held as planes are.
ghost use Rattle.planes.specs.Exchange.{Swapped, ByPairs, Exchanged, SwappedPairs, SwappedTurned, ExchangedTurned, Interleaved, Parted, Spread, twice, Gathered};

use crate::alternation::{Alternation, BY_1, BY_2, BY_4, BY_8, BY_16, BY_32};
use crate::planes::Planes;

// Two words.
// Neither block's `Halves`, whose words are a number's, the highest byte first, nor those of `packing`: what they hold
// of a block changes with each exchange.
#[derive(Clone, Copy)]
struct Two {
    u: u64,
    v: u64,
}

// Bits of a change places with bits of b that stand s lower: those of a whose number has the digit s, a power of 2. The mask has a 1 for each
// of these bits of b.
fn swap(a: u64, b: u64, by: Alternation) -> Two
    ensures { Swapped by.s a b result }
{
    let t = ((a >> by.s) ^ b) & by.mask;
    Two {
        u: a ^ (t << by.s),
        v: b ^ t,
    }
}

// Each word with an even number and the next, changed together.
fn by_pairs<F: Fn(u64, u64) -> Two>(x: Planes, change: F) -> Planes
    requires { F.IsAlwaysCallable change }
    ensures { ByPairs (F.post change) x result }
{
    let a = change(x.p0, x.p1);
    let b = change(x.p2, x.p3);
    let c = change(x.p4, x.p5);
    let d = change(x.p6, x.p7);
    Planes {
        p0: a.u,
        p1: a.v,
        p2: b.u,
        p3: b.v,
        p4: c.u,
        p5: c.v,
        p6: d.u,
        p7: d.v,
    }
}

// Bits of these pairs change places: the digit s of a bit's number and the lowest digit of its word's.
fn exchange(x: Planes, by: Alternation) -> Planes
    ensures { Exchanged by.s x result }
{
    by_pairs(
        x,
        |a: u64, b: u64| -> Two
            ensures { Swapped by.s a b result }
        { swap(a, b, by) },
    )
}

// The first four words, and the others between them.
// Here and in `part` each word is named, since the order is all that there is to say.
fn interleave(x: Planes) -> Planes
    ensures { Interleaved x result }
{
    Planes {
        p0: x.p0,
        p1: x.p4,
        p2: x.p1,
        p3: x.p5,
        p4: x.p2,
        p5: x.p6,
        p6: x.p3,
        p7: x.p7,
    }
}

// The words with even numbers, then the others.
fn part(x: Planes) -> Planes
    ensures { Parted x result }
{
    Planes {
        p0: x.p0,
        p1: x.p2,
        p2: x.p4,
        p3: x.p6,
        p4: x.p1,
        p5: x.p3,
        p6: x.p5,
        p7: x.p7,
    }
}

// Words to planes: one exchange for each of the six digits of a bit's number. The first is not by whole bytes, and so the compiler loads whole
// words of a block.
#[tactic(auto, using(crate::proofs::Swaps::masks, crate::proofs::Swaps::spreads))]
pub fn spread(x: Planes) -> Planes
    ensures { Spread x result }
{
    let a = exchange(interleave(x), BY_2);
    let b = exchange(interleave(a), BY_1);
    let c = exchange(interleave(b), BY_8);
    let d = exchange(c, BY_16);
    let e = exchange(d, BY_32);
    part(exchange(e, BY_4))
}

// Two pairs of words.
// The four words are named as those of `Planes` are; there are two exchanges for four words, which `by_pairs` would not
// shorten.
#[derive(Clone, Copy)]
pub struct Pairs {
    pub a: u64,
    pub b: u64,
    pub c: u64,
    pub d: u64,
}

// Bits of the first word of each pair change places with bits of the second.
fn exchange_pairs(x: Pairs, by: Alternation) -> Pairs
    ensures { SwappedPairs by.s x result }
{
    let p = swap(x.a, x.b, by);
    let q = swap(x.c, x.d, by);
    Pairs {
        a: p.u,
        b: p.v,
        c: q.u,
        d: q.v,
    }
}

// Words to planes where block 1 is block 0 again, and block 3 block 2: each exchange but the last is made of half the words.
// It stands beside `spread` for that half.
#[tactic(auto, using(crate::proofs::Swaps::masks, crate::proofs::Swaps::spreads_pairs))]
pub fn spread_pairs(x: Pairs) -> Planes
    ensures { Spread (twice x) result }
{
    let a = exchange_pairs(x, BY_8);
    let b = exchange_pairs(a, BY_16);
    let c = exchange_pairs(b, BY_32);
    let d = exchange_pairs(c, BY_4);
    let i = Pairs {
        a: d.a,
        b: d.c,
        c: d.b,
        d: d.d,
    };
    let e = exchange_pairs(i, BY_2);
    exchange(
        Planes {
            p0: e.a,
            p1: e.a,
            p2: e.b,
            p3: e.b,
            p4: e.c,
            p5: e.c,
            p6: e.d,
            p7: e.d,
        },
        BY_1,
    )
}

// The exchange of bits 8 apart, after which the odd bytes of both words are exchanged.
// It is no `swap` with other numbers: whole bytes go to other places, by masks alone.
fn swap_turned(a: u64, b: u64) -> Two
    ensures { SwappedTurned a b result }
{
    Two {
        u: (a & 0x00FF00FF00FF00FF) | (b & 0xFF00FF00FF00FF00),
        v: ((a >> 8) & 0x00FF00FF00FF00FF) | ((b << 8) & 0xFF00FF00FF00FF00),
    }
}

// The same of each word with an even number and the next.
fn exchange_turned(x: Planes) -> Planes
    ensures { ExchangedTurned x result }
{
    by_pairs(x, swap_turned)
}

// Planes after the last round to words: `spread` backwards. Ten times ShiftRows was left out, which is twice, and turns rows 1 and 3 by two
// columns: these are the odd bytes of a block's two words. The last exchange is not by whole bytes, and so the compiler stores whole words.
#[tactic(auto, using(crate::proofs::Swaps::masks, crate::proofs::Swaps::gathers))]
pub fn gather(x: Planes) -> Planes
    ensures { Gathered x result }
{
    let a = exchange(interleave(x), BY_4);
    let b = exchange(a, BY_32);
    let c = exchange(b, BY_16);
    let d = exchange_turned(c);
    let e = exchange(part(d), BY_1);
    part(exchange(part(e), BY_2))
}
