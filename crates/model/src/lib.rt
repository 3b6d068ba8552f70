// The types of document 01. No work is done here: specs/ says what is meant, and the crates above are proved against it.

#![tactic(auto)]

ghost use Rattle.std.specs.Prelude.{◌≤◌};

// A wire number, from 1 (01, Circuit). It lies as in C, since `Gate` has two of them.
#[repr(C)]
#[derive(Clone, Copy, PartialEq, Eq, PartialOrd, Ord)]
pub struct Wire(pub u16);

// A truth value, 0 or 1: what the plain circuit carries on a wire (01, Circuit; "semantics" in source 000).
// A byte, and not a bool or an enum: it stands as a byte in buffers, is exclusive-ored and made a mask, and no branch
// may go by it (constant time). The same of a colour.
#[derive(Clone, Copy)]
pub struct Truth {
    pub bit: u8,
    ghost is_bit: { bit ≤ 1 },
}

// The colour of a token, 0 or 1 (01, Tokens; the permute bit, "type" in source 000). It is not a truth value.
#[derive(Clone, Copy)]
pub struct Colour {
    pub bit: u8,
    ghost is_bit: { bit ≤ 1 },
}

// A gate as a circuit has it: two operands, which are wires, and a code, which is its truth table (01, Circuit).
// Its fields lie as in C, so that a caller in C can hand in a list of them.
// The code is any byte, as a file or a caller in C may have it. The gate's own wire is no field, since it comes of the
// gate's place among the others: whoever needs it is handed it beside the gate.
#[repr(C)]
#[derive(Clone, Copy)]
pub struct Gate {
    pub a: Wire,
    pub b: Wire,
    pub code: u8,
}

// An AND-type gate: the pair u, v of truth values that has a value of its own, and that value (01, Circuit and Scheme 3).
#[derive(Clone, Copy)]
pub struct AndGate {
    pub u: Truth,
    pub v: Truth,
    pub own: Truth,
}

// A free-XOR gate: its value is pu ⊕ qv ⊕ c. c is its value at 0,0, and p and q are by how much it changes with u and with v.
#[derive(Clone, Copy)]
pub struct XorGate {
    pub p: Truth,
    pub q: Truth,
    pub c: Truth,
}

// What a code means: a gate that is charged, one that is free, or none.
// Three cases, as in the model's own `Kind`: an `Option` around two would have the same three in each match over it,
// each of two words (`Some(Kind::Charged(g))`).
#[derive(Clone, Copy)]
pub enum Kind {
    Charged(AndGate),
    Free(XorGate),
    Refused,
}

// A refusal, which an operation answers as its error: a case for each number of 01's list and of 02's, with what its place is made from.
// `number_of` and `place_of` of specs/Refusals.antt give each case its number and its place.
#[derive(Clone, Copy)]
pub enum Refusal {
    CircuitShort(usize),
    CircuitMark,
    Limits,
    CircuitLength(usize),
    GateMark(Wire),
    Operands(Wire),
    Code(Wire),
    SeedLength(usize),
    ValuesLength(usize),
    Value(usize),
    TokensLength(usize),
    MaterialShort(usize),
    MaterialMark,
    Scheme(u8),
    MaterialSizes,
    MaterialLength(usize),
    RowRecord(Wire),
    LastRecord(usize),
    Room(usize),
    PickWire(Wire),
    Width(usize),
    TextLine(usize),
    TextCounts,
    TextOutput(usize),
    OutputMark(usize),
    OutputWire(usize),
    CommandOutside(u8),
    NotReady,
    OutputToken(usize),
    OutputHashes(usize),
}

// A circuit's sizes: inputs, outputs, gates, charged gates (01, Circuit).
// No invariant holds of them, since `sizes_of` of the model gives sizes to any bytes: so `Bounded` and `Accepted` stand
// in the contracts of whoever needs them. A function over a circuit takes its bytes and its sizes side by side:
// contracts name the bytes alone, which in a struct of both would be `circuit.now.bytes.now` each time. The numbers are
// usize, as sums and indices are made of them; that one is below 65,536 is asked only where a sum or a product must
// fit.
#[derive(Clone, Copy)]
pub struct Sizes {
    pub n: usize,
    pub m: usize,
    pub q: usize,
    pub p: usize,
}

// What garbling is asked for beside the circuit and the seed: the run number (02, job 4), the scheme by its byte (01, Operations), and the
// material's mark (02, job 12), 47 48 or 47 4A.
// Scheme and mark are numbers, since garble takes any: it refuses all others by 14 and 13 (`GarbleIs`).
#[derive(Clone, Copy)]
pub struct Wanted {
    pub run: u64,
    pub scheme: u8,
    pub mark: u16,
}

// What garble answers where nothing refuses: the material's length, and the encryptions made.
#[derive(Clone, Copy)]
pub struct Garbled {
    pub length: usize,
    pub calls: usize,
}
