// Evaluation over a list of gate records (01, Circuit), which is a circuit of mark 43 48: for a caller that runs one circuit many times
// and has its gates already read. No bytes are made of the records: they are walked in passes, in the order in which document 01
// refuses. Pass 0 looks for faults in the gates (6 and 7), pass 1 checks their row records (17), pass 2 writes their tokens; between the
// passes stands what is tried once. So that pass 1 need not go over all gates, pass 0 looks at the row records too, before anything is
// known of the material's header and length. If these are then found right, and every row record before the last gate's was right too,
// pass 1 checks the last gate only; if one was not, pass 1 starts at the first gate and finds the fault that is to be told.
// A loop for each pass, with a state of its own, so that no turn has more than it needs in registers.
// Whatever enciphers is lent a `FixedKey`: the T-tables, and the schedule of π's key.
// The sizes, the records and the material are parameters of their own: contracts name the bytes made of the first two
// (`circuit_bytes z.n z.m gates.now`; so does `ListStart`), and a struct of them would write `list.now.gates.now` in
// each. A gate's wire is made by `as`: it fits 16 bits by the contract, and `try_from` would answer an error that
// cannot be.
ghost use Rattle.std.specs.Prelude.{◌≡◌, ◌≤◌, get_or};
ghost use Rattle.model.specs.Circuit.{circuit_of, circuit_bytes};
ghost use Rattle.model.specs.Scheme.{record_length};
ghost use Rattle.model.specs.Garbling.{scheme_of};
ghost use Rattle.model.specs.Refusals.{material_verdict};
ghost use Rattle.model.specs.Operations.{answer_of, ran_of, evaluate_verdict, EvaluateGatesIs};
ghost use Rattle.material.specs.Answers.{step_of, records_answer};
ghost use Rattle.evaluate.specs.Walk.{WalkStart, WalkedIs};
ghost use Rattle.evaluate.specs.GateList.{limits_answer, ListStart, row_passed, CursorFits, tried_answer, ListSeen, RowsSeen, StartsAt, RowRoom, pass_answer};

use crate::walk::{Opening, SoFar};
use aes::FixedKey;
use buffer::copy_front;
use circuit::arguments::{check_room, check_tokens};
use circuit::code::code_charge;
use circuit::gates::read_gate;
use circuit::header::sizes_hold;
use material::file::check_file;
use material::last::check_last;
use material::record_length;
use material::records::{Cursor, is_row};
use model::{Gate, Refusal, Sizes, Wire};

// The sizes before the first pass, which counts p; or 3, for q records.
// n and m are numbers of 16 bits, as `evaluate_gates` gets them: so C hands them in.
#[tactic(auto, using(model::proofs::Conditions::conditions), unfolding(model::specs::Refusals::refuse))]
fn begin(n: u16, m: u16, q: usize) -> Result<Sizes, Refusal>
    ensures { answer_of result ≡ limits_answer n m q }
{
    let n = n as usize;
    let m = m as usize;
    if 65535 < q || !sizes_hold(false, n, m, q) {
        return Err(Refusal::Limits);
    }
    Ok(Sizes { n, m, q, p: 0 })
}

// The bytes of a row record, by the material's scheme byte; where there is none, as for byte 0.
// No `Option`: material that has no such byte has no row record either, so pass 0 asks no more of it, and any length
// does.
fn stride_of(material: &[u8]) -> usize
    ensures { result ≡ record_length (scheme_of (get_or material.now 2 0)) }
{
    if material.len() <= 2 {
        return record_length(0);
    }
    record_length(material[2])
}

// A record as it was handed in: its two wires are numbers of 16 bits, and so are those of the bytes that stand for it.
// Of a record in a slice that is known only once a function takes it by value.
// A clause in its place would ask something of the list, and `evaluate_gates` asks nothing.
fn seen(g: Gate) -> Gate
    ensures same { result ≡ g }
    ensures fits { (result.a.0 ≤ 65535) × (result.b.0 ≤ 65535) }
{
    g
}

// What pass 0 finds where no gate has a fault: how many are charged, and where the row record of the last gate is due,
// if each one before it was right.
#[derive(Clone, Copy)]
struct Tried {
    charged: usize,
    last: Option<Cursor>,
}

// Past the row record of a gate of charge x, if its mark and the wire number that is due stand where it is due. A free
// gate has none: that is asked first, so that for it nothing moves. For any bytes; whether the rows lie within them is
// not asked, since a material of the right length has all of them.
// The charge is a number, here and in `pass_row`: so `read_gate` answers it, and it is added to p as the model does
// (`charge`).
fn row_passed(
    material: &[u8],
    stride: usize,
    x: usize,
    due: Wire,
    here: Option<Cursor>,
) -> Option<Cursor>
    requires low { 4 ≤ stride }
    requires fits { CursorFits stride here }
    ensures { result ≡ row_passed material.now stride x due.0 here }
{
    if x == 0 {
        return here;
    }
    let cursor = here?;
    if material.len() < cursor.at + 4 || !is_row(material, cursor.at, due) {
        return None;
    }
    Some(cursor.past(stride))
}

// Pass 0: 6 and 7, and the charged gates are counted.
fn try_gates(z: Sizes, gates: &[Gate], material: &[u8]) -> Result<Tried, Refusal>
    requires { ListStart z gates.now }
    ensures { answer_of result ≡ tried_answer (circuit_bytes z.n z.m gates.now) material.now z.q }
{
    let stride = stride_of(material);
    let mut charged = 0;
    let mut next = Some(Cursor::first());
    let mut last = next;
    for (k, g) in gates.iter().enumerate() {
        let own = Wire((z.n + k + 1) as u16);
        let x = read_gate(own, seen(*g))?;
        charged += x;
        last = next;
        next = row_passed(material, stride, x, own, next);
    }
    Ok(Tried { charged, last })
}

// Where pass 1 starts: the gate, from 0, and where its row record is due.
#[derive(Clone, Copy)]
struct Start {
    k: usize,
    here: Cursor,
}

// At the last gate if the row records before it were right, and else at the first.
fn start_of(q: usize, last: Option<Cursor>) -> Start
    requires { 1 ≤ q }
    ensures { StartsAt q last result.k result.here }
{
    match last {
        Some(here) => Start { k: q - 1, here },
        None => Start {
            k: 0,
            here: Cursor::first(),
        },
    }
}

// Past the row record of a gate of this code, if it has one; or 17.
fn pass_row(
    material: &[u8],
    here: Cursor,
    stride: usize,
    code: u8,
    due: Wire,
) -> Result<Cursor, Refusal>
    requires { RowRoom material.now here.at stride code }
    ensures { step_of result ≡ pass_answer material.now here.at code due.0 }
{
    if code_charge(code) == 0 {
        return Ok(here);
    }
    if !is_row(material, here.at, due) {
        return Err(Refusal::RowRecord(due));
    }
    Ok(here.past(stride))
}

// Pass 1: 17. Without a fault the last record is due at the end. Beside `check_records` of material, which reads its gates
// from a circuit's bytes: here they are records, and the stride is known, so that each turn is another.
fn check_rows(
    z: Sizes,
    gates: &[Gate],
    material: &[u8],
    last: Option<Cursor>,
) -> Result<Cursor, Refusal>
    requires list_start { ListStart z gates.now }
    requires rows_seen { RowsSeen (circuit_bytes z.n z.m gates.now) z material.now last }
    ensures { step_of result ≡ records_answer (circuit_bytes z.n z.m gates.now) material.now }
{
    let stride = stride_of(material);
    let start = start_of(z.q, last);
    let mut here = start.here;
    for k in start.k..z.q {
        let due = Wire((z.n + k + 1) as u16);
        here = pass_row(material, here, stride, seen(gates[k]).code, due)?;
    }
    Ok(here)
}

// Whether the material is well-formed for the circuit of the records, or the first of refusals 12 to 18. `check_material`
// of material is these three lines over a circuit's bytes, of which there are none here.
fn check_list_material(
    z: Sizes,
    gates: &[Gate],
    material: &[u8],
    last: Option<Cursor>,
) -> Result<(), Refusal>
    requires list_start { ListStart z gates.now }
    requires list_seen { ListSeen (circuit_bytes z.n z.m gates.now) z material.now last }
    ensures { ran_of result ≡ material_verdict (circuit_of (circuit_bytes z.n z.m gates.now)) material.now }
{
    check_file(material, z)?;
    let end = check_rows(z, gates, material, last)?;
    check_last(material, z.m, end.at)
}

// Passes 0 and 1, and what is tried between and after them: the first of refusals 6 and 7, 11, 12 to 18, 19.
fn check_list(
    z: Sizes,
    gates: &[Gate],
    tokens: &[u8],
    material: &[u8],
    room: usize,
) -> Result<(), Refusal>
    requires { ListStart z gates.now }
    ensures { ran_of result ≡ evaluate_verdict (circuit_bytes z.n z.m gates.now) tokens.now material.now room }
{
    let tried = try_gates(z, gates, material)?;
    let z = Sizes {
        p: tried.charged,
        ..z
    };
    check_tokens(z.n, tokens)?;
    check_list_material(z, gates, material, tried.last)?;
    check_room(16 * (z.n + z.q), room)
}

// Pass 2: the tokens of the gates, written after the inputs' tokens, which stand at the front of the buffer. Answers the
// encryptions made. `write_tokens` is the same loop over bytes: what a turn does is one method, `write_token`, and a
// closure for where the gate comes from would stand in the innermost loop.
fn write_list(key: &FixedKey, z: Sizes, gates: &[Gate], material: &[u8], wires: &mut [u8]) -> usize
    requires list_start { ListStart z gates.now }
    requires walk_start { WalkStart (circuit_bytes z.n z.m gates.now) material.now z.n z.q wires.old }
    ensures { WalkedIs (circuit_bytes z.n z.m gates.now) material.now z.n wires.old result wires.new }
{
    let opening = Opening {
        key,
        scheme: material[2],
        material,
        n: z.n,
    };
    let mut s = SoFar::start();
    for (k, g) in gates.iter().enumerate() {
        s = opening.write_token(k, seen(*g), s, wires);
    }
    s.calls
}

// The whole walk over the records: what is tried, and then what is written.
pub fn walk_gates(
    key: &FixedKey,
    n: u16,
    m: u16,
    gates: &[Gate],
    tokens: &[u8],
    material: &[u8],
    wires: &mut [u8],
) -> Result<usize, Refusal>
    ensures { EvaluateGatesIs n m gates.now tokens.now material.now wires.old (answer_of result) wires.new }
{
    let z = begin(n, m, gates.len())?;
    check_list(z, gates, tokens, material, wires.len())?;
    copy_front(tokens, wires);
    Ok(write_list(key, z, gates, material, wires))
}

// The tokens of all wires and the encryptions, from n, m, the gates and the inputs' tokens: what `evaluate` answers to the bytes
// made from them; or the first of refusals 3, 6 and 7, 11, 12 to 18, 19. What π is computed with is made once, here.
pub fn evaluate_gates(
    n: u16,
    m: u16,
    gates: &[Gate],
    tokens: &[u8],
    material: &[u8],
    wires: &mut [u8],
) -> Result<usize, Refusal>
    ensures { EvaluateGatesIs n m gates.now tokens.now material.now wires.old (answer_of result) wires.new }
{
    let key = FixedKey::new();
    walk_gates(&key, n, m, gates, tokens, material, wires)
}
