// The C interface: the operations of 01 and of 02 as exported functions, declared and explained in include/weighhare.h. Each returns the
// refusal's number, 0 if none, and sets out the rest of its answer in four words.
// The C interface has each function by its name, and what each takes: numbers for scheme, mark, wire and bit, and each
// buffer by itself. What they answer is said by one clause, `Handed`, in each: no type can say it, since C reads a
// number and four words.
#![tactic(auto)]

ghost use Rattle.std.specs.Prelude.{◌≡◌};
ghost use Rattle.model.specs.Operations.{check_answer, PlainIs, GarbleIs, EncodeIs, EvaluateIs, EvaluateGatesIs, OutputTokensIs, DecodeIs};
ghost use Rattle.comparator.specs.Comparator.{ComparatorIs};
ghost use Rattle.weighhare.specs.Out.{Handed, verdict_out, sizes_out, made_out, number_out};
ghost use Rattle.weighhare.specs.Pick.{PickIs, part_out};

use crate::answer::answered;
use crate::pick::picked;
use model::{Gate, Wanted};

pub mod answer;
pub mod pick;

// Check: n, m, q, p.
#[unsafe(no_mangle)]
pub extern "C" fn weighhare_check(circuit: &[u8], answer: &mut [u64; 4]) -> u8
    ensures { Handed (λ x. x ≡ check_answer circuit.now) sizes_out result answer.new }
{
    answered(answer, circuit::check(circuit))
}

// Plain: the value of every wire.
#[unsafe(no_mangle)]
pub extern "C" fn weighhare_plain(
    circuit: &[u8],
    values: &[u8],
    wires: &mut [u8],
    answer: &mut [u64; 4],
) -> u8
    ensures { Handed (λ x. PlainIs circuit.now values.now wires.old x wires.new) verdict_out result answer.new }
{
    answered(answer, circuit::plain(circuit, values, wires))
}

// Garble: material of the mark wanted, zero tokens, one tokens; the material's length and the encryptions. Refusal 30 leaves zeros.
#[unsafe(no_mangle)]
pub extern "C" fn weighhare_garble(
    circuit: &[u8],
    seed: &[u8],
    run: u64,
    scheme: u8,
    mark: u16,
    material: &mut [u8],
    zeros: &mut [u8],
    ones: &mut [u8],
    answer: &mut [u64; 4],
) -> u8
    ensures { Handed (λ x. GarbleIs circuit.now seed.now (record { run = run; scheme = scheme; mark = mark }) material.old zeros.old ones.old x material.new zeros.new ones.new) made_out result answer.new }
{
    let wanted = Wanted { run, scheme, mark };
    answered(
        answer,
        garble::garble(circuit, seed, wanted, material, zeros, ones),
    )
}

// Encode: the inputs' tokens for their values.
#[unsafe(no_mangle)]
pub extern "C" fn weighhare_encode(
    circuit: &[u8],
    values: &[u8],
    zeros: &[u8],
    ones: &[u8],
    tokens: &mut [u8],
    answer: &mut [u64; 4],
) -> u8
    ensures { Handed (λ x. EncodeIs circuit.now values.now zeros.now ones.now tokens.old x tokens.new) verdict_out result answer.new }
{
    answered(answer, garble::encode(circuit, values, zeros, ones, tokens))
}

// Evaluate: the tokens of all wires; the encryptions.
#[unsafe(no_mangle)]
pub extern "C" fn weighhare_evaluate(
    circuit: &[u8],
    tokens: &[u8],
    material: &[u8],
    wires: &mut [u8],
    answer: &mut [u64; 4],
) -> u8
    ensures { Handed (λ x. EvaluateIs circuit.now tokens.now material.now wires.old x wires.new) number_out result answer.new }
{
    answered(answer, evaluate::evaluate(circuit, tokens, material, wires))
}

// The same over a list of gate records.
#[unsafe(no_mangle)]
pub extern "C" fn weighhare_evaluate_gates(
    n: u16,
    m: u16,
    gates: &[Gate],
    tokens: &[u8],
    material: &[u8],
    wires: &mut [u8],
    answer: &mut [u64; 4],
) -> u8
    ensures { Handed (λ x. EvaluateGatesIs n m gates.now tokens.now material.now wires.old x wires.new) number_out result answer.new }
{
    answered(
        answer,
        evaluate::list::evaluate_gates(n, m, gates, tokens, material, wires),
    )
}

// The outputs' tokens, in their order.
#[unsafe(no_mangle)]
pub extern "C" fn weighhare_output_tokens(
    circuit: &[u8],
    wires: &[u8],
    tokens: &mut [u8],
    answer: &mut [u64; 4],
) -> u8
    ensures { Handed (λ x. OutputTokensIs circuit.now wires.now tokens.old x tokens.new) verdict_out result answer.new }
{
    answered(answer, evaluate::output_tokens(circuit, wires, tokens))
}

// Decode: the outputs' bits.
#[unsafe(no_mangle)]
pub extern "C" fn weighhare_decode(
    circuit: &[u8],
    tokens: &[u8],
    material: &[u8],
    bits: &mut [u8],
    answer: &mut [u64; 4],
) -> u8
    ensures { Handed (λ x. DecodeIs circuit.now tokens.now material.now bits.old x bits.new) verdict_out result answer.new }
{
    answered(answer, evaluate::decode(circuit, tokens, material, bits))
}

// Pick: which list, 0 for the zero tokens and 1 for the one tokens; where in it the wire's token starts; its length, 16.
#[unsafe(no_mangle)]
pub extern "C" fn weighhare_pick(
    zeros: &[u8],
    ones: &[u8],
    wire: u16,
    bit: u8,
    answer: &mut [u64; 4],
) -> u8
    ensures { Handed (PickIs zeros.now ones.now wire bit) part_out result answer.new }
{
    answered(answer, picked(zeros, ones, wire, bit))
}

// Comparator: the circuit for a width; its length.
#[unsafe(no_mangle)]
pub extern "C" fn weighhare_comparator(width: u64, circuit: &mut [u8], answer: &mut [u64; 4]) -> u8
    ensures { Handed (λ x. ComparatorIs width circuit.old x circuit.new) number_out result answer.new }
{
    answered(answer, comparator::comparator(width as usize, circuit))
}
