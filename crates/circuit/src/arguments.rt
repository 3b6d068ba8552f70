// The refusals of what an operation is handed beside a circuit and a material, one function for each condition. An operation tries
// those of its arguments in rising number, each only once the one before it is done (01, Turned down, by number).
ghost use Rattle.std.specs.Prelude.{◌≡◌};
ghost use Rattle.model.specs.Refusals.{seed_verdict, values_verdict, tokens_verdict, scheme_verdict, room_verdict};
ghost use Rattle.model.specs.Operations.{ran_of};

use crate::values::search_values;
use model::Refusal;

// 8: the seed is not 16 bytes.
#[tactic(auto, using(model::proofs::Conditions::conditions), unfolding(model::specs::Refusals::seed_verdict))]
pub fn check_seed(seed: &[u8]) -> Result<(), Refusal>
    ensures { ran_of result ≡ seed_verdict seed.now }
{
    let len = seed.len();
    if len != 16 {
        return Err(Refusal::SeedLength(len));
    }
    Ok(())
}

// 9 and 10: the value list is not of n bytes, or one of them exceeds 1.
#[tactic(auto, using(model::proofs::Conditions::conditions), unfolding(model::specs::Refusals::values_verdict))]
pub fn check_values(n: usize, values: &[u8]) -> Result<(), Refusal>
    ensures { ran_of result ≡ values_verdict n values.now }
{
    let len = values.len();
    if len != n {
        return Err(Refusal::ValuesLength(len));
    }
    search_values(values)
}

// 11: the list is not of k tokens. 16k may be past what a usize holds, so it is not made.
#[tactic(auto, using(model::proofs::Conditions::conditions, crate::proofs::ArgumentLaws::argument_cases), unfolding(model::specs::Refusals::tokens_verdict))]
pub fn check_tokens(k: usize, tokens: &[u8]) -> Result<(), Refusal>
    ensures { ran_of result ≡ tokens_verdict k tokens.now }
{
    let len = tokens.len();
    if len % 16 != 0 || len / 16 != k {
        return Err(Refusal::TokensLength(len));
    }
    Ok(())
}

// 14: the scheme is not 1, 2, 3 or 4.
// Any byte is taken, as its refusal has it for its place; it stays a byte, since contracts above are over `scheme_of`
// of any byte. The two tests are those of the text, as in `check_width` of the comparator, which is of another type and
// another refusal.
#[tactic(auto, using(model::proofs::Conditions::conditions), unfolding(model::specs::Refusals::scheme_verdict))]
pub fn check_scheme(scheme: u8) -> Result<(), Refusal>
    ensures { ran_of result ≡ scheme_verdict scheme }
{
    if scheme < 1 || 4 < scheme {
        return Err(Refusal::Scheme(scheme));
    }
    Ok(())
}

// 19: an output buffer is shorter than the bytes that it would get.
#[tactic(auto, using(model::proofs::Conditions::conditions), unfolding(model::specs::Refusals::room_verdict))]
pub fn check_room(needed: usize, room: usize) -> Result<(), Refusal>
    ensures { ran_of result ≡ room_verdict needed room }
{
    if room < needed {
        return Err(Refusal::Room(needed));
    }
    Ok(())
}
