// Marks: two bytes that say what stands at a place (01, Material).
ghost use Rattle.std.specs.Prelude.{◌≡◌, ◌+◌, ◌<◌, length};
ghost use Rattle.model.specs.Circuit.{mark_at};

// Whether the two bytes at an index are this mark.
// A mark is two bytes, as the model's `mark_at` takes them, and compared one by one: `==` of arrays would first make an
// array of them, and its contract is of `pointwise`.
#[tactic(auto, using(model::proofs::Conditions::conditions), unfolding(model::specs::Circuit::mark_at))]
pub fn mark_at(s: &[u8], at: usize, x: u8, y: u8) -> bool
    requires { at + 1 < length s.now }
    ensures { result ≡ mark_at s.now at x y }
{
    s[at] == x && s[at + 1] == y
}
