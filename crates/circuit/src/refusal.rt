// A refusal as numbers, for whoever prints it or hands it on (01, Turned down, by number).
ghost use Rattle.std.specs.Prelude.{◌≡◌};
ghost use Rattle.circuit.specs.Answers.{TurnedIs};

use model::Refusal;

// A number, as the list has it and as C and the programs hand it on.
#[derive(Clone, Copy)]
pub struct Turned {
    pub number: u8,
    pub place: usize,
}

// It keeps each arm below in one short line.
fn numbered(number: u8, place: usize) -> Turned
    ensures { (result.number ≡ number) × (result.place ≡ place) }
{
    Turned { number, place }
}

impl From<Refusal> for Turned {
    ghost from_gives = { λ f t. TurnedIs f t.number t.place };

    // The number and the place of a refusal.
    fn from(f: Refusal) -> Turned {
        match f {
            Refusal::CircuitShort(l) => numbered(1, l),
            Refusal::CircuitMark => numbered(2, 0),
            Refusal::Limits => numbered(3, 2),
            Refusal::CircuitLength(l) => numbered(4, l),
            Refusal::GateMark(w) => numbered(5, w.0 as usize),
            Refusal::Operands(w) => numbered(6, w.0 as usize),
            Refusal::Code(w) => numbered(7, w.0 as usize),
            Refusal::SeedLength(l) => numbered(8, l),
            Refusal::ValuesLength(l) => numbered(9, l),
            Refusal::Value(i) => numbered(10, i),
            Refusal::TokensLength(l) => numbered(11, l),
            Refusal::MaterialShort(l) => numbered(12, l),
            Refusal::MaterialMark => numbered(13, 0),
            Refusal::Scheme(s) => numbered(14, s as usize),
            Refusal::MaterialSizes => numbered(15, 3),
            Refusal::MaterialLength(l) => numbered(16, l),
            Refusal::RowRecord(w) => numbered(17, w.0 as usize),
            Refusal::LastRecord(at) => numbered(18, at),
            Refusal::Room(l) => numbered(19, l),
            Refusal::PickWire(w) => numbered(20, w.0 as usize),
            Refusal::Width(w) => numbered(21, w),
            Refusal::TextLine(k) => numbered(22, k),
            Refusal::TextCounts => numbered(23, 1),
            Refusal::TextOutput(k) => numbered(24, k),
            Refusal::OutputMark(k) => numbered(25, k),
            Refusal::OutputWire(k) => numbered(26, k),
            Refusal::CommandOutside(c) => numbered(27, c as usize),
            Refusal::NotReady => numbered(28, 0),
            Refusal::OutputToken(k) => numbered(29, k),
            Refusal::OutputHashes(k) => numbered(30, k),
        }
    }
}
