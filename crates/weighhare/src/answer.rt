// How an answer is set out for a caller in C: the refusal's number, which is returned, and four words.
ghost use Rattle.std.specs.Prelude.{◌≡◌, ℕ, List};
ghost use Rattle.model.specs.Operations.{answer_of};
ghost use Rattle.weighhare.specs.Out.{out, answer_out, no_words, number_words, sizes_words, made_words};

use circuit::refusal::Turned;
use model::{Garbled, Refusal, Sizes};

// What an operation answers where nothing refuses, as four words.
pub trait Words {
    ghost words_of: { Self → List ℕ };

    fn words(self) -> [u64; 4]
        ensures { result ≡ words_of self };
}

// Of an operation that has no results but the bytes that it writes, all are 0.
impl Words for () {
    ghost words_of = { no_words };

    fn words(self) -> [u64; 4] {
        [0; 4]
    }
}

// One number, in the first word: the encryptions of an evaluation, or the length of a circuit that was written.
impl Words for usize {
    ghost words_of = { number_words };

    fn words(self) -> [u64; 4] {
        [self as u64, 0, 0, 0]
    }
}

// n, m, q, p.
impl Words for Sizes {
    ghost words_of = { sizes_words };

    fn words(self) -> [u64; 4] {
        [self.n as u64, self.m as u64, self.q as u64, self.p as u64]
    }
}

// The material's length and the encryptions.
impl Words for Garbled {
    ghost words_of = { made_words };

    fn words(self) -> [u64; 4] {
        [self.length as u64, self.calls as u64, 0, 0]
    }
}

// Sets out an operation's answer: the words of its results, and 0; or a refusal's place in the first word, and its number.
// A number and four words, with 0 for no refusal: so the C interface has it.
pub fn answered<T: Words>(answer: &mut [u64; 4], done: Result<T, Refusal>) -> u8
    ensures { out result answer.new ≡ answer_out T.words_of (answer_of done) }
{
    match done {
        Ok(results) => {
            *answer = results.words();
            0
        }
        Err(refusal) => {
            let turned = Turned::from(refusal);
            *answer = [turned.place as u64, 0, 0, 0];
            turned.number
        }
    }
}
