// A transaction (document 01: a swap) as 35 words, both ways: number, input count, output count,
// four inputs of five words (shard, creator, index, owner, amount), four outputs of three words (shard, owner, amount).
// Internal, and a crate of its own only because both static libraries, `engine` and `probes`, are made of it.
#![tactic(auto)]

ghost use Rattle.std.specs.Prelude.{◌≡◌, ℕ, ◌+◌, ◌≤◌, List, length, refl};
ghost use Rattle.transaction.specs.Refusals.{number_of};
ghost use Rattle.words.specs.Words.{byte_of, input_at, output_at, transaction_from, input_words, output_words, words_of};

use std::array;
use transaction::refusal::Refusal;
use transaction::{Input, Output, TokenId, Transaction};

pub const INPUTS: usize = 3; // where the inputs begin

pub const INPUT: usize = 5; // the words of an input

pub const OUTPUTS: usize = 23; // where the outputs begin

pub const OUTPUT: usize = 3; // the words of an output

// A word where a field is a byte: one above 255 stands for 255, which no field allows, so that it is refused.
// Cut to its low byte it would stand for another value, and that one may be allowed.
pub fn narrow(w: u32) -> u8
    ensures { result ≡ byte_of w }
{
    u8::try_from(w).unwrap_or(255)
}

// An answer as a word: the refusal's number, and 0 where it is none.
pub fn number_of<T: Drop>(answer: Result<T, Refusal>) -> u32
    ensures { result ≡ number_of answer }
{
    match answer {
        Ok(_) => 0,
        Err(refusal) => u32::from(u8::from(refusal)),
    }
}

// What a transaction has four of, an input or an output, as N words, both ways.
// Stays: a trait of its own. Neither an input nor an array is a type of this crate, so that `From` would need a type around one of them.
pub trait Slot<const N: usize>: Copy {
    ghost in_words: { Self → List ℕ };

    ghost slot_at: { List ℕ → ℕ → Self };

    fn to_words(self) -> [u32; N]
        ensures { result ≡ in_words self };

    // The slot whose words begin at that place.
    fn from_words(words: &[u32; 35], at: usize) -> Self
        requires { at + N ≤ 35 }
        ensures { result ≡ slot_at words.now at };

    ghost long: { (x : Self) → length (in_words x) ≡ N };
}

impl Slot<5> for Input {
    ghost in_words = { input_words };

    ghost slot_at = { input_at };

    ghost long = { λ _. refl };

    fn to_words(self) -> [u32; 5] {
        [
            u32::from(self.token.shard),
            self.token.creator,
            u32::from(self.token.index),
            self.owner,
            self.amount,
        ]
    }

    fn from_words(words: &[u32; 35], at: usize) -> Input {
        Input {
            token: TokenId {
                shard: narrow(words[at]),
                creator: words[at + 1],
                index: narrow(words[at + 2]),
            },
            owner: words[at + 3],
            amount: words[at + 4],
        }
    }
}

impl Slot<3> for Output {
    ghost in_words = { output_words };

    ghost slot_at = { output_at };

    ghost long = { λ _. refl };

    fn to_words(self) -> [u32; 3] {
        [u32::from(self.shard), self.owner, self.amount]
    }

    fn from_words(words: &[u32; 35], at: usize) -> Output {
        Output {
            shard: narrow(words[at]),
            owner: words[at + 1],
            amount: words[at + 2],
        }
    }
}

pub fn transaction_from(words: &[u32; 35]) -> Transaction
    ensures { result ≡ transaction_from words.now }
{
    Transaction {
        number: words[0],
        input_count: narrow(words[1]),
        output_count: narrow(words[2]),
        inputs: array::from_fn(|k| Input::from_words(words, INPUTS + k * INPUT)),
        outputs: array::from_fn(|k| Output::from_words(words, OUTPUTS + k * OUTPUT)),
    }
}

pub fn words_of(t: Transaction) -> [u32; 35]
    ensures { result ≡ words_of t }
{
    let mut words = [0; 35];
    words[0] = t.number;
    words[1] = u32::from(t.input_count);
    words[2] = u32::from(t.output_count);
    words[INPUTS..OUTPUTS].copy_from_slice(t.inputs.map(Slot::to_words).as_flattened());
    words[OUTPUTS..].copy_from_slice(t.outputs.map(Slot::to_words).as_flattened());
    words
}
