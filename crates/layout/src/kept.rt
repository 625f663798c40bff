// What is kept in some words, one behind the other: how it is read from them and stored there.
ghost use Rattle.std.specs.Prelude.{ℕ, List, ◌≡◌, ◌+◌, ◌*◌, ◌%◌, ◌≤◌, ◌<◌};
ghost use Rattle.model.specs.Answers.{finding_number, pledging_number};
ghost use Rattle.layout.specs.Layout.{shard_words, token_size, input_size, output_size, found_size, array_in, Local, Within};
ghost use Rattle.layout.specs.Layout.{said_in, token_in, input_in, output_in, found_in};
ghost use Rattle.layout.specs.Reads.{said_local, token_local, input_local, output_local, found_local};

use crate::findings::{finding_from, finding_number, pledging_number};
use crate::verdicts::{said_from, said_number};
use crate::{FOUND_SIZE, INPUT_SIZE, OUTPUT_SIZE, TOKEN_SIZE, Words};
use model::{Finding, Token};
use transaction::{Input, Output, TokenId};

// A word of a byte.
// Stays: a cast and a remainder. There is no From from u32 to u8, and of a word that C lends only the last byte counts.
pub(crate) fn byte(w: u32) -> u8
    ensures { result ≡ w % 256 }
{
    (w % 256) as u8
}

// Stays: the words with a place in them. What is kept in them is copied out and in, as C lends all the words of a shard in one array.
// `read` has a name that `reader` has too: that one reads a record.
// It takes so many words. Read from b on it is what its words say, and no other word counts.
pub(crate) trait Kept: Copy {
    ghost SIZE: { ℕ };

    ghost read_at: { List ℕ → ℕ → Self };

    const SIZE: usize;

    fn read(s: &Words, b: usize) -> Self
        requires { b + SIZE ≤ shard_words }
        ensures { result ≡ read_at s.now b };

    fn put(self, s: &mut Words, b: usize)
        requires { b + SIZE ≤ shard_words }
        ensures { Within b (b + SIZE) s.old s.new × (read_at s.new b ≡ self) };

    ghost local: { Local read_at SIZE };
}

impl Kept for Option<bool> {
    ghost SIZE = { 1 };

    ghost read_at = { said_in };

    const SIZE: usize = 1;

    fn read(s: &Words, b: usize) -> Option<bool> {
        said_from(byte(s[b]))
    }

    fn put(self, s: &mut Words, b: usize) {
        s[b] = said_number(self);
    }

    ghost local = { said_local };
}

impl Kept for Token {
    ghost SIZE = { token_size };

    ghost read_at = { token_in };

    const SIZE: usize = TOKEN_SIZE;

    fn read(s: &Words, b: usize) -> Token {
        Token {
            creator: s[b],
            index: byte(s[b + 1]),
            owner: s[b + 2],
            amount: s[b + 3],
            pledge: s[b + 4],
        }
    }

    fn put(self, s: &mut Words, b: usize) {
        s[b] = self.creator;
        s[b + 1] = u32::from(self.index);
        s[b + 2] = self.owner;
        s[b + 3] = self.amount;
        s[b + 4] = self.pledge;
    }

    ghost local = { token_local };
}

impl Kept for Input {
    ghost SIZE = { input_size };

    ghost read_at = { input_in };

    const SIZE: usize = INPUT_SIZE;

    fn read(s: &Words, b: usize) -> Input {
        Input {
            token: TokenId {
                shard: byte(s[b]),
                creator: s[b + 1],
                index: byte(s[b + 2]),
            },
            owner: s[b + 3],
            amount: s[b + 4],
        }
    }

    fn put(self, s: &mut Words, b: usize) {
        s[b] = u32::from(self.token.shard);
        s[b + 1] = self.token.creator;
        s[b + 2] = u32::from(self.token.index);
        s[b + 3] = self.owner;
        s[b + 4] = self.amount;
    }

    ghost local = { input_local };
}

impl Kept for Output {
    ghost SIZE = { output_size };

    ghost read_at = { output_in };

    const SIZE: usize = OUTPUT_SIZE;

    fn read(s: &Words, b: usize) -> Output {
        Output {
            shard: byte(s[b]),
            owner: s[b + 1],
            amount: s[b + 2],
        }
    }

    fn put(self, s: &mut Words, b: usize) {
        s[b] = u32::from(self.shard);
        s[b + 1] = self.owner;
        s[b + 2] = self.amount;
    }

    ghost local = { output_local };
}

impl Kept for Finding {
    ghost SIZE = { found_size };

    ghost read_at = { found_in };

    const SIZE: usize = FOUND_SIZE;

    fn read(s: &Words, b: usize) -> Finding {
        finding_from(s[b], s[b + 1])
    }

    fn put(self, s: &mut Words, b: usize) {
        s[b] = finding_number(self);
        s[b + 1] = pledging_number(self);
    }

    ghost local = { found_local };
}

// N of them, one behind the other.
// Stays: a loop. `array::from_fn` was tried, and the proof did not close: its clause does not tie what the closure reads
// at a call to the words that were lent.
pub(crate) fn read_all<T: Kept, const N: usize>(s: &Words, b: usize) -> [T; N]
    requires { (0 < N) × (b + N * T.SIZE ≤ shard_words) }
    ensures { result ≡ array_in N T.read_at T.SIZE s.now b }
{
    let mut all = [T::read(s, b); N];
    for i in 1..N {
        all[i] = T::read(s, b + i * T::SIZE);
    }
    all
}

// They are stored, one behind the other.
pub(crate) fn put_all<T: Kept, const N: usize>(s: &mut Words, b: usize, x: [T; N])
    requires { b + N * T.SIZE ≤ shard_words }
    ensures { Within b (b + N * T.SIZE) s.old s.new × (array_in N T.read_at T.SIZE s.new b ≡ x) }
{
    for i in 0..N {
        x[i].put(s, b + i * T::SIZE);
    }
}
