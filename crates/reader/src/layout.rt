// The fields of a record at their places, high byte first.
// Stays: a place beside the bytes, since the definitions `word_at`, `input_at` and `output_at`, on which `Reads` rests, have
// the same two arguments.
ghost use Rattle.std.specs.Prelude.{◌≡◌, ℕ, List, ◌+◌, ◌*◌, ◌≤◌, length};
ghost use Rattle.reader.specs.Layout.{word_at, input_at, output_at, four_at, transaction_at};

use transaction::{Input, Output, TokenId, Transaction};

pub fn word_at(bytes: &[u8], at: usize) -> u32
    requires { at + 4 ≤ length bytes.now }
    ensures { result ≡ word_at bytes.now at }
{
    u32::from_be_bytes([bytes[at], bytes[at + 1], bytes[at + 2], bytes[at + 3]])
}

// What a transaction has four of: so many bytes, one behind the other.
pub trait InBytes: Copy {
    ghost SIZE: { ℕ };

    const SIZE: usize;

    ghost read_at: { List ℕ → ℕ → Self };

    // The one whose bytes begin at that place.
    fn from_bytes(bytes: &[u8], at: usize) -> Self
        requires { at + SIZE ≤ length bytes.now }
        ensures { result ≡ read_at bytes.now at };
}

impl InBytes for Input {
    ghost SIZE = { 14 };

    const SIZE: usize = 14;

    ghost read_at = { input_at };

    fn from_bytes(bytes: &[u8], at: usize) -> Input {
        Input {
            token: TokenId {
                shard: bytes[at],
                creator: word_at(bytes, at + 1),
                index: bytes[at + 5],
            },
            owner: word_at(bytes, at + 6),
            amount: word_at(bytes, at + 10),
        }
    }
}

impl InBytes for Output {
    ghost SIZE = { 9 };

    const SIZE: usize = 9;

    ghost read_at = { output_at };

    fn from_bytes(bytes: &[u8], at: usize) -> Output {
        Output {
            shard: bytes[at],
            owner: word_at(bytes, at + 1),
            amount: word_at(bytes, at + 5),
        }
    }
}

// Four of them, one behind the other.
fn four_at<S: InBytes>(bytes: &[u8], at: usize) -> [S; 4]
    requires { at + 4 * S.SIZE ≤ length bytes.now }
    ensures { result ≡ four_at S.SIZE S.read_at bytes.now at }
{
    [
        S::from_bytes(bytes, at),
        S::from_bytes(bytes, at + S::SIZE),
        S::from_bytes(bytes, at + 2 * S::SIZE),
        S::from_bytes(bytes, at + 3 * S::SIZE),
    ]
}

pub(crate) fn transaction_at(bytes: &[u8], at: usize) -> Transaction
    requires { at + 98 ≤ length bytes.now }
    ensures { result ≡ transaction_at bytes.now at }
{
    Transaction {
        number: word_at(bytes, at),
        input_count: bytes[at + 4],
        output_count: bytes[at + 5],
        inputs: four_at(bytes, at + 6),
        outputs: four_at(bytes, at + 62),
    }
}
