// What was read of a record, as 42 words: kind, receiver, sender, verdict, index, owner, amount, and the transaction's
// 35.
// Stays: functions, and no `From`. Neither a record nor an array is a type of this crate, so that it would need a type around one of them.
// Stays: kinds as numbers, and zeros for a field that a kind does not have and for a refused record. include/plankeeper.h tells them, and the
// definitions `record_words` and `answer_words`.
ghost use Rattle.std.specs.Prelude.{◌≡◌, ◌+◌, ◌++◌};
ghost use Rattle.engine.specs.Fields.{record_words, answer_words, reading_words};

use reader::{Reading, Record};
use transaction::refusal::Refusal;
use words::words_of;

// The fields beside the transaction; those that a kind does not have are 0.
#[tactic(auto, unfolding(crate::specs::Fields::record_words))]
pub(crate) fn record_words(fields: Record) -> [u32; 7]
    ensures { result ≡ record_words fields }
{
    match fields {
        Record::Register { receiver } => [1, u32::from(receiver), 0, 0, 0, 0, 0],
        Record::Vote {
            receiver,
            sender,
            verdict,
        } => [
            2,
            u32::from(receiver),
            u32::from(sender),
            u32::from(verdict),
            0,
            0,
            0,
        ],
        Record::Mint {
            receiver,
            index,
            owner,
            amount,
        } => [
            3,
            u32::from(receiver),
            0,
            0,
            u32::from(index),
            owner,
            amount,
        ],
        Record::Turn { receiver } => [4, u32::from(receiver), 0, 0, 0, 0, 0],
    }
}

#[tactic(auto, unfolding(crate::specs::Fields::answer_words))]
fn answer_words(answer: Result<Record, Refusal>) -> [u32; 7]
    ensures { result ≡ answer_words answer }
{
    match answer {
        Ok(fields) => record_words(fields),
        Err(_) => [0; 7],
    }
}

// The one array with the other behind it, as one of K words.
pub(crate) fn joined<const M: usize, const N: usize, const K: usize>(
    head: [u32; M],
    tail: [u32; N],
) -> [u32; K]
    requires { M + N ≡ K }
    ensures { result ≡ head.entry ++ tail.entry }
{
    let mut all = [0; K];
    let words = &mut all[..];
    words[..M].copy_from_slice(&head);
    words[M..].copy_from_slice(&tail);
    all
}

pub(crate) fn fields_of(reading: Reading) -> [u32; 42]
    ensures { result ≡ reading_words reading }
{
    joined(answer_words(reading.answer), words_of(reading.transaction))
}
