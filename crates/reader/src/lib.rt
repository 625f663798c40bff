// The record reader: document 01, 'Records'. Any bytes whatever get an answer.
// The interface: the types, `read` and `rest`.
// Internal, and public only because the crate `engine` is made of them: `head_cause`, and what is public of `layout` and `bodies`.
#![tactic(auto)]

ghost use Rattle.std.specs.Prelude.{◌≡◌, MatchResult};
ghost use Rattle.reader.specs.Reading.{Reads, head_cause, taken_of, rest_of};
ghost use Rattle.reader.specs.Layout.{body_length};

use transaction::refusal::Refusal;
use transaction::{Transaction, checks};

pub mod layout; // fields at their places
pub mod bodies; // what `read` is made of

// The fields of a record beside its transaction, as they stand in the bytes.
// Stays: the verdict as its byte, as all fields: any value can be handed in, and check 3 says which is wrong.
#[derive(Clone, Copy)]
pub enum Record {
    // kind 1: the receiving shard (document 01: the receiving pantry)
    Register {
        receiver: u8,
    },
    // kind 2: the receiving shard, the sending shard and its verdict, 1 yes or 0 no
    Vote {
        receiver: u8,
        sender: u8,
        verdict: u8,
    },
    // kind 3 (an opening): the shard, index, owner and amount of a genesis token
    Mint {
        receiver: u8,
        index: u8,
        owner: u32,
        amount: u32,
    },
    // kind 4 (a turn; document 02, 4): the receiving shard
    Turn {
        receiver: u8,
    },
}

// The fields that were read or the refusal, with the transaction beside them, and the bytes taken from the front.
// Stays: a blank transaction beside a refusal, as the definitions `refusal` and `reading_of` have it, of which `Reads` and
// the round trips of `codec` speak.
#[derive(Clone, Copy)]
pub struct Reading {
    pub answer: Result<Record, Refusal>,
    pub transaction: Transaction,
    pub taken: usize,
}

// The length of the body that a kind has; no other kind has one.
#[tactic(auto, unfolding(crate::specs::Layout::body_length))]
fn body_length(kind: u8) -> Option<usize>
    ensures { result ≡ body_length kind }
{
    match kind {
        1 => Some(99),
        2 => Some(101),
        3 => Some(10),
        4 => Some(1),
        0 | 5..=255 => None,
    }
}

// Checks 1 and 2, and the length of the whole record that stands at the front where they pass.
fn whole_length(bytes: &[u8]) -> Result<usize, Refusal>
    ensures { MatchResult result (λ size. (head_cause bytes.now ≡ Ok tt) × (size ≡ taken_of bytes.now))
        (λ refusal. head_cause bytes.now ≡ Err refusal) }
{
    if bytes.is_empty() {
        return Err(Refusal::TooShort);
    }
    let Some(body) = body_length(bytes[0]) else {
        return Err(Refusal::UnknownKind);
    };
    if bytes.len() <= body {
        return Err(Refusal::TooShort);
    }
    Ok(body + 1)
}

// Checks 1 and 2: ok where a whole record stands at the front.
pub fn head_cause(bytes: &[u8]) -> Result<(), Refusal>
    ensures { result ≡ head_cause bytes.now }
{
    whole_length(bytes)?;
    Ok(())
}

// The record at the front of the bytes. A transaction is the last 98 bytes of its record.
pub fn read(bytes: &[u8]) -> Reading
    ensures { Reads bytes.now result }
{
    let size = match whole_length(bytes) {
        Ok(size) => size,
        Err(cause) => return bodies::refused(cause, bytes.len()),
    };
    if 2 < bytes[0] {
        return bodies::read_bare(bytes, size);
    }
    if !bodies::front_fits(bytes) {
        return bodies::refused(Refusal::OutOfRange, size);
    }
    let transaction = layout::transaction_at(bytes, size - 98);
    if let Err(cause) = checks::cause(128, transaction) {
        return bodies::refused(cause, size);
    }
    Reading {
        answer: Ok(bodies::front_fields(bytes)),
        transaction,
        taken: size,
    }
}

// The bytes that the record at the front takes: all of them where no whole record stands there.
fn taken(bytes: &[u8]) -> usize
    ensures { result ≡ taken_of bytes.now }
{
    whole_length(bytes).unwrap_or(bytes.len())
}

// The part of the caller's bytes behind the record, for the next read.
pub fn rest<'a>(bytes: &'a [u8]) -> &'a [u8]
    ensures { result.now ≡ rest_of bytes.now }
{
    &bytes[taken(bytes)..]
}
