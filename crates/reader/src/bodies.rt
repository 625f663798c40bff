// What `read` is made of where the whole record is there.
// Stays: one function for each kind of record, and kinds as the bytes that they are: the specification's fields, and the
// definition `kind_of`, have them so. That a whole record of a kind stands there is asked of each: who calls
// has looked, and a struct for it would be made once and taken apart at once.
ghost use Rattle.std.specs.Prelude.{◌≡◌, cond, ◌&&◌, ◌⊎◌, ◌<◌, eqb, leb};
ghost use Rattle.transaction.specs.Refusals.{answer_of};
ghost use Rattle.transaction.specs.Checks.{shard_fits};
ghost use Rattle.reader.specs.Layout.{byte_at};
ghost use Rattle.reader.specs.Reading.{kind_of, head_cause, read_cause, record_at, taken_of, reading_of, refusal};

use crate::layout::word_at;
use crate::{Reading, Record};
use transaction::checks;
use transaction::fields::shard_fits;
use transaction::parts::blank;
use transaction::refusal::Refusal;

// A refusal, with the bytes that the record takes.
pub(crate) fn refused(cause: Refusal, taken: usize) -> Reading
    ensures { result ≡ refusal cause taken }
{
    Reading {
        answer: Err(cause),
        transaction: blank(),
        taken,
    }
}

// The fields in front of the transaction, of kind 1 or 2.
pub(crate) fn front_fields(bytes: &[u8]) -> Record
    requires { (head_cause bytes.now ≡ Ok tt) × ((kind_of bytes.now ≡ 1) ⊎ (kind_of bytes.now ≡ 2)) }
    ensures { result ≡ record_at bytes.now }
{
    let receiver = bytes[1];
    if bytes[0] == 1 {
        return Record::Register { receiver };
    }
    let sender = bytes[2];
    let verdict = bytes[3];
    Record::Vote {
        receiver,
        sender,
        verdict,
    }
}

// Check 3 of these fields.
pub fn front_fits(bytes: &[u8]) -> bool
    requires { (head_cause bytes.now ≡ Ok tt) × ((kind_of bytes.now ≡ 1) ⊎ (kind_of bytes.now ≡ 2)) }
    ensures { result ≡ cond (eqb (kind_of bytes.now) 1)
        (shard_fits (byte_at bytes.now 1))
        (shard_fits (byte_at bytes.now 1) && shard_fits (byte_at bytes.now 2)
        && leb (byte_at bytes.now 3) 1) }
{
    let receiver = bytes[1];
    if bytes[0] == 1 {
        return shard_fits(receiver);
    }
    shard_fits(receiver) & shard_fits(bytes[2]) & (bytes[3] <= 1)
}

fn read_mint(bytes: &[u8]) -> Result<Record, Refusal>
    requires { (head_cause bytes.now ≡ Ok tt) × (kind_of bytes.now ≡ 3) }
    ensures { result ≡ answer_of (read_cause bytes.now) (record_at bytes.now) }
{
    let receiver = bytes[1];
    let index = bytes[2];
    let owner = word_at(bytes, 3);
    let amount = word_at(bytes, 7);
    checks::mint_cause(128, receiver, index, owner, amount)?;
    Ok(Record::Mint {
        receiver,
        index,
        owner,
        amount,
    })
}

fn read_turn(bytes: &[u8]) -> Result<Record, Refusal>
    requires { (head_cause bytes.now ≡ Ok tt) × (kind_of bytes.now ≡ 4) }
    ensures { result ≡ answer_of (read_cause bytes.now) (record_at bytes.now) }
{
    let receiver = bytes[1];
    checks::turn_cause(receiver)?;
    Ok(Record::Turn { receiver })
}

// A record that has no transaction, of kind 3 or 4, and the bytes that it takes.
pub(crate) fn read_bare(bytes: &[u8], taken: usize) -> Reading
    requires { (head_cause bytes.now ≡ Ok tt) × (2 < kind_of bytes.now) × (taken ≡ taken_of bytes.now) }
    ensures { result ≡ reading_of bytes.now }
{
    let answer = if bytes[0] == 3 {
        read_mint(bytes)
    } else {
        read_turn(bytes)
    };
    Reading {
        answer,
        transaction: blank(),
        taken,
    }
}
