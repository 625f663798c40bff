// A record with a transaction, put straight from the bytes into the lent words and checked on the way. Where it is refused, some words
// have been written.
ghost use Rattle.std.specs.Prelude.{◌≡◌, true, false, Ok, MatchResult, ◌⊎◌, [], ◌∷◌, ◌+◌, ◌≤◌, length};
ghost use Rattle.std.proofs.lemmas.List.Edits.{sets};
ghost use Rattle.transaction.specs.declared.refusal.Refusal.TheVariants.{OutOfRange};
ghost use Rattle.reader.specs.Layout.{inputs_at, outputs_at};
ghost use Rattle.reader.specs.Reading.{kind_of, head_cause};
ghost use Rattle.reader.specs.declared.Record.TheVariants.{Register, Vote};
ghost use Rattle.engine.specs.Fields.{record_words};
ghost use Rattle.engine.specs.Taking.{LastOf, TakesTransaction, TakesRecord};

use crate::fields::record_words;
use crate::slots::{INPUT_BYTES, OUTPUT_BYTES, take_slots};
use reader::Record;
use reader::bodies::front_fits;
use reader::layout::{InBytes, word_at};
use std::array;
use transaction::checks::named_twice;
use transaction::fields::counts_fit;
use transaction::refusal::Refusal;
use transaction::slot::total;
use transaction::{Input, Output};

// Stays: kinds as numbers, with names. A kind is a byte of the record, and any may stand there: the definition `kind_of` tells it as a number.
const REGISTER: u8 = 1; // the kind of a registration

pub(crate) const VOTE: u8 = 2; // and that of a vote

const FRONT: usize = 7; // the words in front of the transaction

const INPUTS: usize = FRONT + words::INPUTS;

const OUTPUTS: usize = FRONT + words::OUTPUTS;

// Check 3, by whether the fields fit.
fn in_range(fits: bool) -> Result<(), Refusal>
    ensures { MatchResult result (λ passed. fits ≡ true) (λ refusal. (fits ≡ false) × (refusal ≡ OutOfRange)) }
{
    if fits {
        Ok(())
    } else {
        Err(Refusal::OutOfRange)
    }
}

// Checks 4 and 5 of a transaction that has passed check 3, by the places of its inputs and of its outputs.
// Stays: the slots are read here, and not by the reader's functions for four of them. Those are too large for the compiler to make them part of
// this one as well: 124 instructions of a vote went to them in the first version (docs/PROOF-NOTES.md, 11).
fn last_cause(bytes: &[u8], inputs: usize, outputs: usize, count: u8) -> Result<(), Refusal>
    requires { (inputs + 56 ≤ length bytes.now) × (outputs + 36 ≤ length bytes.now) }
    ensures { LastOf (inputs_at bytes.now inputs) (outputs_at bytes.now outputs) count result }
{
    let x = array::from_fn(|k| Input::from_bytes(bytes, inputs + k * INPUT_BYTES));
    if named_twice(count, x) {
        return Err(Refusal::TokenTwice);
    }
    let y = array::from_fn(|k| Output::from_bytes(bytes, outputs + k * OUTPUT_BYTES));
    if total(x) != total(y) {
        return Err(Refusal::SumsDiffer);
    }
    Ok(())
}

fn take_transaction(bytes: &[u8], at: usize, fields: &mut [u32; 42]) -> Result<(), Refusal>
    requires { at + 98 ≤ length bytes.now }
    ensures { TakesTransaction bytes.now at fields.old result fields.new }
{
    let number = word_at(bytes, at);
    let inputs = bytes[at + 4];
    let outputs = bytes[at + 5];
    in_range(counts_fit(number, inputs, outputs))?;
    fields[FRONT..INPUTS].copy_from_slice(&[number, u32::from(inputs), u32::from(outputs)]);
    in_range(take_slots::<Input, 5>(bytes, at + 6, inputs, fields, INPUTS))?;
    in_range(take_slots::<Output, 3>(bytes, at + 62, outputs, fields, OUTPUTS))?;
    last_cause(bytes, at + 6, at + 62, inputs)
}

// The record at the front of the bytes, of kind 1 or 2.
pub(crate) fn take_record(bytes: &[u8], fields: &mut [u32; 42]) -> Result<(), Refusal>
    requires { (head_cause bytes.now ≡ Ok tt) × ((kind_of bytes.now ≡ 1) ⊎ (kind_of bytes.now ≡ 2)) }
    ensures { TakesRecord bytes.now result fields.new }
{
    in_range(front_fits(bytes))?;
    if bytes[0] == REGISTER {
        let front = Record::Register { receiver: bytes[1] };
        fields[..FRONT].copy_from_slice(&record_words(front));
        return take_transaction(bytes, 2, fields);
    }
    let front = Record::Vote {
        receiver: bytes[1],
        sender: bytes[2],
        verdict: bytes[3],
    };
    fields[..FRONT].copy_from_slice(&record_words(front));
    take_transaction(bytes, 4, fields)
}
