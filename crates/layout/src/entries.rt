// The known transactions, read: whole, or only the words that a question needs.
// Stays: a slot is its number, and `k < known_slots` stands in each contract. Slots come out of loops over the count and out
// of searches, whose contracts speak of the number itself: a struct would be made and taken apart at each of these places.
ghost use Rattle.std.specs.Prelude.{ℕ, List, ◌≡◌, ◌<◌, None, length, get_or};
ghost use Rattle.transaction.specs.declared.Transaction.{Transaction};
ghost use Rattle.transaction.specs.Tokens.{input_shard, output_shard, zero_input, zero_output};
ghost use Rattle.layout.specs.Layout.{known_slots, slot_known};
ghost use Rattle.layout.specs.Reads.{four-inputs, four-outputs};

use crate::kept::{byte, read_all};
use crate::verdicts::said_from;
use crate::{
    FINDINGS_OFFSET, HEARD_OFFSET, INPUT_SIZE, INPUTS_OFFSET, KNOWN_SIZE, OUTPUT_SIZE,
    OUTPUTS_OFFSET, TRANSACTIONS_PLACE, Words,
};
use model::{Finding, Known};
use transaction::{Input, Output, Transaction};

// Stays: `reader` has a function of this name; that one reads bytes at a place, and this one words of a slot.
pub fn transaction_at(s: &Words, k: usize) -> Transaction
    requires { k < known_slots }
    ensures { result ≡ (slot_known s.now k).transaction }
{
    let b = TRANSACTIONS_PLACE + k * KNOWN_SIZE;
    Transaction {
        number: s[b],
        input_count: byte(s[b + 1]),
        output_count: byte(s[b + 2]),
        inputs: read_all(s, b + INPUTS_OFFSET),
        outputs: read_all(s, b + OUTPUTS_OFFSET),
    }
}

// What was found about its inputs at its registration.
pub fn findings_at(s: &Words, k: usize) -> [Finding; 4]
    requires { k < known_slots }
    ensures { result ≡ (slot_known s.now k).findings }
{
    read_all(s, TRANSACTIONS_PLACE + k * KNOWN_SIZE + FINDINGS_OFFSET)
}

pub fn known_at(s: &Words, k: usize) -> Known
    requires { k < known_slots }
    ensures { result ≡ slot_known s.now k }
{
    Known {
        transaction: transaction_at(s, k),
        heard: read_all(s, TRANSACTIONS_PLACE + k * KNOWN_SIZE + HEARD_OFFSET),
        findings: findings_at(s, k),
    }
}

// The number alone, for searches.
pub fn number_at(s: &Words, k: usize) -> u32
    requires { k < known_slots }
    ensures { result ≡ (slot_known s.now k).transaction.number }
{
    s[TRANSACTIONS_PLACE + k * KNOWN_SIZE]
}

// What is heard from a sender: yes, no or nothing, and nothing for a number above 7.
// Stays: a test of the index. The words of a shard are one array, so that `get` would need a slice of these eight first.
pub fn heard_at(s: &Words, k: usize, sender: u8) -> Option<bool>
    requires { k < known_slots }
    ensures { result ≡ get_or (slot_known s.now k).heard sender None }
{
    let at = usize::from(sender);
    if at < 8 {
        return said_from(byte(s[TRANSACTIONS_PLACE + k * KNOWN_SIZE + HEARD_OFFSET + at]));
    }
    None
}

// The inputs of a known transaction, or its outputs: what is asked of them without reading the whole transaction.
pub trait Side: Sized {
    ghost count: { Transaction → ℕ };

    ghost slots: { Transaction → List Self };

    ghost shard: { Self → ℕ };

    ghost zero: { Self };

    // How many there are.
    fn count_at(s: &Words, k: usize) -> u8
        requires { k < known_slots }
        ensures { result ≡ count (slot_known s.now k).transaction };

    // The shard of one of the four.
    fn shard_at(s: &Words, k: usize, i: usize) -> u8
        requires { (k < known_slots) × (i < 4) }
        ensures { result ≡ shard (get_or (slots (slot_known s.now k).transaction) i zero) };

    ghost four: { (ws : List ℕ) (k : ℕ) → k < known_slots → length (slots (slot_known ws k).transaction) ≡ 4 };
}

impl Side for Input {
    ghost count = { λ t. t.input_count };

    ghost slots = { λ t. t.inputs };

    ghost shard = { input_shard };

    ghost zero = { zero_input };

    fn count_at(s: &Words, k: usize) -> u8 {
        byte(s[TRANSACTIONS_PLACE + k * KNOWN_SIZE + 1])
    }

    fn shard_at(s: &Words, k: usize, i: usize) -> u8 {
        byte(s[TRANSACTIONS_PLACE + k * KNOWN_SIZE + INPUTS_OFFSET + i * INPUT_SIZE])
    }

    ghost four = { four-inputs };
}

impl Side for Output {
    ghost count = { λ t. t.output_count };

    ghost slots = { λ t. t.outputs };

    ghost shard = { output_shard };

    ghost zero = { zero_output };

    fn count_at(s: &Words, k: usize) -> u8 {
        byte(s[TRANSACTIONS_PLACE + k * KNOWN_SIZE + 2])
    }

    fn shard_at(s: &Words, k: usize, i: usize) -> u8 {
        byte(s[TRANSACTIONS_PLACE + k * KNOWN_SIZE + OUTPUTS_OFFSET + i * OUTPUT_SIZE])
    }

    ghost four = { four-outputs };
}
