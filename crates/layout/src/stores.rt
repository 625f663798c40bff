// The known transactions, stored.
ghost use Rattle.std.specs.Prelude.{◌+◌, ◌≤◌, ◌<◌};
ghost use Rattle.model.specs.Steps.{with_said};
ghost use Rattle.layout.specs.Layout.{shard_words, known_slots, slot_known, PutsKnown, Within, Headed};

use crate::kept::put_all;
use crate::verdicts::said_number;
use crate::{
    FINDINGS_OFFSET, HEARD_OFFSET, INPUTS_OFFSET, KNOWN_SIZE, OUTPUTS_OFFSET, TRANSACTIONS_PLACE,
    Words,
};
use model::Known;

// Notes a verdict of a sender on a known transaction.
pub fn put_heard(s: &mut Words, k: usize, sender: usize, said: bool)
    requires { (k < known_slots) × (sender < 8) }
    ensures { PutsKnown s.old k (with_said sender said (slot_known s.old k)) s.new }
{
    s[TRANSACTIONS_PLACE + k * KNOWN_SIZE + HEARD_OFFSET + sender] = said_number(Some(said));
}

// A number and two counts.
fn put_head(s: &mut Words, b: usize, number: u32, inputs: u8, outputs: u8)
    requires { b + 3 ≤ shard_words }
    ensures { Within b (b + 3) s.old s.new × Headed s.new b number inputs outputs }
{
    s[b] = number;
    s[b + 1] = u32::from(inputs);
    s[b + 2] = u32::from(outputs);
}

pub fn put_known(s: &mut Words, k: usize, x: Known)
    requires { k < known_slots }
    ensures { PutsKnown s.old k x s.new }
{
    let b = TRANSACTIONS_PLACE + k * KNOWN_SIZE;
    put_head(
        s,
        b,
        x.transaction.number,
        x.transaction.input_count,
        x.transaction.output_count,
    );
    put_all(s, b + INPUTS_OFFSET, x.transaction.inputs);
    put_all(s, b + OUTPUTS_OFFSET, x.transaction.outputs);
    put_all(s, b + HEARD_OFFSET, x.heard);
    put_all(s, b + FINDINGS_OFFSET, x.findings);
}
