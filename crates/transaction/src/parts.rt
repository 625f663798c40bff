// The used inputs and outputs of a transaction, and the shards that take part in it.
ghost use Rattle.std.specs.Prelude.{◌≡◌, take};
ghost use Rattle.transaction.specs.Tokens.{used_inputs, used_outputs, used_input, used_output, takes_part, blank_transaction};

use crate::{Input, Output, Transaction};

// The first slots of four, as many as the count says.
fn used<T>(slots: &[T; 4], count: u8) -> &[T]
    ensures { result.now ≡ take count slots.now }
{
    &slots[..usize::from(count).min(4)]
}

impl Transaction {
    // The tokens that it destroys.
    pub fn used_inputs(&self) -> &[Input]
        ensures { result.now ≡ used_inputs self.now }
    {
        used(&self.inputs, self.input_count)
    }

    // The tokens that it makes.
    pub fn used_outputs(&self) -> &[Output]
        ensures { result.now ≡ used_outputs self.now }
    {
        used(&self.outputs, self.output_count)
    }
}

// The used input at a place, if there is one.
// Stays: one for inputs and one for outputs, which are two fields with counts of their own; what both do is `used`.
pub fn used_input(t: Transaction, place: usize) -> Option<Input>
    ensures { result ≡ used_input t place }
{
    t.used_inputs().get(place).copied()
}

pub fn used_output(t: Transaction, place: usize) -> Option<Output>
    ensures { result ≡ used_output t place }
{
    t.used_outputs().get(place).copied()
}

// One of its inputs or outputs is at the shard.
pub fn takes_part(shard: u8, t: Transaction) -> bool
    ensures { result ≡ takes_part shard t }
{
    t.used_inputs().iter().any(|x| shard == x.token.shard)
        || t.used_outputs().iter().any(|y| shard == y.shard)
}

// The transaction whose every field is zero.
pub fn blank() -> Transaction
    ensures { result ≡ blank_transaction }
{
    Transaction {
        number: 0,
        input_count: 0,
        output_count: 0,
        inputs: [Input::ZERO; 4],
        outputs: [Output::ZERO; 4],
    }
}
