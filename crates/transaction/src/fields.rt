// Check 3: each field in its range, and slots beyond the count all zero.
ghost use Rattle.std.specs.Prelude.{◌≡◌, not, ◌&&◌, eqb, leb};
ghost use Rattle.transaction.specs.Checks.{shard_fits, index_fits, value_fits, fields_fit, mint_fits};

use crate::Transaction;
use crate::slot::slots_fit;

pub fn shard_fits(shard: u8) -> bool
    ensures { result ≡ shard_fits shard }
{
    shard <= 7
}

pub(crate) fn index_fits(genesis: u8, creator: u32, index: u8) -> bool
    ensures { result ≡ index_fits genesis creator index }
{
    let limit = if creator == 0 { genesis } else { 4 };
    index < limit
}

pub(crate) fn value_fits(owner: u32, amount: u32) -> bool
    ensures { result ≡ value_fits owner amount }
{
    (owner != 0) & (1 <= amount) & (amount <= 1000000)
}

// A number that is not 0, 1 to 4 inputs and 1 to 4 outputs.
pub fn counts_fit(number: u32, inputs: u8, outputs: u8) -> bool
    ensures { result ≡ (not (eqb number 0) && leb 1 inputs && leb inputs 4 && leb 1 outputs && leb outputs 4) }
{
    (number != 0) & (1 <= inputs) & (inputs <= 4) & (1 <= outputs) & (outputs <= 4)
}

// It is part of `cause`, wherever that is.
#[inline(always)]
pub(crate) fn fields_fit(genesis: u8, t: Transaction) -> bool
    ensures { result ≡ fields_fit genesis t }
{
    if !counts_fit(t.number, t.input_count, t.output_count) {
        return false;
    }
    slots_fit(genesis, t.input_count, t.inputs) && slots_fit(genesis, t.output_count, t.outputs)
}

// Check 3 of a genesis token for a shard.
pub(crate) fn mint_fits(genesis: u8, receiver: u8, index: u8, owner: u32, amount: u32) -> bool
    ensures { result ≡ mint_fits genesis receiver index owner amount }
{
    shard_fits(receiver) & index_fits(genesis, 0, index) & value_fits(owner, amount)
}
