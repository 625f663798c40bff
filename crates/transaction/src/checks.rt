// The first fitting of the checks 3, 4 and 5: one function for the reader, the writers, a shard and the cluster.
// Stays: one function for each kind of record, as the specification has a table for each; fields one by one, any value of
// which can be handed in.
ghost use Rattle.std.specs.Prelude.{◌≡◌, take};
ghost use Rattle.transaction.specs.Lists.{any, repeats, first_of};
ghost use Rattle.transaction.specs.Checks.{same_name, names, cause_of, register_checks, vote_checks, mint_checks, turn_checks};

use crate::equality::same_token;
use crate::fields::{fields_fit, mint_fits, shard_fits};
use crate::refusal::Refusal;
use crate::slot::total;
use crate::{Input, Transaction};

fn same_name(a: Input, b: Input) -> bool
    ensures { result ≡ same_name a b }
{
    same_token(a.token, b.token)
}

// One of the earlier inputs names the same token.
fn named_before(a: Input, earlier: &[Input]) -> bool
    ensures { result ≡ any (names a) earlier.now }
{
    for b in earlier {
        if same_name(*b, a) {
            return true;
        }
    }
    false
}

// Check 4: one token is named twice among the used inputs.
pub fn named_twice(count: u8, x: [Input; 4]) -> bool
    ensures { result ≡ repeats same_name (take count x) }
{
    for k in 0..usize::from(count).min(4) {
        if named_before(x[k], &x[..k]) {
            return true;
        }
    }
    false
}

// All four slots are summed: check 3 has passed, so that unused ones add nothing. It is made part of each caller: where
// it was called, a transaction went through memory, and the checks took half as long again.
#[inline(always)]
pub fn cause(genesis: u8, t: Transaction) -> Result<(), Refusal>
    ensures { result ≡ cause_of genesis t }
{
    if !fields_fit(genesis, t) {
        return Err(Refusal::OutOfRange);
    }
    let count = t.input_count;
    let x = t.inputs;
    if named_twice(count, x) {
        return Err(Refusal::TokenTwice);
    }
    if total(x) != total(t.outputs) {
        return Err(Refusal::SumsDiffer);
    }
    Ok(())
}

// The first fitting of a record's field checks, by its kind.
pub fn register_cause(genesis: u8, receiver: u8, t: Transaction) -> Result<(), Refusal>
    ensures { result ≡ first_of (register_checks genesis receiver t) }
{
    if !shard_fits(receiver) {
        return Err(Refusal::OutOfRange);
    }
    cause(genesis, t)
}

pub fn vote_cause(
    genesis: u8,
    receiver: u8,
    sender: u8,
    verdict: u8,
    t: Transaction,
) -> Result<(), Refusal>
    ensures { result ≡ first_of (vote_checks genesis receiver sender verdict t) }
{
    if !shard_fits(receiver) {
        return Err(Refusal::OutOfRange);
    }
    if !shard_fits(sender) {
        return Err(Refusal::OutOfRange);
    }
    if 1 < verdict {
        return Err(Refusal::OutOfRange);
    }
    cause(genesis, t)
}

pub fn mint_cause(
    genesis: u8,
    receiver: u8,
    index: u8,
    owner: u32,
    amount: u32,
) -> Result<(), Refusal>
    ensures { result ≡ first_of (mint_checks genesis receiver index owner amount) }
{
    if !mint_fits(genesis, receiver, index, owner, amount) {
        return Err(Refusal::OutOfRange);
    }
    Ok(())
}

pub fn turn_cause(receiver: u8) -> Result<(), Refusal>
    ensures { result ≡ first_of (turn_checks receiver) }
{
    if !shard_fits(receiver) {
        return Err(Refusal::OutOfRange);
    }
    Ok(())
}
