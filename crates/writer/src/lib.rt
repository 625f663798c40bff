// The record writers: document 01, 'Records'. A refused record leaves every lent byte as it was.
// Stays: one function for each kind of record, all of them public, with fields one by one, any value of which can be handed in.
#![tactic(auto)]

ghost use Rattle.std.specs.Prelude.{◌≡◌, length};
ghost use Rattle.transaction.specs.Lists.{first_of};
ghost use Rattle.writer.specs.Layout.{register_bytes, vote_bytes, mint_bytes, turn_bytes};
ghost use Rattle.writer.specs.Writing.{Writes, room_checks, register_cause, vote_cause, mint_cause, turn_cause};

use transaction::refusal::Refusal;
use transaction::{Transaction, checks};

mod layout; // fields at their places

// Check 15: the lent bytes have room for the record.
fn room(out: &[u8], size: usize) -> Result<(), Refusal>
    ensures { result ≡ first_of (room_checks size (length out.now)) }
{
    if out.len() < size {
        return Err(Refusal::BufferTooShort);
    }
    Ok(())
}

// A record of kind 1: a transaction for the shard that registers it.
pub fn write_register(receiver: u8, t: Transaction, out: &mut [u8]) -> Result<usize, Refusal>
    ensures { Writes (register_cause receiver t (length out.old)) (register_bytes receiver t)
        out.old result out.new }
{
    checks::register_cause(128, receiver, t)?;
    room(out, 100)?;
    layout::put_register(out, receiver, t);
    Ok(100)
}

// A record of kind 2: a vote, 1 yes or 0 no, from one shard to another.
pub fn write_vote(
    receiver: u8,
    sender: u8,
    verdict: u8,
    t: Transaction,
    out: &mut [u8],
) -> Result<usize, Refusal>
    ensures { Writes (vote_cause receiver sender verdict t (length out.old)) (vote_bytes receiver sender verdict t)
        out.old result out.new }
{
    checks::vote_cause(128, receiver, sender, verdict, t)?;
    room(out, 102)?;
    layout::put_vote(out, receiver, sender, verdict, t);
    Ok(102)
}

// A record of kind 3 (an opening): a genesis token for a shard.
pub fn write_mint(
    receiver: u8,
    index: u8,
    owner: u32,
    amount: u32,
    out: &mut [u8],
) -> Result<usize, Refusal>
    ensures { Writes (mint_cause receiver index owner amount (length out.old)) (mint_bytes receiver index owner amount)
        out.old result out.new }
{
    checks::mint_cause(128, receiver, index, owner, amount)?;
    room(out, 11)?;
    layout::put_mint(out, receiver, index, owner, amount);
    Ok(11)
}

// A record of kind 4: a turn of a shard (document 02, 4).
pub fn write_turn(receiver: u8, out: &mut [u8]) -> Result<usize, Refusal>
    ensures { Writes (turn_cause receiver (length out.old)) (turn_bytes receiver)
        out.old result out.new }
{
    checks::turn_cause(receiver)?;
    room(out, 2)?;
    layout::put_turn(out, receiver);
    Ok(2)
}
