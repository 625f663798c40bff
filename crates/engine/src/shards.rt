// A lone shard (document 01: a pantry) in its caller's memory, and calls on it: exported functions.
// Stays: the C interface. include/plankeeper.h declares a function for a cluster and one for a lone shard, each by its own name: C has no generic functions.
// Stays: the C interface. C has one function for each kind of record, with that kind's fields as its arguments.
// Stays: the words, receiver to amount, are arguments one by one, and that the memory is `Sound` is asked of each caller: C hands over words and pointers.
ghost use Rattle.std.specs.Prelude.{◌≡◌};
ghost use Rattle.model.specs.Shard.{mint, register, deliver, turn};
ghost use Rattle.layout.specs.Layout.{shard_words};
ghost use Rattle.shard.specs.View.{number, Sound, Fresh};
ghost use Rattle.words.specs.Words.{byte_of, transaction_from};
ghost use Rattle.engine.specs.Calls.{shard_called, ShardDoes};

use crate::codes::answer_code;
use layout::{SHARD_WORDS, Words};
use words::{narrow, transaction_from};

// How many words a shard has.
#[unsafe(no_mangle)]
pub extern "C" fn plankeeper_shard_words() -> usize
    ensures { result ≡ shard_words }
{
    SHARD_WORDS
}

// An empty shard of that number, whatever the words were.
#[unsafe(no_mangle)]
pub extern "C" fn plankeeper_shard_new(s: &mut Words, number: u32)
    ensures { Fresh (byte_of number) s.new }
{
    shard::new(s, narrow(number));
}

// An opening: the shard is given a genesis token.
#[unsafe(no_mangle)]
pub extern "C" fn plankeeper_shard_mint(
    s: &mut Words,
    receiver: u32,
    index: u32,
    owner: u32,
    amount: u32,
) -> u32
    requires { Sound s.old }
    ensures { ShardDoes (number s.old)
        (shard_called s.old (mint (byte_of receiver) (byte_of index) owner amount))
        result s.new }
{
    let to = narrow(receiver);
    let place = narrow(index);
    answer_code(shard::mint_token(s, to, place, owner, amount))
}

// The shard is asked to register the transaction (document 01: the swap), and votes on it.
#[unsafe(no_mangle)]
pub extern "C" fn plankeeper_shard_register(
    s: &mut Words,
    receiver: u32,
    transaction: &[u32; 35],
) -> u32
    requires { Sound s.old }
    ensures { ShardDoes (number s.old)
        (shard_called s.old (register (byte_of receiver) (transaction_from transaction.now)))
        result s.new }
{
    let to = narrow(receiver);
    let t = transaction_from(transaction);
    answer_code(shard::register_transaction(s, to, t))
}

// The shard hears the sending shard's vote, which nobody else has seen: the verdict is 1 for yes and 0 for no.
#[unsafe(no_mangle)]
pub extern "C" fn plankeeper_shard_hear(
    s: &mut Words,
    receiver: u32,
    sender: u32,
    verdict: u32,
    transaction: &[u32; 35],
) -> u32
    requires { Sound s.old }
    ensures { ShardDoes (number s.old)
        (shard_called s.old
        (deliver (byte_of receiver) (byte_of sender) (byte_of verdict) (transaction_from transaction.now)))
        result s.new }
{
    let to = narrow(receiver);
    let from = narrow(sender);
    let said = narrow(verdict);
    let t = transaction_from(transaction);
    answer_code(shard::hear_vote(s, to, from, said, t))
}

// The shard turns: what is pledged to transactions that it has aborted comes free, and each later abort frees its own.
#[unsafe(no_mangle)]
pub extern "C" fn plankeeper_shard_turn(s: &mut Words, receiver: u32) -> u32
    requires { Sound s.old }
    ensures { ShardDoes (number s.old) (shard_called s.old (turn (byte_of receiver))) result s.new }
{
    let to = narrow(receiver);
    answer_code(shard::turn_shard(s, to))
}
