// A cluster (document 01: a round of eight pantries) in its caller's memory, and calls on it: exported functions.
// Stays: the C interface. include/plankeeper.h declares a function for a cluster and one for a lone shard, each by its own name: C has no generic functions.
// Stays: the C interface. C has one function for each kind of record, with that kind's fields as its arguments.
// Stays: the words, receiver to amount, are arguments one by one, and that the memory is `Sound` is asked of each caller: C hands over words and pointers.
ghost use Rattle.std.specs.Prelude.{◌≡◌, ◌*◌};
ghost use Rattle.model.specs.Shard.{mint, register, deliver, turn};
ghost use Rattle.layout.specs.Layout.{shard_words};
ghost use Rattle.cluster.specs.View.{Sound, Fresh};
ghost use Rattle.words.specs.Words.{byte_of, transaction_from};
ghost use Rattle.engine.specs.Calls.{cluster_called, applied, ClusterDoes};

use crate::codes::{answer_code, refusal_number};
use calls::call;
use cluster::Cluster;
use layout::SHARD_WORDS;
use words::{narrow, transaction_from};

// How many words a cluster has.
#[unsafe(no_mangle)]
pub extern "C" fn plankeeper_words() -> usize
    ensures { result ≡ 8 * shard_words }
{
    8 * SHARD_WORDS
}

// Eight empty shards, whatever the words were.
#[unsafe(no_mangle)]
pub extern "C" fn plankeeper_new(c: &mut Cluster)
    ensures { Fresh c.new }
{
    cluster::new(c);
}

// The record at the front of the bytes, read and carried out; where it is refused with 1 to 5, nothing is changed.
#[unsafe(no_mangle)]
pub extern "C" fn plankeeper_apply(c: &mut Cluster, bytes: &[u8]) -> u32
    requires { Sound c.old }
    ensures { ClusterDoes (applied c.old bytes.now) result c.new }
{
    let reading = reader::read(bytes);
    // Stays: a `match`. With `and_then` the proof did not close: what the closure leaves in the lent cluster has no name that an answer may cite.
    match reading.answer {
        Ok(fields) => answer_code(call(c, fields, reading.transaction)),
        Err(refusal) => refusal_number(refusal),
    }
}

// An opening: the receiving shard is given a genesis token.
#[unsafe(no_mangle)]
pub extern "C" fn plankeeper_mint(
    c: &mut Cluster,
    receiver: u32,
    index: u32,
    owner: u32,
    amount: u32,
) -> u32
    requires { Sound c.old }
    ensures { ClusterDoes
        (cluster_called c.old (mint (byte_of receiver) (byte_of index) owner amount))
        result c.new }
{
    let to = narrow(receiver);
    let place = narrow(index);
    answer_code(cluster::mint_token(c, to, place, owner, amount))
}

// The receiving shard is asked to register the transaction (document 01: the swap), and votes on it.
#[unsafe(no_mangle)]
pub extern "C" fn plankeeper_register(
    c: &mut Cluster,
    receiver: u32,
    transaction: &[u32; 35],
) -> u32
    requires { Sound c.old }
    ensures { ClusterDoes
        (cluster_called c.old (register (byte_of receiver) (transaction_from transaction.now)))
        result c.new }
{
    let to = narrow(receiver);
    let t = transaction_from(transaction);
    answer_code(cluster::register_transaction(c, to, t))
}

// The sending shard's vote is delivered to the receiving one: the verdict is 1 for yes and 0 for no.
#[unsafe(no_mangle)]
pub extern "C" fn plankeeper_deliver(
    c: &mut Cluster,
    receiver: u32,
    sender: u32,
    verdict: u32,
    transaction: &[u32; 35],
) -> u32
    requires { Sound c.old }
    ensures { ClusterDoes
        (cluster_called c.old
        (deliver (byte_of receiver) (byte_of sender) (byte_of verdict) (transaction_from transaction.now)))
        result c.new }
{
    let to = narrow(receiver);
    let from = narrow(sender);
    let said = narrow(verdict);
    let t = transaction_from(transaction);
    answer_code(cluster::deliver_vote(c, to, from, said, t))
}

// The receiving shard turns: what is pledged to transactions that it has aborted comes free, and each later abort frees its own.
#[unsafe(no_mangle)]
pub extern "C" fn plankeeper_turn(c: &mut Cluster, receiver: u32) -> u32
    requires { Sound c.old }
    ensures { ClusterDoes (cluster_called c.old (turn (byte_of receiver))) result c.new }
{
    let to = narrow(receiver);
    answer_code(cluster::turn_shard(c, to))
}
