// The engine as a library for planners: target/staticlib/libengine.a, to be linked into a program in C, in Rust or in any
// other language that calls functions of C. Rattle, which it is written in, is a language like Rust where a function has a
// contract beside it: `requires` is what its caller sees to, `ensures` what it promises. It is compiled only if a machine
// has checked a proof that it keeps the contract for every input. The exported functions are those marked `#[unsafe(no_mangle)]`.
//
// What crosses the boundary are numbers and the caller's own memory; nothing is allocated, and nothing is kept between calls.
// - A word is a u32. A `&[u32; 35]` is one pointer, to 35 words; a `&[u8]` is a pointer and then the number of bytes (usize).
//   Behind a `&mut` the engine writes, and its contract says what stands in that memory afterwards. A pointer is not null and
//   is aligned for what it points to; what is written to is no part of what another argument points to.
// - A cluster (`&mut Cluster`, `&Cluster`) is one pointer, to plankeeper_words() words. plankeeper_new makes a cluster of them,
//   whatever they were. From then on nobody but the engine writes there: that is what `requires` asks for (`Sound`), and each
//   call ensures it for the next. There is no pointer in the words, so that a copy of all of them is a cluster, too. Any number
//   of clusters may be in use, each in memory of its own. Nothing is to be given back at the end but the memory.
// - A lone shard (`&mut Words`, `&Words`) is likewise one pointer, to plankeeper_shard_words() words, and plankeeper_shard_new
//   makes it. It is one of the eight without the other seven; which votes it hears is up to the caller.
// - A transaction is 35 words: number, input count, output count, four inputs of five words (shard, creator, index, owner, amount),
//   four outputs of three words (shard, owner, amount). Slots beyond the counts must be zero, or the transaction is refused.
// - A word above 255 where a field is a byte stands for 255, which no field allows, so that it is refused (with 3). The same holds
//   for a receiver, a sender, a verdict and an index that is an argument. A function takes any words and any bytes.
//
// A call's answer is one number; specs/Codes.antt has the definition:
//   below 100                       refused, with that number of document 01's table; nothing is changed
//   100                             the genesis token is given
//   200 + 10 * verdict + outcome    registered; the shard's own verdict is 1 for yes, 0 for no, and a no aborts at once: 202
//   300 + outcome                   a vote heard for the first time
//   400 + outcome                   a vote that was heard before; nothing is changed
//   500                             the shard is turned: what was pledged to transactions that it has aborted is free
//   600 + 10 * verdict + outcome    a vote that brought its transaction, which is registered with it; the shard's own verdict as with 200
// The outcome is what the receiving shard has decided on the transaction: 0 nothing yet, 1 commit, 2 abort.
//
// A query changes nothing but the words lent for its answer, and any shard and any place get one; specs/Queries.antt has the definitions:
//   a token      1, and its five words: creator, index, owner, amount, pledge (0: to none); 0 and zeros behind the last
//   a known one  the outcome, and its 43 words: the transaction's 35 and the verdict heard from each shard (0 none, 1 no, 2 yes);
//                3 and zeros behind the last
//   turned       1 for a shard that has turned, 0 for one that has not
//   findings     700 + how many there are, one for each input at that shard of the known transaction of that number, in input order; and
//                8 words: for each what was found (1 available, 2 not held, 3 another owner, 4 another amount, 5 pledged) and the number
//                of the pledging transaction (0: none), zeros behind the last. Or refused with 3 (a shard above 7, at a lone shard any
//                but its own; the number 0) or 18 (a number that is not known there), and the words stay as they were
//
// include/plankeeper.h says the same to a compiler of C, rust/plankeeper to one of Rust. proofs/Demand.antt has the theorem about every list of
// these calls (planner_demand_3; its words are in specs/Asks.antt).
//
// Refusals have the numbers of document 01's table, and those that document 02 adds to it. Document 01 calls a shard a pantry, a cluster
// a round, a transaction a swap, an owner a household, an amount portions, a genesis token an opening, and a token's creator and index
// its making swap and its position.
#![tactic(auto)]

mod codes; // an answer as a number
mod fields; // what was read of a record, as 42 words
mod slots; // a transaction's slots, put straight from the bytes into these words and checked
mod taking; // and likewise a whole record with a transaction
mod ledgers; // a held token as 5 words, a known transaction as 43
mod findings; // what was found about its inputs, as 8
pub mod records; // records read and written: plankeeper_read, _taken, _write_register, _write_vote, _write_mint, _write_turn
pub mod clusters; // a cluster: plankeeper_words, _new, _apply, _mint, _register, _deliver, _turn
pub mod cluster_queries; // plankeeper_held_count, _token_at, _known_count, _known_at, _outcome_of, _findings, _is_turned, _total_at, _total
pub mod shards; // a lone shard: plankeeper_shard_words, _shard_new, _shard_mint, _shard_register, _shard_hear, _shard_turn
pub mod shard_queries; // plankeeper_shard_held_count, and likewise _token_at, _known_count, _known_at, _outcome_of, _findings, _is_turned, _total
