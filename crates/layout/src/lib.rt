// A shard (document 01: a pantry) as one array of words that its caller owns, and what stands where in it. Above this
// crate nothing speaks of single words. The names here are those of specs/Layout.antt. Internal: a caller holds the
// words, and the calls of `shard` and `cluster` alone change them.
#![tactic(auto)]

mod kept; // what is kept in some words
pub mod counts; // the number, the counts, the flags, and an empty shard
pub mod tokens; // the tokens held
pub mod entries; // the known transactions, read
pub mod verdicts; // what is heard from a sender, as a number
pub mod findings; // what is found about inputs, as numbers
pub mod stores; // the known transactions, stored

// Slots.
pub const TOKEN_SLOTS: usize = 128;

pub const KNOWN_SLOTS: usize = 32;

pub const GENESIS_SLOTS: usize = 128;

// Words of a slot, and what stands where within it.
pub const TOKEN_SIZE: usize = 5;

pub const INPUT_SIZE: usize = 5;

pub const OUTPUT_SIZE: usize = 3;

pub const FOUND_SIZE: usize = 2;

pub const INPUTS_OFFSET: usize = 3;

pub const OUTPUTS_OFFSET: usize = INPUTS_OFFSET + 4 * INPUT_SIZE;

pub const HEARD_OFFSET: usize = OUTPUTS_OFFSET + 4 * OUTPUT_SIZE;

pub const FINDINGS_OFFSET: usize = HEARD_OFFSET + 8;

pub const KNOWN_SIZE: usize = FINDINGS_OFFSET + 4 * FOUND_SIZE;

// Places.
pub const NUMBER_PLACE: usize = 0;

pub const HELD_PLACE: usize = 1;

pub const KNOWN_PLACE: usize = 2;

pub const TURNED_PLACE: usize = 3;

pub const GIVEN_PLACE: usize = 4;

pub const TOKENS_PLACE: usize = GIVEN_PLACE + GENESIS_SLOTS;

pub const TRANSACTIONS_PLACE: usize = TOKENS_PLACE + TOKEN_SLOTS * TOKEN_SIZE;

pub const SHARD_WORDS: usize = TRANSACTIONS_PLACE + KNOWN_SLOTS * KNOWN_SIZE;

// A shard's words.
// Stays: an array of words, and as many slots in it as there can be, since C owns the memory and lends it, and nothing is allocated.
pub type Words = [u32; SHARD_WORDS];
