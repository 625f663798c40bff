// The plain types that every part of the engine speaks of, the field checks 3, 4 and 5, and equality.
// Fields are raw: every value can be handed in, and the checks say what is wrong with it.
// The interface: the types; `checks::cause`, `register_cause`, `vote_cause`, `mint_cause` and `turn_cause`; `equality::same_transaction`; all of `parts`.
// Internal, and public only because the crates `reader` and `engine` are made of them: `slot`, `fields`, and the rest of `checks`.
#![tactic(auto)]

pub mod refusal; // the table of refusals
pub mod equality; // every field agrees
pub mod slot; // what stands in a slot, an input or an output
pub mod fields; // check 3
pub mod checks; // checks 3, 4 and 5 in their order
pub mod parts; // the used slots, and the shards that take part

// A token's id (document 01: a token's name): the shard (pantry) that holds it, the number of the
// transaction that made it (0 for a genesis token), and its index (position).
#[derive(Clone, Copy, PartialEq, Eq)]
pub struct TokenId {
    pub shard: u8,
    pub creator: u32,
    pub index: u8,
}

// The token that a transaction destroys, with its owner (household) and amount (portions).
#[derive(Clone, Copy, PartialEq, Eq)]
pub struct Input {
    pub token: TokenId,
    pub owner: u32,
    pub amount: u32,
}

// A token that a transaction makes; its index is its place among all outputs.
#[derive(Clone, Copy, PartialEq, Eq)]
pub struct Output {
    pub shard: u8,
    pub owner: u32,
    pub amount: u32,
}

// A transaction (document 01: a swap). The counts say how many slots are used.
// Stays: counts beside four slots. They are a record's raw fields, any value can be handed in, and check 3 (`fields_fit`)
// says what is wrong with it; `used_inputs` and `used_outputs` are the slots in use.
#[derive(Clone, Copy, PartialEq, Eq)]
pub struct Transaction {
    pub number: u32,
    pub input_count: u8,
    pub output_count: u8,
    pub inputs: [Input; 4],
    pub outputs: [Output; 4],
}
