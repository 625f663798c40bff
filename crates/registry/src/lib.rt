// The transactions that a shard knows, the verdicts heard on them, and the decisions, in place: document 01, 'The
// steps'. Internal: the crate `shard` calls it.
// Stays: a slot is its number beside the words that C lends, and what a function needs of both stands in its contract (`layout::entries`
// says why). `known ≤ known_slots` and `OneEach` are parts of `Sound`, which the crate `shard` has.
#![tactic(auto)]

pub mod awaiting; // inputs that await an undecided transaction
pub mod counting; // inputs here of a known transaction
pub mod deciding; // the decision from the verdicts heard
pub mod finding; // known transactions by number and by every field
pub mod reserving; // outputs here of undecided transactions
