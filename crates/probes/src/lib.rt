// What tests and benchmarks alone ask the engine for, as a library of its own beside the one for planners: any words
// and any bytes get an answer. A transaction is 35 words, as the crate `engine` has them (its src/lib.rt).
#![tactic(auto)]

pub mod transactions; // the field checks, who takes part, equality
pub mod votes; // many records read, for a benchmark
