// Document 01's starred edge cases and its example in one table: specs/Table.antt, proved in proofs/Starred.antt.
// There is no code here.
#![tactic(auto)]
