// Laws for the loops of the engine, once for every element type: proofs/Loops.antt, Places.antt, Prefixes.antt and Positions.antt. There is no code here.
#![tactic(auto)]
