// The simulation plays the lists of calls that demand 3 speaks of: the statement is specs/Calls.antt, the proof stands in proofs/.

#![tactic(auto)]
