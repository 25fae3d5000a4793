// Demand 3 of the calls: the statement is specs/Demand.antt, the proof stands in proofs/.

#![tactic(auto)]
