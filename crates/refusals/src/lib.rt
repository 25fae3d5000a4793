// What a refused call leaves as it was: specs/Refusals.antt.

#![tactic(auto)]
