// What an accepted plan promises, as one checked statement: specs/Plan.antt.

#![tactic(auto)]
