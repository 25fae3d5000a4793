// The laws by which what stands above knows a turn, a response, a tick and the fit of a state: specs/Laws.antt.

#![tactic(auto)]
