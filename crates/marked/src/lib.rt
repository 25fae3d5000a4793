// The marked examples of document 01, as one checked table: specs/Table.antt.

#![tactic(auto)]
