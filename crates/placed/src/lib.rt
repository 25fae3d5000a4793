// By its own places, a look-up finds every record of an accepted plan: specs/Placed.antt.

#![tactic(auto)]
