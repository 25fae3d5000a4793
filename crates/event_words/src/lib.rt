// The words of a length that a system allows, and how many end in each of its states. Definitions and laws only.

#![tactic(auto)]
