// What one call of the check in pieces leaves, the next one reads: specs/Laws.antt. Theorems only.

#![tactic(auto)]
