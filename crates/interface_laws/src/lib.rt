// What holds of every call over lent bytes: specs/Laws.antt. No code.

#![tactic(auto)]
