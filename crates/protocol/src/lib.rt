// The rules of permits over an abstract plan, and demand 3 proved of them: specs/Demand.antt.

#![tactic(auto)]
