// The verdict on a plan image. Its definition is specs/Check.antt; the code that gives it is in the crate checker.
#![tactic(auto)]
