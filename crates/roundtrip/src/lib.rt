// No code: that records and their bytes are the same thing is stated in specs/RoundTrip.antt and proved in proofs/.

#![tactic(auto)]
