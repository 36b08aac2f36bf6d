// No code: what the crates below promise together, stated in specs/ and proved in proofs/.
#![tactic(auto)]
