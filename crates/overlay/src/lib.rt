// The overlay law is about the definition, not about code: it is in specs/ and proofs/.
#![tactic(auto)]
